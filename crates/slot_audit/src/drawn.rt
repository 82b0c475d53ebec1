//! Which chunks are drawn.
ghost use Rattle.std.specs.Prelude.{◌≡◌, ◌≢◌, ◌<◌, ℕ, Some, None, IfOk, length};
ghost use Rattle.region_cut.specs.Limits.{chunk_limit};
ghost use Rattle.slot_audit.specs.Audit.{class_noted, slot_count_in};
ghost use Rattle.slot_audit.specs.Tallies.{FitsTable};

use region_cut::{Class, MAX_CHUNKS};
use std::alloc::{AllocError, Global};
use std::marker::Model;

/// Which chunks of a region are drawn, and for which class each of them is. Contracts see it as the
/// list of the chunks' classes, by the chunk's number. It is a box of 2,048 bytes, so that it moves as
/// one pointer.
#[derive(Debug, Drop)]
pub struct Drawn {
    classes: Box<[Option<Class>; MAX_CHUNKS]>,
}

impl Model for Drawn {
    ghost use Rattle.std.specs.Prelude.{ℕ, Option, List};
    ghost use Rattle.slot_audit.specs.Tallies.{FitsTable};

    ghost Value = { List (Option ℕ) };

    ghost view = { λ d. d.classes.value };

    ghost invariant = { λ d. FitsTable d.classes.value };
}

/// So many chunks, none of them drawn.
fn undrawn<const N: usize>() -> [Option<Class>; N]
    ensures len { length result ≡ N }
    ensures none { (k : ℕ) → class_noted result k ≡ None }
{
    [None; N]
}

impl Drawn {
    /// No chunk is drawn. [`AllocError`] is answered only where the allocator refused the box.
    pub fn new(alloc: Global) -> Result<Drawn, AllocError>
        ensures { IfOk result (λ drawn. (k : ℕ) → class_noted drawn k ≡ None) }
    {
        Ok(Drawn {
            classes: Box::new(alloc, undrawn())?,
        })
    }

    /// The chunk is drawn for the class.
    pub fn note(&mut self, chunk: u16, class: Class)
        requires { chunk < chunk_limit }
        ensures noted { class_noted self.new chunk ≡ Some class }
        ensures others { (k : ℕ) → k ≢ chunk → class_noted self.new k ≡ class_noted self.old k }
    {
        self.classes[chunk as usize] = Some(class);
    }

    /// The class that the chunk is drawn for, or `None` where it isn't drawn.
    pub fn class_of(&self, chunk: u16) -> Option<Class>
        ensures { result ≡ class_noted self.now chunk }
    {
        if (chunk as usize) < MAX_CHUNKS {
            self.classes[chunk as usize]
        } else {
            None
        }
    }

    /// How many chunks it tells of.
    pub(crate) fn chunks(&self) -> usize
        ensures value { result ≡ chunk_limit }
        ensures fits { FitsTable self.now }
    {
        let classes = &*self.classes;
        classes.len()
    }

    /// How many slots the chunk has: none where it isn't drawn.
    pub(crate) fn slot_count_in(&self, chunk: u16) -> usize
        ensures value { result ≡ slot_count_in self.now chunk }
        ensures fits { FitsTable self.now }
    {
        let _ = &self.classes;
        match self.class_of(chunk) {
            Some(class) => class.slots(),
            None => 0,
        }
    }
}
