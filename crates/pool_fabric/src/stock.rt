//! The chunks that nobody drew yet.
ghost use Rattle.std.specs.Prelude.{◌≡◌, ℕ, ◌<◌, [], ◌∷◌, ◌++◌, length, reverse, None, IfOk, MatchOption};
ghost use Rattle.slot_audit.specs.Audit.{class_noted};
ghost use Rattle.pool_fabric.specs.Stocks.{IsRising, AreChunks, GivesPart, IsLeast};

use region_cut::{Class, Part};
use slot_audit::Drawn;
use std::alloc::{AllocError, Global};
use std::fmt;
use std::marker::Model;

/// The parts of a region that no desk drew yet, and which chunks were drawn for which class.
#[derive(Drop)]
pub struct Stock<'r> {
    parts: Vec<Part<'r>>,
    drawn: Drawn,
}

impl<'r> Model for Stock<'r> {
    ghost use Rattle.pool_fabric.specs.Stocks.{StockState, IsFalling, AreChunks};

    ghost Value = { StockState };

    ghost view = { λ s. record { left = s.parts.items; drawn = s.drawn } };

    ghost invariant = { λ s. IsFalling s.parts.items × AreChunks s.parts.items };
}

impl<'r> Stock<'r> {
    /// The stock of these parts, in order of their numbers. No chunk is drawn. [`AllocError`] is answered
    /// only where there is no memory for the table of drawn chunks, of some 2 KB.
    pub fn new(alloc: Global, parts: Vec<Part<'r>>) -> Result<Stock<'r>, AllocError>
        requires order { IsRising parts.items }
        requires chunks { AreChunks parts.items }
        ensures left { IfOk result (λ s. s.left ≡ reverse parts.entry.items) }
        ensures none { IfOk result (λ s. (k : ℕ) → class_noted s.drawn k ≡ None) }
    {
        let drawn = Drawn::new(alloc)?;
        let mut parts = parts;
        parts.reverse();
        Ok(Stock { parts, drawn })
    }

    /// Takes out the part of the least number, and notes that it is drawn for the class; `None` where
    /// none is left. Takes constant time and no memory.
    pub fn get(&mut self, class: Class) -> Option<Part<'r>>
        ensures { MatchOption result
            ((self.old.left ≡ []) × (self.new ≡ self.old))
            (λ p. GivesPart self.old class p self.new) }
    {
        let part = self.parts.pop()?;
        self.drawn.note(part.chunk(), class);
        Some(part)
    }

    /// The parts that are left, and what was drawn.
    pub fn into_parts(self) -> (Vec<Part<'r>>, Drawn)
        ensures { (result.0.items ≡ self.entry.left) × (result.1 ≡ self.entry.drawn) }
    {
        let Stock { parts, drawn } = self;
        (parts, drawn)
    }
}

impl fmt::Debug for Stock<'_> {
    fn fmt<W: fmt::Write>(&self, f: &mut fmt::Formatter<W>) -> fmt::Result {
        write!(f, "Stock({} chunks)", self.parts.len())
    }
}
