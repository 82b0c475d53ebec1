//! What is known of chunks whose cursors are gone.
ghost use Rattle.std.specs.Prelude.{◌≡◌, ◌∷◌, ◌++◌, [], List};
ghost use Rattle.region_cut.specs.Carved.{Carved, all_joined};

use crate::endings::front::Tie;
use std::fmt;
use std::marker::{Model, PhantomData, Send};

/// What ties the bytes of chunks to those of their slots, kept when the cursors over them are gone.
/// It takes no memory.
#[derive(Drop)]
pub struct Ties {
    ghost all: { List Carved },
}

impl Model for Ties {
    ghost also_owns = { λ s. all_joined s.all };
}

// It holds nothing of its thread.
unsafe impl Send for Ties {}

// The fact of the token moves over, with the bytes that are let go, and the token is left with one
// that says nothing.
pub(crate) fn gather<'r>(
    ties: &mut Ties,
    tie: &mut Tie,
    rest: &'r mut [u8],
    chunk: u16,
    class: u32,
) -> PhantomData<&'r mut u8>
    requires unsettled { tie.old.settled ≡ [] }
    requires tied { tie.old.rest ≡ rest.ghost_name }
    ensures { ties.new.all ≡ record {
      chunk = chunk;
      class = class;
      whole = tie.old.whole;
      taken = tie.old.taken;
      rest = rest.old;
    } ∷ ties.old.all }
{
    PhantomData
}

// What the other knows moves over.
pub(crate) fn join(ties: &mut Ties, other: &mut Ties)
    ensures all { ties.new.all ≡ other.old.all ++ ties.old.all }
    ensures none { other.new.all ≡ [] }
{}

impl Ties {
    /// Nothing is known.
    pub fn new() -> Ties
        ensures { result.all ≡ [] }
    {
        Ties {}
    }
}

impl fmt::Debug for Ties {
    fn fmt<W: fmt::Write>(&self, f: &mut fmt::Formatter<W>) -> fmt::Result {
        f.write_str("Ties")
    }
}
