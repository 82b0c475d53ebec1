//! What slices are known to end as.
ghost use Rattle.std.specs.Prelude.{◌≡◌, ◌++◌, [], List, map};
ghost use Rattle.std.specs.List.{All};
ghost use Rattle.region_cut.specs.Endings.{Ended, Agrees, HasKnownSlots, ended_chunk, all_end_so};

use crate::endings::ties::Ties;
use std::marker::{Model, Send};

// Each of the slices that are named ends as the bytes beside. It takes no memory.
#[derive(Drop)]
pub(crate) struct Known {
    ghost all: { List Ended },
    ghost agrees: { Agrees all },
}

impl Model for Known {
    ghost also_owns = { λ s. all_end_so s.all };
}

// It holds nothing of its thread.
unsafe impl Send for Known {}

pub(crate) fn nothing() -> Known
    ensures { result.all ≡ [] }
{
    Known {}
}

// The facts of the chunks move over, each as what its slots end as.
pub(crate) fn resolve(known: &mut Known, ties: &mut Ties)
    requires { All (HasKnownSlots known.old.all) ties.old.all }
    ensures all { known.new.all ≡ map (ended_chunk known.old.all) ties.old.all ++ known.old.all }
    ensures none { ties.new.all ≡ [] }
{}
