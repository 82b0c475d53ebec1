//! The names of a region's parts.
ghost use Rattle.std.specs.Prelude.{◌≡◌, List, map};
ghost use Rattle.std.specs.Borrow.{ftrue, GName};
ghost use Rattle.region_cut.specs.Parts.{name_of};

use region_cut::Part;
use std::marker::Model;

/// The names of parts, in order: by them it is known what the parts hold when the region's borrow ends. Only contracts
/// read them, and they take no memory.
#[derive(Drop)]
pub(crate) struct PartNames {
    ghost all: { List GName },
}

impl Model for PartNames {
    ghost also_owns = { λ _. ftrue };
}

/// The names of these parts.
pub(crate) fn names_of(parts: &[Part<'_>]) -> PartNames
    ensures { result.all ≡ map name_of parts.now }
{
    PartNames {}
}
