//! What follows from the definitions that the contracts of this crate cite. Each law is the
//! contract of a function, which does nothing but what the law speaks of.
ghost use Rattle.std.specs.Prelude.{◌↔◌, IsTrue};
ghost use Rattle.std.specs.Borrow.{sem};
ghost use Rattle.region_cut.specs.Laws.{WholeEndsJoined, SlicesLieInOrder, SlicesAreGivenInOrder};
ghost use Rattle.region_cut.specs.Laws.{PartsLieInOrder, PartsMakeTheWhole, SlotsLieAtTheirRanges};
ghost use Rattle.region_cut.specs.Laws.{SlotsShareNoByte, KnownEndsStay};
ghost use Rattle.region_cut.specs.Slots.{IsBefore};

use crate::slot::Slot;

/// Slots are ordered by their chunk, and in a chunk by their index.
pub fn slots_are_ordered(a: Slot, b: Slot) -> bool
    ensures { IsTrue result ↔ IsBefore a b }
{
    a < b
}

/// Where slices were lent out of another, one after the other from its front, the other ends as
/// what they end as, joined in order, and then what was left of it.
pub fn whole_ends_joined()
    ensures* { sem 𝓛 WholeEndsJoined }
{}

/// Slices that were lent out of another from its front and each end as `z` bytes: the one with the
/// index `i` is what the other holds from `i * z` on when its borrow ends.
pub fn slices_lie_in_order()
    ensures { SlicesLieInOrder }
{}

/// The slot with the index `i` is the `i`-th that its cursor gave.
pub fn slices_are_given_in_order()
    ensures { SlicesAreGivenInOrder }
{}

/// The part at the index `i` of a cut has the number `i` and holds the 4,096 bytes of the region
/// from `4096 * i` on.
pub fn parts_lie_in_order()
    ensures { PartsLieInOrder }
{}

/// A cut has a part for each whole chunk of the region, and the parts and then the tail, joined in
/// order, are the region.
pub fn parts_make_the_whole()
    ensures { PartsMakeTheWhole }
{}

/// When the borrow of a region ends, a slot's slice is what the region holds at the slot's range:
/// from `4096 * chunk + index * z` on, where `z` is the size of the class.
pub fn slots_lie_at_their_ranges()
    ensures { SlotsLieAtTheirRanges }
{}

/// The ranges of two slots have no byte in common.
pub fn slots_share_no_byte()
    ensures { SlotsShareNoByte }
{}

/// What is known of a slice stays known, and the same, whatever is let go later.
pub fn known_ends_stay()
    ensures { KnownEndsStay }
{}
