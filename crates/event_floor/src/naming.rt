//! What the names of a floor's slots tell, as contracts of functions that do nothing.
ghost use Rattle.event_floor.specs.headline.Lying.{NamedBuffersLie, UnusedSlotsLie, NamedSlotsShareNoByte};

use region_cut::laws::{slices_lie_in_order, slots_lie_at_their_ranges, slots_share_no_byte};

/// When the borrow of a region ends, the slice of a buffer that has the name of its place is what the region holds at
/// the range of its slot.
pub fn named_buffers_lie_at_their_ranges()
    ensures { NamedBuffersLie }
{
    slots_lie_at_their_ranges();
}

/// The bytes of a slot that was never handed out are then what the region holds at its range.
pub fn unused_slots_lie_at_their_ranges()
    ensures { UnusedSlotsLie }
{
    slices_lie_in_order();
}

/// The ranges of two different slots have no byte in common.
pub fn named_slots_share_no_byte()
    ensures { NamedSlotsShareNoByte }
{
    slots_share_no_byte();
}
