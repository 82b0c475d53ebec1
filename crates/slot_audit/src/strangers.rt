//! Slots that are found and don't belong there.
ghost use Rattle.std.specs.Prelude.{◌≡◌, ◌⊎◌, ◌↔◌, Some, IsTrue, IfSome, IfNone};
ghost use Rattle.region_cut.specs.Slots.{IsBefore};
ghost use Rattle.slot_audit.specs.Audit.{IsDrawnSlot, IsStranger, IsLeast, IsNowhere};
ghost use Rattle.slot_audit.specs.Tallies.{FitsTable};

use crate::Drawn;
use region_cut::Slot;

/// Whether the slot is one of a drawn chunk.
pub(crate) fn is_drawn_slot(drawn: &Drawn, slot: Slot) -> bool
    ensures value { IsTrue result ↔ IsDrawnSlot drawn.now slot }
    ensures fits { FitsTable drawn.now }
{
    (slot.index as usize) < drawn.slot_count_in(slot.chunk)
}

/// The lesser of two slots, or the only one.
fn lesser(least: Option<Slot>, slot: Slot) -> Slot
    ensures { ((least ≡ Some result) × (IsBefore slot result → ⊥))
        ⊎ ((result ≡ slot) × IfSome least (λ s. IsBefore slot s)) }
{
    match least {
        Some(least) if least <= slot => least,
        _ => slot,
    }
}

/// The least slot that is found and is no slot of a drawn chunk.
pub(crate) fn least_stranger(drawn: &Drawn, found: &[Slot]) -> Option<Slot>
    ensures some { IfSome result (λ s. IsLeast (IsStranger drawn.now found.now) s) }
    ensures none { IfNone result (IsNowhere (IsStranger drawn.now found.now)) }
{
    let mut least: Option<Slot> = None;
    for slot in found {
        if !is_drawn_slot(drawn, *slot) {
            least = Some(lesser(least, *slot));
        }
    }
    least
}
