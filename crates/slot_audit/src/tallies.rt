//! How often each slot of a drawn chunk is found, counted in one table.
ghost use Rattle.std.specs.Prelude.{◌≡◌, ◌<◌, ◌+◌, ◌*◌, ℕ, length, slice_index, slice_set, min, IfSome, IfNone, IfOk};
ghost use Rattle.slot_audit.specs.Audit.{IsDrawnSlot, IsLeast, IsNowhere};
ghost use Rattle.slot_audit.specs.Limits.{place_limit, slot_limit};
ghost use Rattle.slot_audit.specs.Tallies.{FitsTable, IsTally, HasCount};

use crate::Drawn;
use crate::strangers::is_drawn_slot;
use region_cut::Slot;
use std::alloc::{AllocError, Global};

/// The most slots that a chunk has.
const MAX_SLOTS: u32 = 256;

/// How many places the table has: one for each slot that a chunk may have.
pub(crate) const PLACES: usize = 262_144;

/// So many zeros.
pub(crate) fn zeros(alloc: Global, count: usize) -> Result<Vec<u8>, AllocError>
    ensures len { IfOk result (λ table. length table.items ≡ count) }
    ensures zero { IfOk result (λ table. (k : ℕ) → slice_index table.items k ≡ 0) }
{
    vec![in alloc; 0u8; count]
}

/// Where the slot is counted, if it is one of a drawn chunk.
fn place_of(drawn: &Drawn, slot: Slot) -> Option<usize>
    ensures some { IfSome result (λ at. IsDrawnSlot drawn.now slot × (at ≡ slot.chunk * slot_limit + slot.index)
        × (at < place_limit)) }
    ensures none { IfNone result (IsDrawnSlot drawn.now slot → ⊥) }
    ensures fits { FitsTable drawn.now }
{
    if is_drawn_slot(drawn, slot) {
        Some(slot.chunk as usize * MAX_SLOTS as usize + slot.index as usize)
    } else {
        None
    }
}

/// Counts one more, but not beyond 2.
fn count(table: &mut [u8], at: usize)
    requires { at < length table.old }
    ensures { table.new ≡ slice_set table.old at (min 1 (slice_index table.old at) + 1) }
{
    let seen = table[at];
    table[at] = seen.min(1) + 1;
}

/// Counts each slot of a drawn chunk.
pub(crate) fn tally(drawn: &Drawn, found: &[Slot], table: &mut [u8])
    requires length { length table.old ≡ place_limit }
    requires zero { (k : ℕ) → slice_index table.old k ≡ 0 }
    ensures { IsTally drawn.now found.now table.new }
{
    for slot in found {
        match place_of(drawn, *slot) {
            Some(at) => count(table, at),
            None => {}
        }
    }
}

/// The least slot of a drawn chunk with this count.
pub(crate) fn least_with(drawn: &Drawn, table: &[u8], count: u8) -> Option<Slot>
    requires { length table.now ≡ place_limit }
    ensures some { IfSome result (λ s. IsLeast (HasCount drawn.now table.now count) s) }
    ensures none { IfNone result (IsNowhere (HasCount drawn.now table.now count)) }
{
    let places = MAX_SLOTS * drawn.chunks() as u32;
    for at in 0..places {
        if table[at as usize] == count {
            let slot = Slot {
                chunk: (at / MAX_SLOTS) as u16,
                index: (at % MAX_SLOTS) as u16,
            };
            if is_drawn_slot(drawn, slot) {
                return Some(slot);
            }
        }
    }
    None
}
