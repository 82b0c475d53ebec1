//! What a caller learns of a floor that is lent to it, of which it knows nothing else.
ghost use Rattle.std.specs.Prelude.{ℕ, ◌≡◌, length, IfOk, IfSome, IsPermutation};
ghost use Rattle.region_cut.specs.declared.slot.Slot.{Slot};
ghost use Rattle.event_floor.specs.headline.Listing.{listing_of};
ghost use Rattle.pool_machine.specs.Listing.{Shown};
ghost use Rattle.pool_machine.specs.SlotLists.{home_slots, queued_slots};
ghost use Rattle.pool_machine.specs.State.{State, InCache, OnLoan, slots_at};

use event_floor::Floor;
use event_floor::laws::{floors_list_slots, floors_tell_counts};
use region_cut::Slot;
use slot_chain::NoMemory;
use std::alloc::Global;

/// How many slots the desk has at home, in its cache and in its inbox, as the machine counts them in a state that the
/// floor shows. None where there is no such desk.
pub fn counted(floor: &Floor<'_>, a: u32) -> Option<(u64, u64, u64)>
    ensures { IfSome result (λ counts. (st : State) × (passed : Slot → ℕ) × Shown (listing_of floor.now) st passed
        × (counts.0 ≡ length (home_slots st a)) × (counts.1 ≡ length (slots_at st (InCache a)))
        × (counts.2 ≡ length (queued_slots st a))) }
{
    floors_tell_counts();
    let _chunks = floor.chunk_count();
    if a >= floor.desk_count() {
        return None;
    }
    Some(floor.counts(a))
}

/// The slots of the lent buffers, each once: those that the machine has on loan in a state that the floor shows.
pub fn on_loan(alloc: Global, floor: &Floor<'_>) -> Result<Vec<Slot>, NoMemory>
    ensures { IfOk result (λ slots. (st : State) × (passed : Slot → ℕ) × Shown (listing_of floor.now) st passed
        × IsPermutation slots.items (slots_at st OnLoan)) }
{
    floors_list_slots();
    let _chunks = floor.chunk_count();
    floor.lent(alloc)
}
