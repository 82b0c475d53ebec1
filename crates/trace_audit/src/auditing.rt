//! The audit of a floor.
ghost use Rattle.std.specs.Prelude.{◌<◌, IfOk, IfErr, IsPermutation};
ghost use Rattle.event_floor.specs.Floors.{desk_count};
ghost use Rattle.event_floor.specs.headline.ListsSlots.{slots_on, slots_with};
ghost use Rattle.trace_audit.specs.FloorSlots.{HasEachOnce, IsFaultOn, TellsDrawn};

use event_floor::Floor;
use region_cut::{MAX_CHUNKS, Slot};
use slot_audit::{Drawn, Fault, audit};
use slot_chain::NoMemory;
use std::alloc::{AllocError, Global};

/// Which chunks of the floor are drawn.
fn drawn_on(alloc: Global, floor: &Floor<'_>) -> Result<Drawn, AllocError>
    ensures { IfOk result (TellsDrawn floor.now) }
{
    let mut drawn = Drawn::new(alloc)?;
    for chunk in 0..MAX_CHUNKS as u16 {
        if let Some(class) = floor.class_of(u32::from(chunk)) {
            drawn.note(chunk, class);
        }
    }
    Ok(drawn)
}

/// The slots with a desk: at home, in its cache and in its inbox.
fn slots_with(alloc: Global, floor: &Floor<'_>, desk: u32) -> Result<Vec<Slot>, NoMemory>
    requires { desk < desk_count floor.now }
    ensures { IfOk result (λ slots. IsPermutation (slots_with floor.now desk) slots.items) }
{
    let mut slots = floor.home(alloc, desk)?;
    let cached = floor.cached(alloc, desk)?;
    slots.extend_from_slice(cached.as_slice())?;
    let queued = floor.queued(alloc, desk)?;
    slots.extend_from_slice(queued.as_slice())?;
    Ok(slots)
}

/// The lent slots, and those with each desk.
fn slots_on(alloc: Global, floor: &Floor<'_>) -> Result<Vec<Slot>, NoMemory>
    ensures { IfOk result (λ slots. IsPermutation (slots_on floor.now) slots.items) }
{
    let mut slots = floor.lent(alloc)?;
    let desks = floor.desk_count();
    for desk in 0..desks {
        let more = slots_with(alloc, floor, desk)?;
        slots.extend_from_slice(more.as_slice())?;
    }
    Ok(slots)
}

/// Whether each slot of the floor's drawn chunks is in its lists just once: at home, lent, in caches and inboxes.
pub(crate) fn audit_floor(alloc: Global, floor: &Floor<'_>) -> Result<(), Fault>
    ensures ok { IfOk result (λ _. HasEachOnce floor.now) }
    ensures err { IfErr result (λ fault. IsFaultOn floor.now fault) }
{
    let Ok(drawn) = drawn_on(alloc, floor) else {
        return Err(Fault::NoMemory);
    };
    match slots_on(alloc, floor) {
        Ok(found) => audit(alloc, found.as_slice(), &drawn),
        Err(_) => Err(Fault::NoMemory),
    }
}
