//! The audit of all that a pool has.
ghost use Rattle.std.specs.Prelude.{◌++◌, OnOk};
ghost use Rattle.slot_chain.specs.Slots.{AddsSlots};
ghost use Rattle.pool_fabric.specs.Audited.{idle_slots, held_slots, batch_slots, listed, Audited};

use digit_route::Batch;
use pool_desk::{Desk, IdleDesk};
use region_cut::Slot;
use slot_audit::{Drawn, Fault, audit};
use slot_chain::NoMemory;
use std::alloc::Global;

// Adds the slots of idle desks.
fn list_idle(desks: &[IdleDesk<'_>], slots: &mut Vec<Slot>) -> Result<(), NoMemory>
    ensures { OnOk result (AddsSlots (listed idle_slots desks.now) slots.old.items slots.new.items) }
{
    for desk in desks {
        desk.list_slots(slots)?;
    }
    Ok(())
}

// Adds the slots of held desks.
fn list_held(desks: &[Desk<'_>], slots: &mut Vec<Slot>) -> Result<(), NoMemory>
    ensures { OnOk result (AddsSlots (listed held_slots desks.now) slots.old.items slots.new.items) }
{
    for desk in desks {
        desk.list_slots(slots)?;
    }
    Ok(())
}

// Adds the slots of batches.
fn list_batches(batches: &[Batch<'_>], slots: &mut Vec<Slot>) -> Result<(), NoMemory>
    ensures { OnOk result (AddsSlots (listed batch_slots batches.now) slots.old.items slots.new.items) }
{
    for batch in batches {
        batch.list_slots(slots)?;
    }
    Ok(())
}

// Adds the slots of all of these.
fn list_all(
    idle: &[IdleDesk<'_>],
    held: &[Desk<'_>],
    batches: &[Batch<'_>],
    slots: &mut Vec<Slot>,
) -> Result<(), NoMemory>
    ensures { OnOk result (AddsSlots
        (listed idle_slots idle.now ++ listed held_slots held.now ++ listed batch_slots batches.now)
        slots.old.items slots.new.items) }
{
    list_idle(idle, slots)?;
    list_held(held, slots)?;
    list_batches(batches, slots)?;
    Ok(())
}

/// Audits all that these desks and batches have, joined, against the chunks that were drawn.
///
/// The answer is [`audit`]'s; it is [`Fault::NoMemory`] also where the list was refused memory.
pub fn account(
    alloc: Global,
    idle: &[IdleDesk<'_>],
    held: &[Desk<'_>],
    batches: &[Batch<'_>],
    drawn: &Drawn,
) -> Result<(), Fault>
    ensures { Audited
        (listed idle_slots idle.now ++ listed held_slots held.now ++ listed batch_slots batches.now)
        drawn.now result }
{
    let mut slots = Vec::new(alloc);
    match list_all(idle, held, batches, &mut slots) {
        Ok(()) => audit(alloc, &slots, drawn),
        Err(_) => Err(Fault::NoMemory),
    }
}
