//! The end of a pool, once all its stations are back.
ghost use Rattle.std.specs.Prelude.{ℕ, List, Option, IfOk, OnOk};
ghost use Rattle.seated_desk.specs.Claims.{AreNoted};
ghost use Rattle.slot_chain.specs.Slots.{AddsSlots};
ghost use Rattle.seated_desk.specs.Settled.{AreSettled, AreWhole, claimed, listed};

use crate::station::Station;
use region_cut::Slot;
use slot_audit::{Drawn, Fault, audit};
use slot_chain::NoMemory;
use std::alloc::Global;

// How often all stations take and post, at most.
const ROUNDS: u32 = 4096;

// All stations take what came and post what is cached, once. Says how many batches moved.
fn move_once(shelf: &mut [Station<'_>]) -> u64
    ensures { AreSettled shelf.old shelf.new }
{
    let mut moved = 0u64;
    for station in shelf.iter_mut() {
        moved = moved.saturating_add(station.take() as u64);
        moved = moved.saturating_add(station.post());
    }
    moved
}

/// All that was freed goes home.
pub(crate) fn settle(shelf: &mut [Station<'_>])
    ensures { AreSettled shelf.old shelf.new }
{
    for _ in 0..ROUNDS {
        if move_once(shelf) == 0 {
            return;
        }
    }
}

// Adds the slots that these stations have.
fn list_all(shelf: &[Station<'_>], found: &mut Vec<Slot>) -> Result<(), NoMemory>
    ensures { OnOk result (AddsSlots (listed shelf.now) found.old.items found.new.items) }
{
    for station in shelf {
        station.list(found)?;
    }
    Ok(())
}

// Which chunks the stations claimed.
fn noted(alloc: Global, shelf: &[Station<'_>]) -> Result<Drawn, Fault>
    ensures { IfOk result (λ drawn. AreNoted drawn (claimed shelf.now)) }
{
    let Ok(mut drawn) = Drawn::new(alloc) else {
        return Err(Fault::NoMemory);
    };
    for station in shelf {
        station.drawer.note_all(&mut drawn);
    }
    Ok(drawn)
}

/// Whether each slot of each chunk that the stations claimed is at one of them, once.
pub(crate) fn judge(alloc: Global, shelf: &[Station<'_>]) -> Result<(), Fault>
    ensures { IfOk result (λ _. (drawn : List (Option ℕ)) × AreNoted drawn (claimed shelf.now) × AreWhole drawn shelf.now) }
{
    let drawn = noted(alloc, shelf)?;
    let mut found = Vec::new(alloc);
    if list_all(shelf, &mut found).is_err() {
        return Err(Fault::NoMemory);
    }
    audit(alloc, found.as_slice(), &drawn)
}
