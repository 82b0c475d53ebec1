//! What a floor's calls tell of the machine, as contracts of functions that do nothing.
//!
//! The laws of the machine itself are those of `pool_machine` (`laws`).
ghost use Rattle.event_floor.specs.headline.Bytes.{FreshBytesStay};
ghost use Rattle.event_floor.specs.headline.TellsCounts.{FloorsTellCounts};
ghost use Rattle.event_floor.specs.headline.ListsSlots.{FloorsListSlots};

/// What a floor counts is what the machine counts: slots at home, in caches and on their way, lent buffers and drawn
/// chunks of any state that the floor shows.
pub fn floors_tell_counts()
    ensures { FloorsTellCounts }
{}

/// The slots that a floor lists at home, in caches, on their way and lent are those that the machine has there, in any
/// state that the floor shows; joined they are each slot of each drawn chunk, once.
pub fn floors_list_slots()
    ensures { FloorsListSlots }
{}

/// A buffer of a slot that was never handed out before a call of `Floor::run` or `Floor::apply` has,
/// after it, the bytes that lay there: both are those of the region that the floor holds.
pub fn fresh_bytes_stay()
    ensures { FreshBytesStay }
{}
