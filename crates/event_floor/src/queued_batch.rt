//! A batch in an inbox.
ghost use Rattle.std.specs.Prelude.{◌≡◌, ◌↔◌, IsTrue, OnOk, length, map};
ghost use Rattle.slot_chain.specs.Counts.{capped};
ghost use Rattle.slot_chain.specs.Slots.{slot_of, AddsSlots};
ghost use Rattle.event_floor.specs.Inboxes.{sent_as, as_linked, IsUnlinked};

use digit_route::Batch;
use region_cut::Slot;
use slot_chain::NoMemory;
use std::marker::Model;

/// A batch with its number, attached or linked.
#[derive(Drop)]
pub(crate) struct QueuedBatch<'r> {
    number: u32,
    linked: bool,
    batch: Batch<'r>,
}

impl<'r> Model for QueuedBatch<'r> {
    ghost use Rattle.event_floor.specs.Inboxes.{QueuedState};

    ghost Value = { QueuedState };

    ghost view = { λ w. record {
      batch = record {
        number = w.number;
        sender = w.batch.sender;
        address = w.batch.address;
        linked = w.linked;
      };
      digits = w.batch.digits;
      buffers = w.batch.items;
    } };
}

impl<'r> QueuedBatch<'r> {
    /// The batch as it is sent: it still has to be linked.
    pub(crate) fn new(number: u32, batch: Batch<'r>) -> QueuedBatch<'r>
        ensures { result ≡ sent_as number batch.entry }
    {
        QueuedBatch {
            number,
            linked: false,
            batch,
        }
    }

    /// Its number on the floor.
    pub(crate) fn number(&self) -> u32
        ensures { result ≡ self.now.batch.number }
    {
        self.number
    }

    /// Whether it is linked.
    pub(crate) fn is_linked(&self) -> bool
        ensures { result ≡ self.now.batch.linked }
    {
        self.linked
    }

    /// Whether it has this number and still has to be linked.
    pub(crate) fn is_unlinked(&self, number: u32) -> bool
        ensures { IsTrue result ↔ IsUnlinked number self.now }
    {
        self.number == number && !self.linked
    }

    /// Links it.
    pub(crate) fn link(&mut self)
        ensures { self.new ≡ as_linked self.old }
    {
        self.linked = true;
    }

    /// How many buffers it has, by a walk.
    pub(crate) fn len(&self) -> u64
        ensures { result ≡ capped (length self.now.buffers) }
    {
        self.batch.len()
    }

    /// Adds the slot of each buffer to the end of `slots`.
    pub(crate) fn list_slots(&self, slots: &mut Vec<Slot>) -> Result<(), NoMemory>
        ensures { OnOk result (AddsSlots (map slot_of self.now.buffers) slots.old.items slots.new.items) }
    {
        self.batch.list_slots(slots)
    }

    /// The batch alone.
    pub(crate) fn into_batch(self) -> Batch<'r>
        ensures sender { result.sender ≡ self.entry.batch.sender }
        ensures address { result.address ≡ self.entry.batch.address }
        ensures digits { result.digits ≡ self.entry.digits }
        ensures items { result.items ≡ self.entry.buffers }
    {
        self.batch
    }
}
