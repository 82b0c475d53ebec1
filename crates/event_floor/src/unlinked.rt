//! An index of the batches that still have to be linked.
ghost use Rattle.std.specs.Prelude.{◌≡◌, ◌≢◌, ◌<◌, ℕ, [], Some, None, nat_eq, OnOk, IfOk, OnErr, MatchBool};
ghost use Rattle.std.specs.Prelude.{if◌then◌else◌};
ghost use Rattle.event_floor.specs.declared.unlinked.Unlinked.{Unlinked as UnlinkedEntry};
ghost use Rattle.event_floor.specs.Unlinked.{unlinked_of};

use slot_chain::NoMemory;
use std::alloc::Global;
use std::collections::HashMap;
use std::marker::Model;

/// Who sent a batch, and in whose inbox it waits.
#[derive(Clone, Copy, Drop)]
pub(crate) struct Unlinked {
    pub(crate) sender: u32,
    pub(crate) inbox: u32,
}

/// The batches that still have to be linked, by number, and how many of them each desk sent. All its calls take
/// constant time.
#[derive(Drop)]
pub(crate) struct UnlinkedIndex {
    by_number: HashMap<u32, Unlinked>,
    by_sender: Vec<u64>,
}

impl Model for UnlinkedIndex {
    ghost use Rattle.std.specs.Prelude.{length};
    ghost use Rattle.event_floor.specs.Unlinked.{UnlinkedState, AreCounted};

    ghost Value = { UnlinkedState };

    ghost view = { λ h. record { desks = length h.by_sender.items; entries = h.by_number.entries } };

    ghost invariant = { λ h. AreCounted h.by_sender.items h.by_number.entries };
}

impl UnlinkedIndex {
    /// No batch, for so many desks.
    pub(crate) fn new(alloc: Global, desks: u32) -> Result<UnlinkedIndex, NoMemory>
        ensures { IfOk result (λ h. h ≡ record { desks = desks; entries = [] }) }
    {
        let mut by_sender = Vec::with_capacity(alloc, desks as usize)?;
        for _desk in 0..desks {
            by_sender.push_reserved(0);
        }
        Ok(UnlinkedIndex {
            by_number: HashMap::new(alloc),
            by_sender,
        })
    }

    /// Adds a batch. A refusal changes nothing.
    pub(crate) fn add(&mut self, number: u32, entry: Unlinked) -> Result<(), NoMemory>
        requires sender { entry.sender < self.old.desks }
        requires absent { unlinked_of self.old number ≡ None }
        ensures desks { self.new.desks ≡ self.old.desks }
        ensures adds { OnOk result ((n : ℕ)
            → unlinked_of self.new n ≡ (if nat_eq number n then Some entry else unlinked_of self.old n)) }
        ensures refused { OnErr result (self.new ≡ self.old) }
    {
        // no desk sent more of them than there are, so its count has room for one more
        let _count = self.by_number.len();
        self.by_number.insert(number, entry)?;
        self.by_sender[entry.sender as usize] += 1;
        Ok(())
    }

    /// Takes the batch of this number out, where it has one. Takes no memory.
    pub(crate) fn remove(&mut self, number: u32) -> Option<Unlinked>
        ensures value { result ≡ unlinked_of self.old number }
        ensures desks { self.new.desks ≡ self.old.desks }
        ensures removes { (n : ℕ)
            → unlinked_of self.new n ≡ (if nat_eq number n then None else unlinked_of self.old n) }
    {
        let entry = self.by_number.remove(&number)?;
        self.by_sender[entry.sender as usize] -= 1;
        Some(entry)
    }

    /// Whether it has a batch of this sender.
    pub(crate) fn has_sender(&self, sender: u32) -> bool
        requires { sender < self.now.desks }
        ensures { MatchBool result
            ((n : ℕ) × (h : UnlinkedEntry) × (unlinked_of self.now n ≡ Some h) × (h.sender ≡ sender))
            ((n : ℕ) (h : UnlinkedEntry) → unlinked_of self.now n ≡ Some h → h.sender ≢ sender) }
    {
        self.by_sender[sender as usize] != 0
    }
}
