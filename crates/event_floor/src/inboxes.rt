//! The inboxes of all desks.
ghost use Rattle.std.specs.Prelude.{◌≡◌, ◌<◌, ℕ, [], ◌++◌, length, replicate, map, flat_map, All, IfOk, OnErr, None};
ghost use Rattle.std.specs.Prelude.{MatchOption, MatchBool, IsPermutation};
ghost use Rattle.slot_chain.specs.Buffer.{ended_of};
ghost use Rattle.slot_chain.specs.Counts.{capped};
ghost use Rattle.digit_route.specs.Route.{RouteFault};
ghost use Rattle.slot_chain.specs.Slots.{slot_of};
ghost use Rattle.event_floor.specs.Inboxes.{QueuedState, inbox_at, buffers_in, IsUnlinked, IsUnlinkedOf, SomeQueued};
ghost use Rattle.event_floor.specs.Inboxes.{NoneQueued};
ghost use Rattle.event_floor.specs.Inboxes.{HasNoFront, SendsTo, TakesFrom, LinksUnlinked};

use crate::inbox::Inbox;
use crate::unlinked::{Unlinked, UnlinkedIndex};
use digit_route::Batch;
use pool_desk::Desk;
use region_cut::Slot;
use region_cut::endings::Endings;
use slot_chain::NoMemory;
use std::alloc::Global;
use std::marker::Model;

/// The inbox of each desk, with an index of the batches that still have to be linked.
#[derive(Drop)]
pub(crate) struct Inboxes<'r> {
    inboxes: Vec<Inbox<'r>>,
    unlinked: UnlinkedIndex,
}

impl<'r> Model for Inboxes<'r> {
    ghost use Rattle.std.specs.Prelude.{List};
    ghost use Rattle.event_floor.specs.Inboxes.{QueuedState};
    ghost use Rattle.event_floor.specs.Unlinked.{IsIndexOf};

    ghost Value = { List (List QueuedState) };

    ghost view = { λ i. i.inboxes.items };

    ghost invariant = { λ i. IsIndexOf i.inboxes.items i.unlinked };
}

impl<'r> Inboxes<'r> {
    /// So many inboxes with no batch.
    pub(crate) fn new(alloc: Global, count: u32) -> Result<Inboxes<'r>, NoMemory>
        ensures { IfOk result (λ inboxes. inboxes ≡ replicate count []) }
    {
        let mut inboxes = Vec::with_capacity(alloc, count as usize)?;
        for _inbox in 0..count {
            inboxes.push_reserved(Inbox::new(alloc));
        }
        let unlinked = UnlinkedIndex::new(alloc, count)?;
        Ok(Inboxes { inboxes, unlinked })
    }

    /// Takes out of the desk's cache all that goes to `t`, and puts it behind all that waits in the inbox of `t`, as a
    /// batch of this number. A refusal changes nothing.
    pub(crate) fn send(&mut self, desk: &mut Desk<'r>, t: u16, number: u32) -> Result<u64, NoMemory>
        requires routes { RouteFault desk.old.digits desk.old.number t desk.old.cached None }
        requires sender { desk.old.number < length self.old }
        requires there { t < length self.old }
        requires later { (b : ℕ) → b < length self.old
            → All (λ (p : QueuedState). p.batch.number < number) (inbox_at self.old b) }
        ensures sends { IfOk result (λ count. SendsTo desk.old t number count self.old desk.new self.new) }
        ensures refused { OnErr result (self.new ≡ self.old) }
        ensures refused_desk { OnErr result (desk.new ≡ desk.old) }
    {
        let entry = Unlinked {
            sender: desk.number() as u32,
            inbox: t as u32,
        };
        self.unlinked.add(number, entry)?;
        match self.inboxes[t as usize].send(desk, t, number) {
            Ok(count) => Ok(count),
            Err(refused) => {
                self.unlinked.remove(number);
                Err(refused)
            }
        }
    }

    /// Links the batch of this number, where it still has to be linked. The index tells the inbox, so it takes a time
    /// that grows with the logarithm of how many wait there.
    pub(crate) fn link(&mut self, number: u32) -> bool
        ensures { MatchBool result (LinksUnlinked number self.old self.new)
            (NoneQueued (IsUnlinked number) self.old × (self.new ≡ self.old)) }
    {
        let Some(entry) = self.unlinked.remove(number) else {
            return false;
        };
        let inbox = &mut self.inboxes[entry.inbox as usize];
        match inbox.find_unlinked(number) {
            Some(place) => {
                inbox.link(place);
                true
            }
            None => unreachable!(),
        }
    }

    /// Whether a batch of this sender still has to be linked.
    pub(crate) fn has_unlinked_of(&self, sender: u32) -> bool
        requires { sender < length self.now }
        ensures { MatchBool result (SomeQueued (IsUnlinkedOf sender) self.now)
            (NoneQueued (IsUnlinkedOf sender) self.now) }
    {
        self.unlinked.has_sender(sender)
    }

    /// Takes the front of the inbox of `b`, or None where there is none or it still has to be linked.
    pub(crate) fn take(&mut self, b: usize) -> Option<Batch<'r>>
        requires { b < length self.old }
        ensures { MatchOption result (HasNoFront (inbox_at self.old b) × (self.new ≡ self.old))
            (λ batch. TakesFrom batch b self.old self.new) }
    {
        self.inboxes[b].take()
    }

    /// How many buffers wait in the inbox of `b`, by a walk.
    pub(crate) fn count(&self, b: usize) -> u64
        requires { b < length self.now }
        ensures { result ≡ capped (length (buffers_in (inbox_at self.now b))) }
    {
        self.inboxes[b].count()
    }

    /// The slots of the buffers that wait in the inbox of `b`.
    pub(crate) fn slots(&self, alloc: Global, b: usize) -> Result<Vec<Slot>, NoMemory>
        requires { b < length self.now }
        ensures { IfOk result (λ slots. IsPermutation (map slot_of (buffers_in (inbox_at self.now b))) slots.items) }
    {
        self.inboxes[b].slots(alloc)
    }
}

/// Lets go all buffers that wait in some inbox.
pub(crate) fn end_inboxes<'r>(inboxes: Inboxes<'r>, endings: &mut Endings<'r>)
    ensures { endings.new ≡ record endings.old {
      known = map ended_of (flat_map buffers_in inboxes.entry) ++ endings.old.known;
    } }
{
    let Inboxes {
        inboxes,
        unlinked: _,
    } = inboxes;
    let mut inboxes = inboxes;
    while let Some(inbox) = inboxes.pop() {
        inbox.end(endings);
    }
}
