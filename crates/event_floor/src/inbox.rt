//! A desk's inbox.
ghost use Rattle.std.specs.Prelude.{◌≡◌, ◌<◌, ◌≤◌, ℕ, ◌∷◌, ◌++◌, [], length, slice_index_or, slice_set, All, IfOk};
ghost use Rattle.std.specs.Prelude.{OnErr, None, MatchOption, IsPermutation, map};
ghost use Rattle.slot_chain.specs.Buffer.{ended_of};
ghost use Rattle.slot_chain.specs.Counts.{capped};
ghost use Rattle.digit_route.specs.Route.{RouteFault};
ghost use Rattle.slot_chain.specs.Slots.{slot_of};
ghost use Rattle.event_floor.specs.Inboxes.{QueuedState, as_linked, no_batch, IsUnlinked, NumbersRise, buffers_in};
ghost use Rattle.event_floor.specs.Inboxes.{HasNoFront};
ghost use Rattle.event_floor.specs.Inboxes.{LeavesFront, SendsInto};

use crate::queued_batch::QueuedBatch;
use digit_route::Batch;
use pool_desk::Desk;
use region_cut::Slot;
use region_cut::endings::Endings;
use slot_chain::NoMemory;
use std::alloc::Global;
use std::collections::VecDeque;
use std::marker::Model;

/// The batches that wait for a desk, in order of arrival.
#[derive(Drop)]
pub(crate) struct Inbox<'r> {
    batches: VecDeque<QueuedBatch<'r>>,
}

impl<'r> Model for Inbox<'r> {
    ghost use Rattle.std.specs.Prelude.{List};
    ghost use Rattle.event_floor.specs.Inboxes.{QueuedState, NumbersRise};

    ghost Value = { List QueuedState };

    ghost view = { λ i. i.batches.items };

    ghost invariant = { λ i. NumbersRise i.batches.items };
}

impl<'r> Inbox<'r> {
    /// An inbox with no batch. Takes no memory.
    pub(crate) fn new(alloc: Global) -> Inbox<'r>
        ensures { result ≡ [] }
    {
        Inbox {
            batches: VecDeque::new(alloc),
        }
    }

    // The place of the first batch whose number isn't below this one.
    fn place_of(&self, number: u32) -> usize
        ensures below { (k : ℕ) (d : QueuedState) → k < result → (slice_index_or self.now k d).batch.number < number }
        ensures above { (k : ℕ) (d : QueuedState) → result ≤ k → k < length self.now
            → number ≤ (slice_index_or self.now k d).batch.number }
        ensures rising { NumbersRise self.now }
    {
        self.batches
            .partition_point(|queued| queued.number() < number)
    }

    /// The place of the batch of this number, where it waits here and still has to be linked. The numbers rise along
    /// the inbox, so it takes a time that grows with the logarithm of how many wait.
    pub(crate) fn find_unlinked(&self, number: u32) -> Option<usize>
        ensures found { MatchOption result
            (All (λ (p : QueuedState). IsUnlinked number p → ⊥) self.now)
            (λ i. (i < length self.now) × IsUnlinked number (slice_index_or self.now i no_batch)) }
        ensures rising { NumbersRise self.now }
    {
        let place = self.place_of(number);
        if place < self.batches.len() && self.batches[place].is_unlinked(number) {
            return Some(place);
        }
        None
    }

    /// Links the batch at this place.
    pub(crate) fn link(&mut self, place: usize)
        requires { place < length self.old }
        ensures { self.new ≡ slice_set self.old place (as_linked (slice_index_or self.old place no_batch)) }
    {
        self.batches[place].link();
    }

    /// Takes out of the desk's cache all that goes to `t`, and puts it behind all that waits here, as a batch of this
    /// number. Room for it is made first, so a refusal changes nothing.
    pub(crate) fn send(&mut self, desk: &mut Desk<'r>, t: u16, number: u32) -> Result<u64, NoMemory>
        requires routes { RouteFault desk.old.digits desk.old.number t desk.old.cached None }
        requires later { All (λ (p : QueuedState). p.batch.number < number) self.old }
        ensures sends { IfOk result (λ count. SendsInto desk.old t number count self.old desk.new self.new) }
        ensures refused { OnErr result (self.new ≡ self.old) }
        ensures refused_desk { OnErr result (desk.new ≡ desk.old) }
    {
        self.batches.try_reserve(1)?;
        let batch = desk.take_for(t);
        let count = batch.len();
        self.batches
            .push_back_reserved(QueuedBatch::new(number, batch));
        Ok(count)
    }

    /// Takes the front, or None where there is none or it still has to be linked.
    pub(crate) fn take(&mut self) -> Option<Batch<'r>>
        ensures { MatchOption result
            (HasNoFront self.old × (self.new ≡ self.old))
            (λ b. LeavesFront b self.old self.new) }
    {
        match self.batches.front() {
            Some(front) => {
                if !front.is_linked() {
                    return None;
                }
            }
            None => return None,
        }
        let front = self.batches.pop_front()?;
        Some(front.into_batch())
    }

    /// Lets go all buffers that wait here.
    pub(crate) fn end(self, endings: &mut Endings<'r>)
        ensures { endings.new ≡ record endings.old {
          known = map ended_of (buffers_in self.entry) ++ endings.old.known;
        } }
    {
        let Inbox { batches } = self;
        let mut batches = batches;
        while let Some(queued) = batches.pop_back() {
            queued.into_batch().into_magazine().end(endings);
        }
    }

    /// How many buffers wait here, by a walk.
    pub(crate) fn count(&self) -> u64
        ensures { result ≡ capped (length (buffers_in self.now)) }
    {
        let mut count = 0u64;
        for i in 0..self.batches.len() {
            count = count.saturating_add(self.batches[i].len());
        }
        count
    }

    /// The slots of the buffers that wait here.
    pub(crate) fn slots(&self, alloc: Global) -> Result<Vec<Slot>, NoMemory>
        ensures { IfOk result (λ slots. IsPermutation (map slot_of (buffers_in self.now)) slots.items) }
    {
        let mut slots = Vec::new(alloc);
        for i in 0..self.batches.len() {
            self.batches[i].list_slots(&mut slots)?;
        }
        Ok(slots)
    }
}
