//! A desk of a floor, in whoever's hands.
ghost use Rattle.std.specs.Prelude.{◌≡◌, ◌<◌, ◌≤◌, ◌^◌, ◌↔◌, ◌++◌, length, map, IsTrue, IfOk, IfErr, OnOk, OnErr};
ghost use Rattle.std.specs.Prelude.{IsPermutation, None, ℕ, All};
ghost use Rattle.region_cut.specs.Classes.{classes_of};
ghost use Rattle.slot_chain.specs.Buffer.{owner_limit, ended_of};
ghost use Rattle.slot_chain.specs.Counts.{capped};
ghost use Rattle.slot_chain.specs.Slots.{slot_of};
ghost use Rattle.digit_route.specs.Limits.{largest_limit};
ghost use Rattle.digit_route.specs.Route.{RouteFault};
ghost use Rattle.pool_desk.specs.Homes.{slot_at};
ghost use Rattle.pool_desk.specs.HomesState.{HasClass};
ghost use Rattle.pool_desk.specs.Desks.{profile_at};
ghost use Rattle.pool_desk.specs.Steps.{Claims, Allocs, Frees, Handles, CountsOf};
ghost use Rattle.event_floor.specs.Desks.{new_desk, new_desks, in_hands_of, home_of, cached_of, Releases};
ghost use Rattle.event_floor.specs.Desks.{IsInHands, HeldWith, Works};
ghost use Rattle.event_floor.specs.Desks.AnyDeskState.{Idle};
ghost use Rattle.event_floor.specs.HeldDesks.{HoldsDesk, LacksHeld};
ghost use Rattle.event_floor.specs.Inboxes.{QueuedState, inbox_at, SendsTo};
ghost use Rattle.event_floor.specs.headline.EndsKnown.{buffers_with};
ghost use Rattle.event_floor.specs.headline.Names.{chunks_of};

use crate::Refusal;
use crate::inboxes::Inboxes;
use digit_route::{Batch, Digits, RouteError};
use pool_desk::{Counts, Desk, DeskError, Freed, IdleDesk};
use region_cut::endings::Endings;
use region_cut::{Class, Part, Slot};
use slot_chain::{Buf, NoMemory};
use std::alloc::Global;
use std::marker::Model;

/// A desk, idle or in the hands of a worker.
///
/// An idle one is kept as a held one is, with nothing in its cache. So it changes hands in its place: a desk is some
/// kilobytes, and none is moved.
#[derive(Drop)]
pub(crate) struct AnyDesk<'r> {
    desk: Desk<'r>,
    held: bool,
}

impl<'r> Model for AnyDesk<'r> {
    ghost use Rattle.std.specs.Prelude.{◌≡◌, false, []};
    ghost use Rattle.event_floor.specs.Desks.{AnyDeskState, seen_as};

    ghost Value = { AnyDeskState };

    ghost view = { λ a. seen_as a.held a.desk };

    ghost invariant = { λ a. a.held ≡ false → a.desk.cached ≡ [] };
}

impl<'r> AnyDesk<'r> {
    // An idle desk of this number, with nothing at home. It moves as it is made, so it has a frame of its own for that.
    #[inline(never)]
    fn new(number: u16, digits: Digits, limit: u64) -> AnyDesk<'r>
        requires number { number < 2 ^ digits.bits }
        requires limit { limit ≤ largest_limit }
        ensures { result ≡ Idle (new_desk digits limit number) }
    {
        AnyDesk {
            desk: IdleDesk::new(number, digits, limit).adopt(0),
            held: false,
        }
    }

    /// Whether a worker holds it.
    pub(crate) fn is_held(&self) -> bool
        ensures { IsTrue result ↔ IsInHands self.now }
    {
        self.held
    }

    /// Gives it to a worker.
    pub(crate) fn hold(&mut self, worker: u32)
        requires { IsInHands self.old → ⊥ }
        ensures { self.new ≡ in_hands_of worker self.old }
    {
        self.desk.pass_to(worker);
        self.held = true;
    }

    /// Takes it from its worker, unless its cache has a buffer; then it stays as it is.
    pub(crate) fn release(&mut self) -> bool
        requires { IsInHands self.old }
        ensures { Releases self.old result self.new }
    {
        if !self.desk.is_settled() {
            return false;
        }
        self.held = false;
        true
    }
}

// What its worker does with it, by the calls of a desk that have the same names.
impl<'r> AnyDesk<'r> {
    pub(crate) fn has_home(&self, class: Class) -> bool
        requires { IsInHands self.now }
        ensures { HeldWith (λ d. IsTrue result ↔ HasClass class d.home) self.now }
    {
        self.desk.has_home(class)
    }

    pub(crate) fn claim_needed(&mut self, part: Part<'r>, class: Class)
        requires class { HeldWith (λ d. class < classes_of (profile_at d)) self.old }
        requires needed { HeldWith (λ d. HasClass class d.home → ⊥) self.old }
        ensures { Works (λ d new. Claims d part.entry class new) self.old self.new }
    {
        self.desk.claim_needed(part, class);
    }

    pub(crate) fn alloc(&mut self, alloc: Global, size: usize) -> Result<Buf<'r>, DeskError>
        requires { IsInHands self.old }
        ensures { Works (λ d new. Allocs d size result new) self.old self.new }
    {
        self.desk.alloc(alloc, size)
    }

    pub(crate) fn free(&mut self, buf: Buf<'r>) -> Freed
        requires { HeldWith (λ d. buf.owner < 2 ^ d.digits.bits) self.old }
        ensures { Works (λ d new. Frees d buf.entry result new) self.old self.new }
    {
        self.desk.free(buf)
    }

    pub(crate) fn fault_for(&self, t: u16) -> Option<RouteError>
        requires { IsInHands self.now }
        ensures { HeldWith (λ d. RouteFault d.digits d.number t d.cached result) self.now }
    {
        self.desk.fault_for(t)
    }

    pub(crate) fn handle(&mut self, batch: Batch<'r>) -> Counts
        requires address { HeldWith (λ d. batch.address ≡ d.number) self.old }
        requires digits { HeldWith (λ d. batch.digits ≡ d.digits) self.old }
        ensures parts { Works (λ d new. Handles d batch.entry.items new) self.old self.new }
        ensures counts { HeldWith (λ d. CountsOf d.number batch.entry.items result) self.old }
    {
        self.desk.handle(batch)
    }

    /// Sends what its cache has for `t`, as a batch of this number ([`Inboxes::send`]).
    pub(crate) fn send(
        &mut self,
        inboxes: &mut Inboxes<'r>,
        t: u16,
        number: u32,
    ) -> Result<u64, NoMemory>
        requires routes { HeldWith (λ d. RouteFault d.digits d.number t d.cached None) self.old }
        requires sender { HeldWith (λ d. d.number < length inboxes.old) self.old }
        requires there { t < length inboxes.old }
        requires later { (b : ℕ) → b < length inboxes.old
            → All (λ (p : QueuedState). p.batch.number < number) (inbox_at inboxes.old b) }
        ensures sends { IfOk result (λ count.
            Works (λ d new. SendsTo d t number count inboxes.old new inboxes.new) self.old self.new) }
        ensures refused { OnErr result (inboxes.new ≡ inboxes.old) }
        ensures refused_desk { OnErr result (self.new ≡ self.old) }
    {
        inboxes.send(&mut self.desk, t, number)
    }
}

// What is with it, in whoever's hands.
impl<'r> AnyDesk<'r> {
    /// How many slots it has at home, and how many buffers are in its cache; each at most the greatest `u64`.
    pub(crate) fn counts(&self) -> (u64, u64)
        ensures home { result.0 ≡ capped (length (home_of self.now)) }
        ensures cached { result.1 ≡ capped (length (cached_of self.now)) }
    {
        self.desk.counts()
    }

    /// The slots that it has at home, each as often as it is there, in no order.
    pub(crate) fn home(&self, alloc: Global) -> Result<Vec<Slot>, NoMemory>
        ensures { IfOk result (λ slots. IsPermutation (map slot_at (home_of self.now)) slots.items) }
    {
        let mut slots = Vec::new(alloc);
        self.desk.list_home(&mut slots)?;
        Ok(slots)
    }

    /// The slots of the buffers in its cache, each as often as it is there, in no order.
    pub(crate) fn cached(&self, alloc: Global) -> Result<Vec<Slot>, NoMemory>
        ensures { IfOk result (λ slots. IsPermutation (map slot_of (cached_of self.now)) slots.items) }
    {
        let mut slots = Vec::new(alloc);
        self.desk.list_cached(&mut slots)?;
        Ok(slots)
    }

    /// Lets go its buffers, and the cursors over its chunks.
    pub(crate) fn end(self, endings: &mut Endings<'r>)
        ensures chunks { endings.new.chunks ≡ chunks_of self.entry ++ endings.old.chunks }
        ensures known { IsPermutation (map ended_of (buffers_with self.entry) ++ endings.old.known) endings.new.known }
    {
        let AnyDesk { desk, held: _ } = self;
        desk.end(endings);
    }
}

/// So many desks, numbered from 0, with nothing at home.
#[tactic(auto, using(crate::proofs::FloorLaws::new_desks_length), unfolding(crate::specs::Desks::new_desks))]
pub(crate) fn idle_desks<'r>(
    alloc: Global,
    count: u32,
    digits: Digits,
    limit: u64,
) -> Result<Vec<AnyDesk<'r>>, NoMemory>
    requires few { count ≤ owner_limit }
    requires numbers { count ≤ 2 ^ digits.bits }
    requires limit { limit ≤ largest_limit }
    ensures { IfOk result (λ desks. desks.items ≡ new_desks digits limit count) }
{
    let mut desks = Vec::with_capacity(alloc, count as usize)?;
    for number in 0..count {
        desks.push_reserved(AnyDesk::new(number as u16, digits, limit));
    }
    Ok(desks)
}

/// Whether a worker holds the desk of this number; else why a request for it is refused.
pub(crate) fn check_held(desks: &[AnyDesk<'_>], a: u32) -> Result<(), Refusal>
    ensures held { OnOk result (HoldsDesk desks.now a) }
    ensures refused { IfErr result (λ refusal. LacksHeld desks.now a refusal) }
{
    let Some(desk) = desks.get(a as usize) else {
        return Err(Refusal::NoDesk);
    };
    if desk.is_held() {
        Ok(())
    } else {
        Err(Refusal::Idle)
    }
}
