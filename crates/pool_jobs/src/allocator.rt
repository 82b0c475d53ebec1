//! The allocator that a worker holds.
ghost use Rattle.std.specs.Prelude.{◌≡◌, ◌≢◌, ◌<◌, ◌≤◌, ◌^◌, ◌↔◌, [], ◌∷◌, ◌++◌, length, IsTrue, IfSome, IfOk, MatchOption};
ghost use Rattle.region_cut.specs.Classes.{size_of, classes_of, largest_of, NoClassFor};
ghost use Rattle.digit_route.specs.Profiles.{profile_of};
ghost use Rattle.slot_balance.specs.Limits.{most_taken};
ghost use Rattle.pool_jobs.specs.Serving.{HasNoMore, IsClassFor, Keeps, RefusesClass, SameDesk, Serves, ServesClass};
ghost use Rattle.pool_jobs.specs.declared.error.PoolError.TheVariants.{TooLarge, UsedUp};

use crate::error::PoolError;
use crate::gate::Gate;
use crate::waiting::Pauses;
use batch_inbox::{Mail, Mailbox, Receiver, Sender};
use pool_desk::Freed;
use pool_fabric::{Buffer, Fabric, HeldStation, Naming, Parcel};
use region_cut::Class;
use slot_chain::NoMemory;
use std::alloc::Global;
use std::marker::Model;
use std::sync::Wait;
use std::time::{Clock, Duration, Instant};
use std::{fmt, io};

// How many buffers are lent between two looks into the inbox, where slots of each class are at home all
// the while. A batch has hundreds, so most looks find none.
const LOOK_EVERY: u64 = 128;

// How often it looks again where the stock is empty.
const MOST_LOOKS: u32 = 64;

// After so many buffers that were freed there is a post, whatever their size: a cache of many small ones would
// outgrow the processor's, and so would the slots that take their place meanwhile.
const POST_EVERY: u64 = 1024;

/// The allocator of one worker: a station of the fabric that all workers share.
///
/// Only these take memory: [`Allocator::alloc`] and [`Allocator::fill`] at a slot's first use,
/// [`Allocator::parcel`] where no kept array is large enough, and perhaps posts. A contract sees its station.
#[must_use]
#[derive(Drop)]
pub struct Allocator<'a, 'r, M: Mailbox, T: Receiver, S: Sender, G: Gate, J: Naming> {
    fabric: &'a Fabric<'r, M, T, S, J>,
    gate: &'a G,
    pub(crate) alloc: Global,
    worker: u32,
    // How many calls the gate was told of.
    calls: u64,
    // While fewer bytes are cached, nothing is posted: 0 but after a post that was refused, until
    // the next claim.
    post_from: u64,
    // After how many more buffers that are freed there is a post. It is never 0 between two calls.
    until_post: u64,
    pub(crate) station: HeldStation<'r, T, S, J>,
}

impl<'a, 'r, M: Mailbox, T: Receiver, S: Sender, G: Gate, J: Naming> Model
    for Allocator<'a, 'r, M, T, S, G, J> {
    ghost use Rattle.std.specs.Prelude.{◌≡◌, ◌<◌, ◌^◌};
    ghost use Rattle.pool_fabric.specs.Stations.{StationState};

    ghost Value = { StationState };

    ghost view = { λ a. a.station };

    ghost invariant = { λ a. (a.station.desk.digits ≡ J.names.digits)
        × (a.station.desk.number < 2 ^ J.names.digits.bits) };
}

impl<'a, 'r, M: Mailbox, T: Receiver, S: Sender, G: Gate, J: Naming> Allocator<
    'a,
    'r,
    M,
    T,
    S,
    G,
    J,
> {
    /// The allocator over this station, as the worker of this number.
    pub(crate) fn new(
        fabric: &'a Fabric<'r, M, T, S, J>,
        gate: &'a G,
        alloc: Global,
        worker: u32,
        station: HeldStation<'r, T, S, J>,
    ) -> Allocator<'a, 'r, M, T, S, G, J>
        ensures { result ≡ station.entry }
    {
        recall(&station);
        Allocator {
            fabric,
            gate,
            alloc,
            worker,
            calls: 0,
            post_from: 0,
            until_post: POST_EVERY,
            station,
        }
    }
}

impl<
    'a,
    'r,
    T: Receiver,
    S: Sender,
    M: Mail<'r, TakeSeat = T, SendSeat = S>,
    G: Gate,
    J: Naming,
> Allocator<'a, 'r, M, T, S, G, J> {
    // Tells the gate of the call that comes next, and gives its number. Calls are counted for a gate alone.
    #[inline(always)]
    pub(crate) fn before(&mut self) -> u64
        ensures { self.new ≡ self.old }
    {
        if self.gate.is_told() {
            self.calls = self.calls.wrapping_add(1);
            self.gate.before(self.worker, self.calls);
        }
        self.calls
    }

    // Tells the gate that the call was answered.
    #[inline(always)]
    pub(crate) fn after(&self, call: u64) {
        if self.gate.is_told() {
            self.gate.after(self.worker, call);
        }
    }

    // Whether it is time for a look into the inbox, where so many buffers are asked for: one of them is the
    // next after 128 others.
    #[inline(always)]
    pub(crate) fn is_to_look(&self, count: u64) -> bool {
        let lent = self.station.lent_count() % LOOK_EVERY;
        lent == 0 || lent.saturating_add(count) > LOOK_EVERY
    }

    // The number of its desk.
    #[inline(always)]
    pub(crate) fn number(&self) -> u16
        ensures { result ≡ self.now.desk.number }
    {
        self.station.number()
    }

    // The class of a buffer of so many bytes, or that none has as many.
    #[inline]
    pub(crate) fn class_for(&self, size: usize) -> Option<Class>
        ensures class { MatchOption result (NoClassFor (profile_of J.names.digits.bits) size)
            (λ class. IsClassFor J.names size class) }
        ensures digits { self.now.desk.digits ≡ J.names.digits }
    {
        self.station.digits().class_for(size)
    }

    /// The greatest size in bytes that [`Allocator::alloc`] lends.
    pub fn largest_size(&self) -> usize
        ensures { result ≡ largest_of (profile_of J.names.digits.bits) }
    {
        self.station.digits().largest()
    }

    /// Takes what came home in batches, at most 64 of them, and no further one once 1,024 buffers came. Says
    /// how many it took. What goes on to another allocator is cached here, to be posted.
    pub fn collect<R: Wait>(&mut self, rt: &R) -> u32
        ensures keeps { Keeps J.names self.old self.new }
        ensures most { result ≤ most_taken }
    {
        let taken = self.station.take(rt, self.fabric);
        recall(&self.station);
        taken
    }

    // Takes what came in batches, and claims a part of the stock where no slot of the class is among it.
    // A post that was refused is then tried again with the next buffer that is freed.
    #[cold]
    #[inline(never)]
    pub(crate) fn fetch<R: Wait>(&mut self, rt: &R, class: Class)
        requires { class < classes_of (profile_of J.names.digits.bits) }
        ensures { Keeps J.names self.old self.new }
    {
        let _taken = self.collect(rt);
        if self.station.has_home(class) {
            return;
        }
        self.post_from = 0;
        if !self.station.claim(rt, self.fabric, class) {
            self.collect_on(rt, class);
        }
    }

    // Takes what else came, as long as no slot of the class is among it: a look ends at its bound, and the stock
    // is empty.
    #[cold]
    #[inline(never)]
    fn collect_on<R: Wait>(&mut self, rt: &R, class: Class)
        ensures { Keeps J.names self.old self.new }
    {
        for _ in 0..MOST_LOOKS {
            if self.collect(rt) == 0 || self.station.has_home(class) {
                return;
            }
        }
        recall(&self.station);
    }

    // Lends a buffer of the class where one is at home and wants no memory that isn't there.
    #[inline(always)]
    #[tactic(auto, using(crate::proofs::Fillings::lent_empty, crate::proofs::Refusals::has_no_more))]
    pub(crate) fn lend_at_home(&mut self, class: Class) -> Option<Buffer<'r, J>>
        requires { class < classes_of (profile_of J.names.digits.bits) }
        ensures { MatchOption result ((self.new ≡ self.old) × HasNoMore class self.new)
            (λ b. ServesClass J.names self.old class (Ok b) self.new) }
    {
        match self.station.alloc_class(self.alloc, class) {
            Ok(buffer) => Some(buffer),
            Err(_) => None,
        }
    }

    // Fetches a slot of the class, and lends it, where none was at home or each wants memory. It answers in
    // one register; why there is none, `why_none` says.
    #[cold]
    #[inline(never)]
    pub(crate) fn lend_fetched<R: Wait>(&mut self, rt: &R, class: Class) -> Option<Buffer<'r, J>>
        requires { class < classes_of (profile_of J.names.digits.bits) }
        ensures { MatchOption result (Keeps J.names self.old self.new × HasNoMore class self.new)
            (λ b. ServesClass J.names self.old class (Ok b) self.new) }
    {
        self.fetch(rt, class);
        self.lend_at_home(class)
    }

    // Why no buffer of the class was lent. It is asked out of line, and by no call that gives a buffer: else the
    // compiler keeps a flag for each loan.
    #[cold]
    #[inline(never)]
    pub(crate) fn why_none(&self, class: Class) -> PoolError
        requires { HasNoMore class self.now }
        ensures { RefusesClass class result self.now }
    {
        if self.station.has_home(class) {
            PoolError::NoMemory
        } else if self.station.has_drawn(class) {
            PoolError::UsedUp
        } else {
            PoolError::NoChunk
        }
    }

    /// Lends a buffer of at least `size` bytes. Nothing of it is cleared.
    ///
    /// It lends a slot at home. Where its class has none there, it takes what came, as [`Allocator::collect`]
    /// does, and draws a chunk of the stock where that brings none; where the stock is empty it takes on.
    /// After each 128 buffers that it lends it looks into the inbox, so that no sender waits until this
    /// allocator runs out of a class.
    ///
    /// [`PoolError::TooLarge`]: no class is large enough. [`PoolError::UsedUp`]: no slot of the class
    /// was at home, none came, and the stock was empty. [`PoolError::NoChunk`]: the same, and this
    /// allocator never drew a chunk for the class, so that no slot of it will ever come.
    /// [`PoolError::NoMemory`]: the system refused the memory for a slot's first use, and no slot that was
    /// used before came.
    // One function from here to the desk, but for what is seldom: the compiler looks at a flag behind each
    // call that may wait, inlined or not.
    #[inline(always)]
    #[tactic(auto, using(crate::proofs::Refusals::refused))]
    pub fn alloc<R: Wait>(&mut self, rt: &R, size: usize) -> Result<Buffer<'r, J>, PoolError>
        ensures { Serves J.names self.old size result self.new }
    {
        let call = self.before();
        let answer = match self.class_for(size) {
            None => Err(PoolError::TooLarge),
            Some(class) => {
                if self.is_to_look(1) {
                    self.fetch(rt, class);
                }
                match self.lend_at_home(class) {
                    Some(buffer) => Ok(buffer),
                    None => match self.lend_fetched(rt, class) {
                        Some(buffer) => Ok(buffer),
                        None => Err(self.why_none(class)),
                    },
                }
            }
        };
        self.after(call);
        answer
    }

    // Posts what is cached here, for others may wait for it, and waits a while.
    #[cold]
    #[inline(never)]
    pub(crate) fn pause<R: Wait + Clock>(&mut self, rt: &R, pauses: &mut Pauses)
        ensures { Keeps J.names self.old self.new }
    {
        let _all = self.flush(rt);
        pauses.pause(rt);
    }

    /// Gives a buffer as [`Allocator::alloc`] does, and where the pool is used up it waits until a slot
    /// comes home: it posts what is cached here, yields, and then sleeps, so that it uses little of a core.
    ///
    /// It doesn't wait where no slot can ever come ([`PoolError::NoChunk`]). A thread that waits while it
    /// holds back what others need can wait for ever, as one does that waits for more buffers than the
    /// pool has.
    #[inline]
    pub fn alloc_waiting<R: Wait + Clock>(
        &mut self,
        rt: &R,
        size: usize,
    ) -> Result<Buffer<'r, J>, PoolError>
        ensures serves { Serves J.names self.old size result self.new }
        ensures waits { result ≢ Err UsedUp }
    {
        let mut pauses = Pauses::new();
        for _ in rt.forever() {
            let answer = self.alloc(rt, size);
            if !is_used_up(&answer) {
                return answer;
            }
            self.pause(rt, &mut pauses);
        }
        unreachable!()
    }

    /// Gives a buffer as [`Allocator::alloc_waiting`] does, but waits at most `limit`, plus up to a
    /// millisecond. Then it answers [`PoolError::UsedUp`]. Where the clock can't be read it doesn't
    /// wait.
    pub fn alloc_within<R: Wait + Clock>(
        &mut self,
        rt: &R,
        size: usize,
        limit: Duration,
    ) -> Result<Buffer<'r, J>, PoolError>
        ensures { Serves J.names self.old size result self.new }
    {
        let began = Instant::now(rt);
        let mut pauses = Pauses::new();
        for _ in rt.forever() {
            let answer = self.alloc(rt, size);
            if !is_used_up(&answer) || !is_within(rt, &began, limit) {
                return answer;
            }
            self.pause(rt, &mut pauses);
        }
        unreachable!()
    }

    /// Posts all that is cached, whether that is due or not, and says whether all went. What an inbox
    /// refuses stays cached, and nothing else does.
    ///
    /// Otherwise others' buffers stay here, up to the cache's limit in bytes, for as long as nothing is
    /// freed here. Call it before the thread waits, or works without the pool for long: others may need
    /// those slots.
    #[cold]
    #[inline(never)]
    pub fn flush<R: Wait>(&mut self, rt: &R) -> bool
        ensures keeps { Keeps J.names self.old self.new }
        ensures all { IsTrue result → self.new.desk.cached ≡ [] }
    {
        self.until_post = POST_EVERY;
        let all = self.station.post(rt, self.fabric);
        // there is room again for the pointers to what will be freed
        self.station.make_room(self.alloc);
        let left = self.station.cached_bytes();
        self.post_from = left.saturating_add(left / 4);
        all
    }

    // Posts all that is cached, unless a batch was refused and little has come since. A post that is
    // refused costs as much as what is left is long, so the cache grows by a quarter before the next.
    // What came is taken first, since it may have to go on to others.
    #[cold]
    #[inline(never)]
    fn post_again<R: Wait>(&mut self, rt: &R)
        ensures { Keeps J.names self.old self.new }
    {
        self.until_post = POST_EVERY;
        let cached = self.station.cached_bytes();
        if cached == 0 || cached < self.post_from {
            return;
        }
        let _taken = self.collect(rt);
        let _all = self.flush(rt);
    }

    /// Takes a buffer back, and posts all that is cached where that is due: where it has more bytes than the
    /// limit, and at the latest after 1,024 buffers that were freed here.
    ///
    /// Where an inbox refuses a batch, its buffers stay cached, and the worker goes on. It tries again
    /// when the cache is due and has grown by a quarter, or once [`Allocator::alloc`] found no slot at
    /// home and none in its own inbox. So refused posts cost constant time per buffer on average.
    #[inline(always)]
    pub fn free<R: Wait>(&mut self, rt: &R, buffer: Buffer<'r, J>)
        ensures desk { SameDesk J.names self.old self.new }
        ensures lent { self.new.lent ≡ self.old.lent }
        ensures freed { self.new.freed ≡ self.old.freed ++ buffer.entry ∷ [] }
    {
        let call = self.before();
        let freed = self.station.free(buffer);
        self.after(call);
        self.until_post = self.until_post.wrapping_sub(1);
        if freed == Freed::Due || self.until_post == 0 {
            self.post_again(rt);
        }
    }

    /// An empty parcel for buffers of this allocator, with room for at least `places` of them.
    ///
    /// Arrays in which buffers came home are kept and reused: as many as were made here, at most 1,024, each
    /// for at most 256 buffers. Memory is taken only where none of these is large enough.
    pub fn parcel(&mut self, places: usize) -> Result<Parcel<'r, J>, NoMemory>
        ensures same { self.new ≡ self.old }
        ensures value { IfOk result (λ p.
            (p ≡ record { owner = self.old.desk.number; places = p.places; items = [] }) × (places ≤ p.places)) }
    {
        self.station.parcel(self.alloc, places)
    }

    /// Takes back all buffers of a parcel, and posts all that is cached where that is due, as
    /// [`Allocator::free`] does.
    ///
    /// Another allocator's parcel is cached whole, and none of its buffers is looked at, where the
    /// cache has a place for its array. Places are made after a post, so the first parcels find none.
    pub fn free_all<R: Wait>(&mut self, rt: &R, parcel: Parcel<'r, J>)
        ensures desk { SameDesk J.names self.old self.new }
        ensures lent { self.new.lent ≡ self.old.lent }
        ensures freed { self.new.freed ≡ self.old.freed ++ parcel.entry.items }
    {
        let call = self.before();
        let count = parcel.len() as u64;
        let freed = self.station.free_all(parcel);
        self.after(call);
        self.until_post = self.until_post.saturating_sub(count);
        if freed == Freed::Due || self.until_post == 0 {
            self.post_again(rt);
        }
    }

    /// Posts all that is cached and puts the station on the shelf: `None`.
    ///
    /// The station comes back where a post was refused, so that something is still cached, or where the
    /// shelf is full. Give it to [`settle`](crate::settle), for which it is missing else, or go on with
    /// [`Entrance::resume`](crate::Entrance::resume).
    pub fn retire<R: Wait>(self, rt: &R) -> Option<HeldStation<'r, T, S, J>>
        ensures { IfSome result (λ s. Keeps J.names self.entry s) }
    {
        let Allocator {
            fabric,
            gate: _,
            alloc: _,
            worker,
            calls: _,
            post_from: _,
            until_post: _,
            mut station,
        } = self;
        let _all = station.post(rt, fabric);
        match station.retire() {
            Ok(settled) => match fabric.put_back(rt, settled) {
                Ok(()) => None,
                Err(settled) => Some(settled.adopt(worker)),
            },
            Err(unsettled) => Some(unsettled),
        }
    }
}

// Tells a proof what the type of a station keeps: its number is one of the fabric's, and its digits are the
// fabric's. It does nothing.
#[inline(always)]
pub(crate) fn recall<'r, T: Receiver, S: Sender, J: Naming>(station: &HeldStation<'r, T, S, J>)
    ensures digits { station.now.desk.digits ≡ J.names.digits }
    ensures number { station.now.desk.number < 2 ^ J.names.digits.bits }
{
    let _number = station.number();
}

// Whether the pool is used up, for now.
fn is_used_up<J: Naming>(answer: &Result<Buffer<'_, J>, PoolError>) -> bool
    ensures { IsTrue result ↔ (answer.now ≡ Err UsedUp) }
{
    match answer {
        Err(PoolError::UsedUp) => true,
        _ => false,
    }
}

// Whether less time went by than the limit. It didn't where the clock can't be read.
fn is_within(clock: &impl Clock, began: &io::Result<Instant>, limit: Duration) -> bool {
    match began {
        Ok(began) => match began.elapsed(clock) {
            Ok(elapsed) => elapsed < limit,
            Err(_) => false,
        },
        Err(_) => false,
    }
}

// The buffers are not printed.
impl<M: Mailbox, T: Receiver, S: Sender, G: Gate, J: Naming> fmt::Debug
    for Allocator<'_, '_, M, T, S, G, J> {
    fn fmt<W: fmt::Write>(&self, f: &mut fmt::Formatter<W>) -> fmt::Result {
        write!(f, "Allocator(of worker {})", self.worker)
    }
}
