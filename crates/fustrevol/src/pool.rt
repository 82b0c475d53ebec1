//! The pool of a program.
ghost use Rattle.std.specs.Prelude.{◌≡◌, ℕ, ◌-◌, ◌/◌, ◌^◌, ◌≤◌, ◌<◌, ◌↔◌, Some, length, IfOk, IfSome};
ghost use Rattle.std.specs.List.{AllZip};
ghost use Rattle.region_cut.specs.Limits.{chunk_limit, chunk_size};
ghost use Rattle.region_cut.specs.Parts.{numbers_from};
ghost use Rattle.region_cut.specs.declared.error.CutError.TheVariants.{TooMany};
ghost use Rattle.digit_route.specs.Limits.{largest_limit};
ghost use Rattle.pool_fabric.specs.Opened.{most_desks};
ghost use Rattle.pool_jobs.specs.Ends.{IsAccounted};
ghost use Rattle.pool_jobs.specs.Promises.{FirstHave};
ghost use Rattle.fustrevol.specs.Pools.{desks_for};
ghost use Rattle.fustrevol.specs.declared.pool.InboxKind.TheVariants.{Linked};

use batch_inbox::Inbox;
use digit_route::Digits;
use link_inbox::LinkInbox;
use pool_fabric::Opening;
use pool_jobs::{JobError, MOST_THREADS, NoGate, RunReport, Task, run, run_linked};
use region_cut::{CHUNK, CutError, Part, cut};
use std::alloc::Global;
use std::fmt;
use std::marker::Model;
use std::sync::Wait;
use std::thread::Threads;
use std::time::Clock;

/// The queue over which freed buffers go home.
#[derive(Clone, Copy, Debug, PartialEq, Eq)]
pub enum InboxKind {
    /// Nodes that are all made when the pool runs, and are linked in two atomic steps. After that a
    /// post or a take needs no memory, no lock and no waiting.
    Linked,
    /// A queue of `crossbeam_queue`, which grows as it has to.
    Queued,
}

/// The greatest limit, in bytes, that the pool picks where [`Pool::limit`] isn't called.
pub const LARGEST_DEFAULT_LIMIT: u64 = 262_144;

/// The greatest limit, in bytes, that [`Pool::limit`] takes.
pub const LARGEST_LIMIT: u64 = 1_048_576;

/// A pool over a region that the program lends it, cut into chunks of 4,096 bytes ([`CHUNK`]). A chunk
/// becomes slots of one size class, of at most 512 bytes (1,024 with [`Digits::new2`]).
///
/// Contracts see the numbers of its chunks and what was set.
#[must_use]
#[derive(Drop)]
pub struct Pool<'r> {
    alloc: Global,
    parts: Vec<Part<'r>>,
    limit: Option<u64>,
    digits: Option<Digits>,
    inbox: InboxKind,
}

impl<'r> Model for Pool<'r> {
    ghost use Rattle.std.specs.Prelude.{◌≤◌, map, IfSome};
    ghost use Rattle.region_cut.specs.Limits.{chunk_limit};
    ghost use Rattle.region_cut.specs.Parts.{AreNumbered, number_of};
    ghost use Rattle.digit_route.specs.Digits.{IsScheme};
    ghost use Rattle.digit_route.specs.Limits.{largest_limit};
    ghost use Rattle.fustrevol.specs.Pools.{PoolState};

    ghost Value = { PoolState };

    ghost view = { λ p. record {
      chunks = map number_of p.parts.items;
      limit = p.limit;
      digits = p.digits;
      inbox = p.inbox;
    } };

    ghost invariant = { λ p. AreNumbered p.parts.items × IfSome p.limit (λ bytes. bytes ≤ largest_limit) };
}

impl<'r> Pool<'r> {
    ghost use Rattle.std.specs.Prelude.{None};

    /// A pool over this region. What is left of it behind the last whole chunk isn't used. A region of less
    /// than [`CHUNK`] bytes gives a pool without slots: each `alloc` answers that it is used up, and
    /// `alloc_waiting` waits for ever.
    ///
    /// [`CutError::TooMany`]: the region has more than 1,024 whole chunks. [`CutError::NoMemory`]: the
    /// system refused memory for the list of its chunks.
    ///
    /// The other settings are chosen when it runs: the limit of each cache ([`Pool::limit`]), how numbers
    /// of allocators are read ([`Pool::digits`]), and [`InboxKind::Linked`].
    pub fn new(alloc: Global, region: &'r mut [u8]) -> Result<Pool<'r>, CutError>
        ensures value { IfOk result (λ p. p ≡ record {
          chunks = numbers_from 0 (length region.old / chunk_size);
          limit = None;
          digits = None;
          inbox = Linked;
        }) }
        ensures too_many { (result ≡ Err TooMany) ↔ (chunk_limit < length region.old / chunk_size) }
    {
        Ok(Pool {
            alloc,
            parts: cut(alloc, region)?,
            limit: None,
            digits: None,
            inbox: InboxKind::Linked,
        })
    }

    /// Sets how many bytes of others' buffers a thread keeps before it posts them, at most
    /// [`LARGEST_LIMIT`]. A greater limit means fewer posts, and more slots on their way home. With 0 each
    /// free of another's buffer posts. A thread posts at the latest after 1,024 frees, whatever the limit.
    ///
    /// Where it isn't set, all threads together keep at most a quarter of the region, and each at most
    /// 262,144 bytes.
    pub fn limit(self, bytes: u64) -> Pool<'r>
        requires { bytes ≤ largest_limit }
        ensures { result ≡ record self.entry { limit = Some bytes } }
    {
        Pool {
            limit: Some(bytes),
            ..self
        }
    }

    /// Sets the width of the digits in which allocators' numbers are read. The wider they are, the
    /// fewer stops a buffer makes on its way home. [`Digits::new2`] also gives buffers of up to 1,024
    /// bytes.
    ///
    /// Where it isn't set, a digit is wide enough to tell all tasks apart, so each buffer goes home
    /// straight.
    pub fn digits(self, digits: Digits) -> Pool<'r>
        ensures { result ≡ record self.entry { digits = Some digits } }
    {
        Pool {
            digits: Some(digits),
            ..self
        }
    }

    /// Sets the queue over which freed buffers go home.
    pub fn inbox(self, inbox: InboxKind) -> Pool<'r>
        ensures { result ≡ record self.entry { inbox = inbox } }
    {
        Pool { inbox, ..self }
    }

    // How many bytes of others' buffers each of so many threads keeps.
    #[tactic(auto, using(region_cut::proofs::Numbered::numbered_few))]
    fn limit_for(&self, desks: u16) -> u64
        requires { 1 ≤ desks }
        ensures { result ≤ largest_limit }
    {
        let _known = &self.parts;
        match self.limit {
            Some(bytes) => bytes,
            None => quarter_of(self.parts.len(), desks).min(LARGEST_DEFAULT_LIMIT),
        }
    }

    /// Runs the tasks, each in a thread of its own with an allocator of its own, and accounts for all
    /// that there is when they have ended. A task beyond the 64th is not begun, and has no answer.
    ///
    /// Whatever the tasks do with their buffers, and whatever the schedule was, nothing is lost and
    /// nothing is there twice. Counted slot by slot, found + lent = slots of the drawn chunks + freed.
    ///
    /// The audit of the tally is that of the slots found. Where buffers were dropped, it names only the
    /// least of their slots, or answers that it had no memory; `lost` counts those buffers. Each task that
    /// was begun answered what it promised ([`Task`]'s `gives`).
    ///
    /// [`JobError::NoThread`]: a thread could not be started. [`JobError::NoMemory`]: the system
    /// refused memory for the run's own desks, queues, edges or lists. The threads that were started
    /// have ended then, and the pool is dropped.
    pub fn run<K, R>(self, rt: &R, tasks: Vec<K>) -> Result<RunReport<'r, K::Answer>, JobError>
    where
        K: Task + Send,
        R: Threads + Wait + Clock + Sync,
        K::Answer: Send,
        ensures accounted { IfOk result (λ e.
            IsAccounted self.entry.chunks (desks_for (length tasks.items)) e.found e.tally) }
        ensures answers { IfOk result (λ e. length e.answers.items ≡ length tasks.items) }
        ensures promised { IfOk result (λ e. AllZip (λ t a. IfSome a (K.gives t)) tasks.items e.answers.items) }
        ensures begun { IfOk result (λ e. (n : ℕ) × (n ≤ most_desks) × FirstHave (λ a. a) n e.answers.items) }
    {
        let digits = self.digits.unwrap_or(straight(tasks.len()));
        let desks = desks_for(tasks.len(), digits);
        let limit = self.limit_for(desks);
        let Pool {
            alloc,
            parts,
            limit: _,
            digits: _,
            inbox,
        } = self;
        match inbox {
            InboxKind::Linked => {
                let opening = LinkedOpening::new(alloc, parts, desks, digits, limit)?;
                run_linked(rt, alloc, opening, &NoGate, tasks)
            }
            InboxKind::Queued => {
                let opening = QueuedOpening::new(alloc, parts, desks, digits, limit)?;
                run(rt, alloc, opening, &NoGate, tasks)
            }
        }
    }
}

type LinkedOpening<'r> = Opening<
    'r,
    LinkInbox<'r>,
    link_inbox::TakeSeat<'r>,
    link_inbox::SendSeat<'r>,
>;

type QueuedOpening<'r> = Opening<
    'r,
    Inbox<'r>,
    batch_inbox::TakeSeat<'r>,
    batch_inbox::SendSeat<'r>,
>;

// How many desks there are for so many tasks: one for each, at least one and at most 64.
#[tactic(auto, using(crate::proofs::Numbers::numbers_enough))]
fn desks_for(tasks: usize, digits: Digits) -> u16
    ensures value { result ≡ desks_for tasks }
    ensures numbered { result ≤ 2 ^ digits.bits }
    ensures some { 1 ≤ result }
    ensures few { result ≤ most_desks }
{
    let numbers = 1usize << digits.profile().bits();
    tasks.max(1).min(MOST_THREADS as usize).min(numbers) as u16
}

// How many bytes each of so many threads keeps where all of them keep a quarter of so many chunks.
fn quarter_of(chunks: usize, threads: u16) -> u64
    requires few { chunks ≤ chunk_limit }
    requires some { 1 ≤ threads }
{
    (chunks * (CHUNK / 4) / usize::from(threads)) as u64
}

// Digits so wide that the numbers of so many tasks differ in the first one.
fn straight(tasks: usize) -> Digits {
    for width in 1..6 {
        if 1usize << width >= tasks
            && let Some(digits) = Digits::new(width)
        {
            return digits;
        }
    }
    let Some(digits) = Digits::new(6) else {
        unreachable!()
    };
    digits
}

// The region isn't printed.
impl fmt::Debug for Pool<'_> {
    fn fmt<W: fmt::Write>(&self, f: &mut fmt::Formatter<W>) -> fmt::Result {
        write!(f, "Pool({} chunks)", self.parts.len())
    }
}
