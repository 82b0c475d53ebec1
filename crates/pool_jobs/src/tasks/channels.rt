//! The edges between tasks.
ghost use Rattle.std.specs.Prelude.{◌≡◌, length, IfOk, IfErr};
ghost use Rattle.pool_jobs.specs.Edges.{message_in};
ghost use Rattle.pool_jobs.specs.declared.tasks.channels.Message.TheVariants.{Buffer, Parcel};

use crate::buffers::burst::Burst;
use crate::buffers::bytes::Bytes;
use crate::tasks::heap::Heap;
use crate::tasks::task::Task;
use crossbeam_channel::{Receiver, Sender, TrySendError};
use crossbeam_utils::Backoff;
use std::alloc::{AllocError, Global};
use std::fmt;
use std::sync::Wait;

/// What goes from task to task.
#[derive(Drop)]
pub enum Message<B: Drop, P: Drop> {
    Buffer(B),
    Parcel(P),
}

impl<B: Bytes, P: Burst<B>> Message<B, P> {
    /// Frees what it has, at this allocator.
    pub fn free<H: Heap<Buffer = B, Parcel = P>, R: Wait>(self, rt: &R, heap: &mut H) {
        match self {
            Message::Buffer(buffer) => heap.free(rt, buffer),
            Message::Parcel(parcel) => heap.free_all(rt, parcel),
        }
    }
}

// The buffers are not printed.
impl<B: Drop, P: Drop> fmt::Debug for Message<B, P> {
    fn fmt<W: fmt::Write>(&self, f: &mut fmt::Formatter<W>) -> fmt::Result {
        f.write_str(match self {
            Message::Buffer(_) => "Buffer(..)",
            Message::Parcel(_) => "Parcel(..)",
        })
    }
}

/// Why a message was not handed over. It comes back.
#[derive(Drop)]
pub enum Unsent<M> {
    /// The queue of the receiving task is full.
    Full(M),
    /// [`Task::sends_to`] named no such edge, [`Channels::stop_sending`] was called, or the task at its
    /// end has ended.
    Closed(M),
}

impl<M> Unsent<M> {
    /// The message.
    pub fn into_inner(self) -> M
        ensures { result ≡ message_in self }
    {
        match self {
            Unsent::Full(message) => message,
            Unsent::Closed(message) => message,
        }
    }
}

impl<M> fmt::Debug for Unsent<M> {
    fn fmt<W: fmt::Write>(&self, f: &mut fmt::Formatter<W>) -> fmt::Result {
        f.write_str(match self {
            Unsent::Full(_) => "Full(..)",
            Unsent::Closed(_) => "Closed(..)",
        })
    }
}

// How often a task looks whether an edge has a message, or a place, before it sleeps: for some microseconds,
// since to put a thread to sleep and to wake it takes longer.
const LOOKS: u32 = 11;

/// A task's ends of the edges: the one at which it receives messages, and one to each task to which it
/// sends some. The number of a task is its place in the list given to [`run`](crate::run), from 0.
///
/// All edges to a task end in one queue, which has as many places as their bounds together
/// ([`Task::bound`]). It is a bounded channel of `crossbeam_channel`: a send or a receive takes a lock for
/// a moment, and who waits looks again for some microseconds and then sleeps. So hand over parcels where
/// packets are many.
///
/// What is left in the queue when its task ends is dropped, and those slots are lost. So a task that gives
/// up frees first what still comes ([`Channels::free_rest`]).
#[derive(Drop)]
pub struct Channels<B: Drop, P: Drop> {
    from: Receiver<Message<B, P>>,
    to: Vec<Option<Sender<Message<B, P>>>>,
}

impl<B: Bytes, P: Burst<B>> Channels<B, P> {
    /// Hands a message to the task of this number, or hands it back: it doesn't wait. Nor does it post what
    /// is cached here; a task that tries again and again calls [`Heap::flush`] between.
    pub fn try_send<R: Wait>(
        &self,
        rt: &R,
        task: usize,
        message: Message<B, P>,
    ) -> Result<(), Unsent<Message<B, P>>>
        ensures { IfErr result (λ e. message_in e ≡ message) }
    {
        let Some(Some(to)) = self.to.get(task) else {
            return Err(Unsent::Closed(message));
        };
        match to.try_send(rt, message) {
            Ok(()) => Ok(()),
            Err(TrySendError::Full(message)) => Err(Unsent::Full(message)),
            Err(refused) => Err(Unsent::Closed(refused.into_inner())),
        }
    }

    /// Hands a message to the task of this number, and waits while the edge is full. Before it waits, it
    /// posts what is cached at this task's allocator ([`Heap::flush`]), so that no other task starves for
    /// those slots. The message comes back where there is no such edge, and where that task has ended.
    pub fn send<H: Heap<Buffer = B, Parcel = P>, R: Wait>(
        &self,
        rt: &R,
        heap: &mut H,
        task: usize,
        message: Message<B, P>,
    ) -> Result<(), Message<B, P>>
        ensures { IfErr result (λ m. m ≡ message) }
    {
        let backoff = Backoff::new();
        let mut message = message;
        for _ in 0..LOOKS {
            match self.try_send(rt, task, message) {
                Ok(()) => return Ok(()),
                Err(Unsent::Closed(back)) => return Err(back),
                Err(Unsent::Full(back)) => message = back,
            }
            backoff.snooze();
        }
        let _all = heap.flush(rt);
        self.send_later(rt, task, message)
    }

    // Waits while the edge is full.
    fn send_later<R: Wait>(
        &self,
        rt: &R,
        task: usize,
        message: Message<B, P>,
    ) -> Result<(), Message<B, P>>
        ensures { IfErr result (λ m. m ≡ message) }
    {
        let Some(Some(to)) = self.to.get(task) else {
            return Err(message);
        };
        match to.send(rt, message) {
            Ok(()) => Ok(()),
            Err(refused) => Err(refused.into_inner()),
        }
    }

    /// Hands over a buffer, as [`Channels::send`] does a message.
    pub fn send_buffer<H: Heap<Buffer = B, Parcel = P>, R: Wait>(
        &self,
        rt: &R,
        heap: &mut H,
        task: usize,
        buffer: B,
    ) -> Result<(), Message<B, P>>
        ensures { IfErr result (λ m. m ≡ Buffer buffer) }
    {
        self.send(rt, heap, task, Message::Buffer(buffer))
    }

    /// Hands over a parcel, as [`Channels::send`] does a message.
    pub fn send_parcel<H: Heap<Buffer = B, Parcel = P>, R: Wait>(
        &self,
        rt: &R,
        heap: &mut H,
        task: usize,
        parcel: P,
    ) -> Result<(), Message<B, P>>
        ensures { IfErr result (λ m. m ≡ Parcel parcel) }
    {
        self.send(rt, heap, task, Message::Parcel(parcel))
    }

    /// Hands a message over as [`Channels::send`] does, and frees it where it comes back. Says whether it
    /// was handed over.
    pub fn send_or_free<H: Heap<Buffer = B, Parcel = P>, R: Wait>(
        &self,
        rt: &R,
        heap: &mut H,
        task: usize,
        message: Message<B, P>,
    ) -> bool {
        match self.send(rt, heap, task, message) {
            Ok(()) => true,
            Err(message) => {
                message.free(rt, heap);
                false
            }
        }
    }

    /// Gives the next message, or `None` where none is there now: it doesn't wait, and doesn't post what is
    /// cached here. Only [`Channels::receive`] tells that no more will come.
    pub fn try_receive<R: Wait>(&self, rt: &R) -> Option<Message<B, P>> {
        self.from.try_recv(rt).ok()
    }

    /// Gives the next message, and waits until there is one. Before it waits, it posts what is cached
    /// at this task's allocator ([`Heap::flush`]). The messages of one sender come in its order; of
    /// several senders, whichever has something comes next.
    ///
    /// It answers `None` once each task that sends to this one has ended or called
    /// [`Channels::stop_sending`], and all that they handed over was received. A task that sends to
    /// itself must call [`Channels::stop_sending`] first; else it waits for ever.
    pub fn receive<H: Heap<Buffer = B, Parcel = P>, R: Wait>(
        &self,
        rt: &R,
        heap: &mut H,
    ) -> Option<Message<B, P>> {
        let backoff = Backoff::new();
        for _ in 0..LOOKS {
            if let Some(message) = self.try_receive(rt) {
                return Some(message);
            }
            backoff.snooze();
        }
        let _all = heap.flush(rt);
        self.from.recv(rt).ok()
    }

    /// Frees all that comes, until [`Channels::receive`] answers `None`, and says how many messages that
    /// were.
    pub fn free_rest<H: Heap<Buffer = B, Parcel = P>, R: Wait>(&self, rt: &R, heap: &mut H) -> u64 {
        let mut freed = 0u64;
        for _ in rt.forever() {
            let Some(message) = self.receive(rt, heap) else {
                break;
            };
            message.free(rt, heap);
            freed = freed.saturating_add(1);
        }
        freed
    }

    /// Sends no more messages, to any task: each later send hands its message back.
    pub fn stop_sending(&mut self) {
        self.to.clear();
    }
}

// How many places the queue of this task has: the bounds of the edges to it, added up, and at least one.
fn places_for<K: Task>(tasks: &[K], number: usize) -> usize {
    let mut places = 0usize;
    for task in tasks {
        if task.sends_to(number) {
            places = places.saturating_add(task.bound(number));
        }
    }
    places.max(1).min(MOST_PLACES)
}

// No queue has more places.
const MOST_PLACES: usize = 1 << 20;

/// The channels of so many tasks: the ends of each, in order.
pub(crate) fn channels_of<B: Drop, P: Drop, K: Task>(
    alloc: Global,
    tasks: &[K],
) -> Result<Vec<Channels<B, P>>, AllocError>
    ensures each { IfOk result (λ all. length all.items ≡ length tasks.now) }
{
    let mut senders = Vec::new(alloc);
    let mut receivers = Vec::new(alloc);
    for number in 0..tasks.len() {
        let (to, from) = crossbeam_channel::bounded(alloc, places_for(tasks, number))?;
        senders.push(to)?;
        receivers.push(from)?;
    }
    let mut all = Vec::new(alloc);
    for (task, from) in tasks.iter().zip(receivers) {
        let to = senders_of(alloc, task, &senders)?;
        all.push(Channels { from, to })?;
    }
    Ok(all)
}

// The sending ends of one task: one for each task to which it sends.
fn senders_of<M: Drop, K: Task>(
    alloc: Global,
    task: &K,
    senders: &[Sender<M>],
) -> Result<Vec<Option<Sender<M>>>, AllocError> {
    let mut to = Vec::new(alloc);
    for (number, sender) in senders.iter().enumerate() {
        let end = if task.sends_to(number) {
            Some(sender.clone()?)
        } else {
            None
        };
        to.push(end)?;
    }
    Ok(to)
}
