//! The rule that every state of an inbox keeps.
//!
//! A queue of `crossbeam_queue` can be given a rule: a statement of what the queue holds and of what
//! the pass of each thread knows. It holds between any two atomic steps, each of which has to keep
//! it.
use crate::place::Place;
use crossbeam_queue::protocol::Protocol;
use crossbeam_queue::{RuledSegQueue, SegPass};
use digit_route::Batch;
use std::collections::LinkedList;

/// What a pass knows. No value of it is made: it stands in contracts alone.
pub struct View<'r> {
    /// The inbox has no address yet.
    pub opens: bool,
    /// The pass is a sender's.
    pub sends: bool,
    /// The pass is the receiver's.
    pub takes: bool,
    /// The sender's number.
    pub sender: u16,
    /// Where the inbox is.
    pub place: Place,
    /// How many senders there are, to the receiver.
    pub made: usize,
    /// What the sender sent.
    pub sent: LinkedList<Batch<'r>>,
    /// What the receiver took.
    pub taken: LinkedList<Batch<'r>>,
    /// What each of the first senders sent in all, to a receiver that took in their passes.
    pub known: LinkedList<LinkedList<Batch<'r>>>,
}

/// The rule of an inbox.
pub struct InOrder;

impl<'r> Protocol<Batch<'r>, View<'r>> for InOrder {
    ghost use Rattle.batch_inbox.specs.Order.{IsInOrder};
    ghost use Rattle.batch_inbox.specs.Views.{opener};

    ghost holds = { IsInOrder };

    ghost first = { opener };
}

pub(crate) type Line<'r> = RuledSegQueue<Batch<'r>, View<'r>, InOrder>;

pub(crate) type Pass<'r> = SegPass<Batch<'r>, View<'r>>;
