//! The rule that every state of an inbox keeps.
//!
//! A table of `atomic_table` has words, which change in single atomic steps, and slots, each with a
//! value. A seat at it may hold slots, and has a view: what it knows. The table is given a rule, a
//! fact about words, slots and views that holds between any two steps.
//!
//! Word 0 is the inbox's back. Word n + 1 is the next word of the node n, whose batch lies in the
//! slot n. Node 0 is the opening front, and then come the nodes of sender 0, of sender 1, and so on.
use crate::load::Load;
use atomic_table::{Seat, Shared, Table, TableRule};
use batch_inbox::place::Place;
use digit_route::Batch;
use std::alloc::Global;
use std::collections::LinkedList;

/// How many nodes each sender has.
pub(crate) const NODES: u64 = 16;

/// How many senders there may be.
pub(crate) const SENDERS: usize = 64;

/// The next word of a node that is free.
pub(crate) const FREE: u64 = u64::MAX;

/// What a seat is about. No value of it is made: it stands in contracts alone.
pub enum Role {
    /// A sender's, at rest.
    Idle,
    /// A sender's that has its next node in hand.
    Prepared,
    /// A sender's whose batch is attached and not linked.
    Attached,
    /// The receiver's, between two takes.
    Ready,
    /// The receiver's, which has a batch in hand and the old front to free.
    Lifted,
    /// One that the receiver took in.
    Spent,
}

/// What a seat knows. No value of it is made: it stands in contracts alone.
pub struct View<T> {
    pub role: Role,
    /// Where the inbox is.
    pub place: Place,
    /// The sender's number; to the receiver, of which sender it took in the seat last.
    pub sender: u64,
    /// How many senders there are, to the receiver.
    pub made: u64,
    /// The node in hand, or that was attached; to the receiver, the front.
    pub node: u64,
    /// The node that the attached one stands behind; to the receiver, the old front.
    pub before: u64,
    /// What was sent; to the receiver, what was taken.
    pub list: LinkedList<T>,
    /// To the receiver, what each sender sent in all whose seat it took in.
    pub known: LinkedList<LinkedList<T>>,
}

/// The rule of an inbox.
pub struct InOrder;

impl<'r> TableRule<Load<'r>, View<Batch<'r>>, Place> for InOrder {
    ghost use Rattle.link_inbox.specs.Rule.{IsInOrder};
    ghost use Rattle.link_inbox.specs.States.{IsFor};
    ghost use Rattle.link_inbox.specs.Steps.{opener};

    ghost holds = { λ place. IsInOrder IsFor place };

    ghost first = { opener };
}

pub(crate) type Nodes<'r> = Table<Load<'r>, View<Batch<'r>>, Place, InOrder, Global>;

pub(crate) type SharedNodes<'r> = Shared<Load<'r>, View<Batch<'r>>, Place, InOrder>;

pub(crate) type Token<'r> = Seat<Load<'r>, View<Batch<'r>>>;
