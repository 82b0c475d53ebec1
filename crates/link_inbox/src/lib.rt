//! The two-step inbox: a message queue of many senders with fixed memory.
//!
//! It is the queue of the snmalloc paper ("snmalloc: A Message Passing Allocator", ISMM 2019): a
//! linked list of nodes, to which a sender adds a node in two atomic steps. One exchange of the back
//! word puts the node last ([`LinkInbox::attach`]), and one store makes the node before it name it
//! ([`LinkInbox::link`]). Between the two the batch is sent, and can't be taken yet, nor can those
//! behind it.
//!
//! Each sender has 16 nodes of its own, and uses them in turn. So no call on an inbox takes memory or
//! waits for another thread. A sender whose next node isn't free gets its batch back.
//!
//! [`LinkInbox`] keeps all that `batch_inbox::Mail` promises.
#![tactic(auto)]

mod drain;
mod inbox;
pub mod laws;
mod load;
mod mail;
mod opening;
mod reading;
mod rest;
mod round;
pub mod rule;
mod seats;
pub mod steps;

pub use inbox::LinkInbox;
pub use rest::Rest;
pub use seats::{Attached, SendSeat, TakeSeat};
