//! The message queue of a desk: many senders, one receiver.
//!
//! Batches of freed buffers go home through inboxes. Each desk has one: an [`Inbox`] with one
//! [`TakeSeat`], which its desk's worker holds, and a [`SendSeat`] for each desk that may post to it.
//! As in snmalloc ("snmalloc: A Message Passing Allocator", ISMM 2019) nobody takes a lock, and the
//! order of one sender is kept.
//!
//! A seat is the right to do one thing, and its contract knows what was done with it: a send seat
//! what was sent from it, the take seat what was taken. Threads share the inbox and own their seats.
//!
//! [`Mail`] is what every such queue promises, this one or one of a user's own, and [`NewMail`] how
//! one is made.
#![tactic(auto)]

mod error;
mod inbox;
pub mod laws;
mod mail;
mod new_mail;
mod opening;
pub mod place;
pub mod placing;
mod rest;
pub mod rule;
mod seats;
pub mod steps;

pub use error::PostError;
pub use inbox::Inbox;
pub use mail::{Mail, Mailbox, Receiver, Remainder, Sender};
pub use new_mail::NewMail;
pub use rest::Rest;
pub use seats::{SendSeat, TakeSeat};
