//! The floor: all desks of a pool over one region, driven one request at a time.
//!
//! It is the pool without threads: each request is one whole step, so a run of requests can be written down, repeated
//! and checked. A request is accepted and answered, or it is refused by name and changes nothing.
#![tactic(auto)]

mod answers;
mod any_desk;
mod chunks;
mod ending;
mod floor;
mod holding;
mod inbox;
mod inboxes;
pub mod laws;
mod lending;
mod lent;
mod lists;
pub mod naming;
mod part_names;
mod queued_batch;
mod sending;
mod telling;
mod unlinked;

pub use chunks::end_parts;
pub use floor::Floor;
pub use pool_machine::{Refusal, Reply, Request};
