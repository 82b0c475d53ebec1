//! The whole pool as a small machine: its state, its requests with their answers, its runs, and the laws of these.
//!
//! The machine has no bytes, lists or tables. It knows of each slot where it is, of each desk who holds it, and of each
//! batch who sent it to whom. What a pool over a region does is proved against it (`event_floor`).
#![tactic(auto)]

mod chunk;
pub mod laws;
mod refusal;
mod reply;
mod request;

pub use chunk::DrawnChunk;
pub use refusal::Refusal;
pub use reply::Reply;
pub use request::Request;
