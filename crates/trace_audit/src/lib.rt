//! Traces of a buffer pool: [`replay`] reads one, drives a floor with it, and writes a report; [`replay_audited`]
//! audits the floor at its end.
//!
//! [`audit`], of `slot_audit`, says whether all slots of the chunks that a pool drew are there, each of them once.
//!
//! The formats of the trace and of the report stand in `docs/FORMATS.md`. A trace comes from a
//! [`Source`], a report goes to a [`Sink`]; over readers and writers of std these are
//! [`FromReader`] and [`ToWriter`].
#![tactic(auto)]

mod auditing;
mod grammar;
mod held;
pub mod laws;
mod lines;
mod replaying;
mod report;
mod wire;

pub use grammar::Header;
pub use replaying::{End, ReplayError, replay, replay_audited};
pub use report::write_audit;
pub use slot_audit::{Drawn, Fault, audit};
pub use wire::{Failed, FromReader, Sink, Source, ToWriter, write_all};
