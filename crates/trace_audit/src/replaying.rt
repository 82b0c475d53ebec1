//! Reads a trace, drives a floor with it, and writes the report.

mod drive;
mod ending;
mod start;
mod turn;

pub use ending::{End, ReplayError};
pub use start::{replay, replay_audited};
