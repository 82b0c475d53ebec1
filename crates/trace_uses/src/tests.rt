//! Traces and their reports, byte for byte, and what an audit answers.

mod adapters;
mod audited;
mod audits;
mod bad_lines;
mod checks;
mod cuts;
mod failing;
mod growing;
mod long;
mod replays;
mod rows;
mod travel;
mod travels;
mod whole;
