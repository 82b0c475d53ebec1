//! Readers and writers over memory that work in small pieces and fail where they are told to, and the tests of
//! `trace_audit` over them, which show traces with their reports, byte for byte.
//!
//! The pool itself calls nothing of this crate.
#![tactic(auto)]

#[cfg(test)]
pub mod memory;
#[cfg(test)]
mod tests;
