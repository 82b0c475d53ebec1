//! Tests of `batch_inbox`, with real threads.
//!
//! The pool itself calls nothing of this crate.
#![tactic(auto)]

#[cfg(test)]
mod tests;
