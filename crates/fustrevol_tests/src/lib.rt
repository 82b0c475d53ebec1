//! Tests of the front crate: each setting of a pool, and what comes at its limits.
//!
//! The pool itself calls nothing of this crate.
#![tactic(auto)]

#[cfg(test)]
mod tests;
