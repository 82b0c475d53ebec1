//! Tests of `pool_desk` and the crates below.
//!
//! The pool itself calls nothing of this crate.
#![tactic(auto)]

#[cfg(test)]
mod tests;
