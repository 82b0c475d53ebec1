//! Tests of `slot_chain`, and of `region_cut` with it.
//!
//! The pool itself calls nothing of this crate.
#![tactic(auto)]

#[cfg(test)]
mod tests;
