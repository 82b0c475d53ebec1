//! Tests of `region_cut`.
//!
//! The pool itself calls nothing of this crate.
#![tactic(auto)]

#[cfg(test)]
mod tests;
