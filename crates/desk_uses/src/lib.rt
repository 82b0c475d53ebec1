//! Callers of `pool_desk`: what they learn from its contracts.
//!
//! The pool itself calls nothing of this crate.
#![tactic(auto)]

mod callers;
mod crossing;
mod lending;
mod living;

pub use callers::{cached_were_passed_on_few_times, lend_and_take_back, written};
pub use crossing::{desk_crosses, idle_desk_crosses};
pub use lending::lend_by_hand;
pub use living::{fills_front, lives};
