//! Callers of `region_cut`: what a crate above it learns from its contracts.
#![tactic(auto)]

mod any_order;
mod callers;
mod marks;

pub use any_order::mark_in_any_order;
pub use callers::{cleared, count, may_cross_threads};
pub use marks::{mark, marked_byte, settle_all};
