//! Callers of a fabric, and tests.
//!
//! The pool itself calls nothing of this crate.
#![tactic(auto)]

#[cfg(test)]
mod going_on;
#[cfg(test)]
mod lacking;
#[cfg(test)]
mod lending;
#[cfg(test)]
mod refusing;
#[cfg(test)]
mod refusing_once;
#[cfg(test)]
mod resending;
#[cfg(test)]
mod tests;

#[cfg(test)]
pub use going_on::{Post, Posts, post_past_link, post_past_queue};
#[cfg(test)]
pub use lacking::without_one;
#[cfg(test)]
pub use lending::{lend, lend_across};
#[cfg(test)]
pub use refusing::Refusing;
#[cfg(test)]
pub use refusing_once::RefusingOnce;
#[cfg(test)]
pub use resending::{Resent, post_twice};
