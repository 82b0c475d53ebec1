//! Callers of `event_floor`: what they learn from its contracts, and the tests that play worked runs on a floor.
//!
//! The pool itself calls nothing of this crate.
#![tactic(auto)]

#[cfg(test)]
mod asking;
#[cfg(test)]
mod ending;
#[cfg(test)]
mod handing;
#[cfg(test)]
mod opening;
#[cfg(test)]
mod tests;
#[cfg(test)]
mod told;

#[cfg(test)]
pub use asking::ask;
#[cfg(test)]
pub use ending::{Answers, Life, leaves_as_it_was, lives};
#[cfg(test)]
pub use handing::hand_out;
#[cfg(test)]
pub use opening::open;
#[cfg(test)]
pub use told::{counted, on_loan};
