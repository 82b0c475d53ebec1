//! Tests of workloads and of a program's own tasks, in threads.
//!
//! The pool itself calls nothing of this crate.
#![tactic(auto)]

#[cfg(test)]
mod echo;
#[cfg(test)]
mod tests;

#[cfg(test)]
pub use echo::Echo;
