//! Callers of `digit_route`, and the tests of it that show worked rows.
#![tactic(auto)]

#[cfg(test)]
pub mod batch_row;
#[cfg(test)]
pub mod filling;
#[cfg(test)]
pub mod offering;
#[cfg(test)]
mod tests;
