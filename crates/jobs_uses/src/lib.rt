//! Callers of the allocators of a pool, and tests.
#![tactic(auto)]

#[cfg(test)]
mod again;
#[cfg(test)]
mod alone;
#[cfg(test)]
mod bursts;
#[cfg(test)]
mod fixed;
#[cfg(test)]
mod handing;
#[cfg(test)]
mod looking;
#[cfg(test)]
mod over_counting;
#[cfg(test)]
mod over_counting_link;
#[cfg(test)]
mod pair;
#[cfg(test)]
mod passing;
#[cfg(test)]
mod promised;
#[cfg(test)]
mod taking_up;
#[cfg(test)]
mod tests;
#[cfg(test)]
mod unheard;
#[cfg(test)]
mod watch;
#[cfg(test)]
mod watched;

#[cfg(test)]
pub use again::enter_again;
#[cfg(test)]
pub use alone::work_alone;
#[cfg(test)]
pub use bursts::pass_in_bursts;
#[cfg(test)]
pub use fixed::Fixed;
#[cfg(test)]
pub use handing::{Handed, hand_parcels};
#[cfg(test)]
pub use looking::{Looked, Trial, look_after};
#[cfg(test)]
pub use over_counting::work_counting;
#[cfg(test)]
pub use over_counting_link::work_counting_linked;
#[cfg(test)]
pub use passing::{Passed, pass_on};
#[cfg(test)]
pub use promised::{Ask, ask_there};
#[cfg(test)]
pub use taking_up::{Answers, TakenUp, take_up_desk};
#[cfg(test)]
pub use unheard::{Frees, free_unheard};
#[cfg(test)]
pub use watch::{Hold, Watch};
#[cfg(test)]
pub use watched::{Seen, Watched};
