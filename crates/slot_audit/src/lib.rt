//! The audit of a pool: [`audit`] says whether all slots of the chunks that a pool drew are there, each of them once.
#![tactic(auto)]

mod auditing;
mod drawn;
mod fault;
mod strangers;
mod tallies;

pub use auditing::audit;
pub use drawn::Drawn;
pub use fault::Fault;
