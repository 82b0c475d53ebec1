//! What the words of `example_shipper`'s command line ask for, read with `clap`.
//!
//! [`read`] reads them. It knows nothing of the pool, so it is proved beside the crates that the program
//! stands on.
#![tactic(auto)]

mod asked;
mod options;
mod words;

pub use asked::Asked;
pub use words::{Unread, read};
