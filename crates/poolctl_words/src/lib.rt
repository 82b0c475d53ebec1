//! What the words of `poolctl`'s command line ask for, read with `clap`.
//!
//! [`read`] reads them. It knows nothing of traces and of what the subcommands do, so it is proved
//! beside the crates that they stand on.
#![tactic(auto)]

mod asked;
mod words;

pub use asked::{Asked, Route, Work};
pub use words::{Unread, read};
