//! One allocator of the pool: its slots at home, class by class, and its cache of others' buffers.
//!
//! After snmalloc ("snmalloc: A Message Passing Allocator", Lietar and others, ISMM 2019): slots of
//! one class lie side by side in a chunk and are given out from a list of freed ones or, where that
//! is empty, from the chunk's front onwards. A buffer of another allocator that is freed here goes
//! into a cache, to be posted towards its owner. What comes in a batch is kept where it is the
//! desk's own, and else cached to be sent on.
#![tactic(auto)]

mod by_class;
mod counts;
mod desk;
mod error;
mod freed;
mod handling;
mod home;
mod homes;
mod idle;
mod listing;
mod posting;
mod routing;
mod spares;

pub use counts::Counts;
pub use desk::Desk;
pub use error::DeskError;
pub use freed::Freed;
pub use idle::IdleDesk;
pub use posting::DeskPosting;
