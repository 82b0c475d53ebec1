//! For a program that starts its threads itself, and holds its allocators: what it names beside
//! [`Allocator`](crate::Allocator), [`Buffer`](crate::Buffer) and [`Parcel`](crate::Parcel).
//!
//! The program opens a [`Fabric`] from an [`Opening`], with one allocator for each desk. Each thread
//! takes one ([`Entrance::enter`]) and gives it up ([`Allocator::retire`](crate::Allocator::retire)).
//! Then [`settle`] accounts for every slot.
//!
//! The threads start in a free function that names the inbox, since in one that is generic over it the
//! check can't tell that an allocator may cross to a thread.

pub use batch_inbox::Inbox;
pub use link_inbox::{LinkInbox, SendSeat, TakeSeat};
pub use pool_fabric::{Fabric, GatherError, HeldStation, Naming, Opening};
pub use pool_jobs::{Entrance, Gate, MOST_THREADS, NoGate, WorkReport, settle};
pub use region_cut::{Part, cut};

/// The seats of [`Inbox`]. Those of [`LinkInbox`] have the same names.
pub mod queued {
    pub use batch_inbox::{SendSeat, TakeSeat};
}
