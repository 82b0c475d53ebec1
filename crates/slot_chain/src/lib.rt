//! Buffers, and the chains that they are kept in.
//!
//! A [`Buf`] is one slot of a region, with the slice that lies there and what the pool knows of it:
//! its slot, its size class, the allocator that owns it, how often it was passed on, and how much of it
//! its user has filled. A
//! [`Chain`] is a list of buffers. As in snmalloc (ISMM 2019) a list is linked through places that
//! its objects already have, so that a buffer is freed, cached and sent without taking memory. Here
//! the link is no part of the slot: it stands in a box of its own, a [`Room`], which is made before
//! the buffer is. A buffer moves as the one pointer to that box. A [`Magazine`] is a list for another
//! thread: an array of such pointers, so that no box is written to. A [`BufParcel`] has the buffers of one
//! allocator, which are passed on and freed as a whole.
#![tactic(auto)]

mod array;
mod below;
mod buf;
mod chain;
mod empty;
mod error;
mod filling;
mod into_iter;
mod late_handle;
mod lease;
mod link;
mod magazine;
mod node;
mod parcel;
mod parcels;
mod portion;
mod room;
mod stack;
mod walk;

pub use buf::Buf;
pub use chain::Chain;
pub use empty::EmptyMagazine;
pub use error::{Full, NoMemory};
pub use into_iter::IntoIter;
pub use magazine::Magazine;
pub use parcel::BufParcel;
pub use parcels::Parcels;
pub use portion::Portion;
pub use room::Room;
pub use stack::Stack;
pub use walk::{Tag, Walk};
