//! A region of bytes is cut into chunks of 4,096 bytes, and a chunk into the slots of one size
//! class. All of it is safe borrows: a [`Part`] is a chunk, a [`Bump`] a cursor over the slots of a
//! chunk, a [`Piece`] one slot with its bytes, and none of them outlives the borrow of the region.
//!
//! Objects of one size lie side by side in a chunk, and the places never used are handed out from
//! a bump start, as in "snmalloc: A Message Passing Allocator" (Lietar and others, ISMM 2019). The
//! chunk's size and the size classes are this crate's own.
//!
//! Contracts say what the bytes are now, and what they are when the borrow ends. For the second
//! each slice has a ghost name: the names that a [`Bump`] gave, in order, are the slots of its
//! chunk from the front, and the names of the parts, in order, are the chunks of their region
//! (`specs/Joins.antt`, [`laws`]). A caller that wants to know what its region holds afterwards
//! gives back what was cut off it; the module [`endings`] has what that takes, and nobody else needs
//! it.
#![tactic(auto)]

mod class;
pub mod endings;
mod error;
pub mod laws;
mod part;
mod profile;
mod region;
mod slot;

pub use class::{Class, SIZES};
pub use error::CutError;
pub use part::{Bump, Part, Piece};
pub use profile::{Profile, class_for};
pub use region::cut;
pub use slot::Slot;

/// The bytes of a chunk.
pub const CHUNK: usize = 4096;

/// The most chunks that a region may have.
pub const MAX_CHUNKS: usize = 1024;
