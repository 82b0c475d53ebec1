//! What an allocator lends: buffers and parcels of them, and the traits by which a task sees both.

pub(crate) mod buffer;
pub(crate) mod burst;
pub(crate) mod bytes;
pub(crate) mod data;
pub(crate) mod parcel;
