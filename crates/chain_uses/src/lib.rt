//! Callers of `region_cut` and `slot_chain` together: what they learn from the contracts.
//!
//! The pool itself calls nothing of this crate.
#![tactic(auto)]

mod crossing;
mod filling;
mod knowing;
mod sending;
mod walking;
mod writing;

pub use crossing::{
    buf_crosses, chain_crosses, magazine_crosses, parcel_crosses, piece_crosses, room_crosses,
};
pub use filling::{fill_part, fill_region};
pub use knowing::mark_first;
pub use sending::turned;
pub use walking::{count_owned, list_slots};
pub use writing::{clear, copy_in, mark, mark_top, stamped};
