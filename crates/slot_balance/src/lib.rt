//! The balance of a desk, slot by slot: what it has, sent and lent is what it drew, what it took and what was
//! freed to it. So nothing is lost at a desk, and nothing is there twice.
//!
//! The definitions and the lemmas are for crates that give desks their inboxes. [`open_boxes`] opens these, and
//! [`part_last`] deals their seats out. [`CountedNotes`] is how such a crate keeps what was lent and freed:
//! contracts see the list, a program how long it is.
#![tactic(auto)]

mod boxes;
mod counted_notes;
mod notes;
mod row;

pub use boxes::{Boxes, open_boxes};
pub use counted_notes::CountedNotes;
pub use row::{Parted, Row, part_last};
