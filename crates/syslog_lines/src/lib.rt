//! Lines of logs: cut out of the bytes of a stream, read by RFC 5424 and RFC 3164, and written as JSON.
//!
//! [`first_piece`] finds the next line, or a piece of a long one. [`Mark`] says which line a piece is of, in
//! bytes that go ahead of it. [`Head::read`] takes a line apart, and [`push_object`] writes what it has.
//! No call keeps state, reads a clock or looks at a time zone.
#![tactic(auto)]

mod escape;
mod head;
mod mark;
mod object;
mod piece;
mod priority;
mod rfc3164;
mod rfc5424;
mod shape;

pub use escape::{Coding, push_text};
pub use head::Head;
pub use mark::{MARK_BYTES, Mark};
pub use object::push_object;
pub use piece::{Ending, Piece, first_piece};
pub use priority::{Priority, Severity};
