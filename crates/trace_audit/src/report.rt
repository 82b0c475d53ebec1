//! The lines of a report.

mod answers;
mod audits;
mod closing;
mod text;

pub(crate) use answers::{line_of_bad, set_answer};
pub use audits::write_audit;
pub(crate) use closing::close;
pub(crate) use text::Line;
