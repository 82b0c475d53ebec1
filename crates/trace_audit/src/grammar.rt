//! The lines of a trace: which bytes spell a header, and which a request.

mod header;
mod request;
mod words;

pub use header::Header;
pub(crate) use header::read_header;
pub(crate) use request::{Verb, read_request};
pub(crate) use words::cut_at;
