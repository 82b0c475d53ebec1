//! Where a freed buffer went.

/// Where a freed buffer went.
#[must_use]
#[derive(Clone, Copy, Debug, PartialEq, Eq)]
pub enum Freed {
    /// To the slots at home: the desk owns it.
    Home,
    /// Into the cache: another desk owns it.
    Cached,
    /// Into the cache, which now has more bytes than the limit and is to be posted.
    Due,
}
