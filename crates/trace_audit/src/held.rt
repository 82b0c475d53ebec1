//! The bytes that were read and belong to no line so far.
ghost use Rattle.std.specs.Prelude.{◌≡◌, ◌≤◌, ◌+◌, ◌↔◌, [], ◌++◌, drop, length, take, IsTrue};
ghost use Rattle.trace_audit.specs.Limits.{held_limit};

use arrayvec::ArrayVec;
use std::marker::Model;

/// How many bytes may be held. A good line has at most 64 before its line feed, so one more tells a line that is too
/// long.
pub(crate) const HELD_LIMIT: usize = 65;

/// The bytes that were read and belong to no line so far. What was taken out stays in front of them until more are
/// added, so a line that is taken moves none of the bytes behind it.
#[derive(Drop)]
pub(crate) struct Held {
    bytes: ArrayVec<u8, HELD_LIMIT>,
    start: usize,
}

impl Model for Held {
    ghost use Rattle.std.specs.Prelude.{◌≤◌, drop, length};
    ghost use Rattle.trace_audit.specs.HeldBytes.{HeldBytes};
    ghost use Rattle.trace_audit.specs.Limits.{held_limit};

    ghost Value = { HeldBytes };

    ghost view = { λ h. record { items = drop h.start h.bytes.items } };

    ghost invariant = { λ h. (h.start ≤ length h.bytes.items) × (length h.bytes.items ≤ held_limit) };
}

impl Held {
    /// Nothing is held.
    pub(crate) fn new() -> Held
        ensures { result.items ≡ [] }
    {
        Held {
            bytes: ArrayVec::new(),
            start: 0,
        }
    }

    /// All that is held.
    pub(crate) fn as_slice(&self) -> &[u8]
        ensures items { result.now ≡ self.now.items }
        ensures fits { length result.now ≤ held_limit }
    {
        &self.bytes.as_slice()[self.start..]
    }

    /// The first bytes, so many.
    pub(crate) fn front(&self, count: usize) -> &[u8]
        requires { count ≤ length self.now.items }
        ensures { result.now ≡ take count self.now.items }
    {
        &self.as_slice()[..count]
    }

    /// How many bytes are held.
    pub(crate) fn len(&self) -> usize
        ensures items { result ≡ length self.now.items }
        ensures fits { result ≤ held_limit }
    {
        self.bytes.len() - self.start
    }

    /// Whether nothing is held.
    pub(crate) fn is_empty(&self) -> bool
        ensures { IsTrue result ↔ (self.now.items ≡ []) }
    {
        self.len() == 0
    }

    /// Whether as much is held as may be.
    pub(crate) fn is_full(&self) -> bool
        ensures { IsTrue result ↔ (held_limit ≤ length self.now.items) }
    {
        self.len() >= HELD_LIMIT
    }

    /// Takes out the first bytes, so many.
    pub(crate) fn pass(&mut self, count: usize)
        requires { count ≤ length self.old.items }
        ensures { self.new.items ≡ drop count self.old.items }
    {
        self.start += count;
    }

    /// Adds the bytes.
    pub(crate) fn add(&mut self, bytes: &[u8])
        requires { length self.old.items + length bytes.now ≤ held_limit }
        ensures { self.new.items ≡ self.old.items ++ bytes.now }
    {
        let mut all = ArrayVec::new();
        let _ = all.try_extend_from_slice(self.as_slice());
        let _ = all.try_extend_from_slice(bytes);
        self.bytes = all;
        self.start = 0;
    }
}
