//! A list that contracts alone see, and how long it is.
ghost use Rattle.std.specs.Prelude.{◌≡◌, ◌%◌, ◌^◌, [], ◌∷◌, ◌++◌, length};

use crate::notes::Notes;
use std::marker::Model;

/// A list that contracts alone see. A program sees how many items were put in, modulo 2^64: that is all
/// that it takes, eight bytes.
#[derive(Drop)]
pub struct CountedNotes<T> {
    notes: Notes<T>,
    count: u64,
}

impl<T> Model for CountedNotes<T> {
    ghost use Rattle.std.specs.Prelude.{◌≡◌, ◌%◌, ◌^◌, List, length};

    ghost Value = { List T };

    ghost view = { λ n. n.notes.items };

    ghost invariant = { λ n. n.count ≡ length n.notes.items % 2 ^ 64 };
}

impl<T> CountedNotes<T> {
    /// The empty list.
    pub fn new() -> CountedNotes<T>
        ensures { result ≡ [] }
    {
        CountedNotes {
            notes: Notes::new(),
            count: 0,
        }
    }

    /// How many items there are, modulo 2^64.
    pub fn count(&self) -> u64
        ensures { result ≡ length self.now % 2 ^ 64 }
    {
        self.count
    }

    /// The list with one value more, which stays where it is.
    #[inline(always)]
    pub fn and(&self, value: &T) -> CountedNotes<T>
        ensures { result ≡ self.now ++ value.now ∷ [] }
    {
        CountedNotes {
            notes: self.notes.and(value),
            count: self.count.wrapping_add(1),
        }
    }

    /// The list with these values more, which stay where they are.
    pub fn and_all(&self, values: &[T]) -> CountedNotes<T>
        ensures { result ≡ self.now ++ values.now }
    {
        CountedNotes {
            notes: self.notes.and_all(values),
            count: self.count.wrapping_add(values.len() as u64),
        }
    }

    /// This list, and then the other.
    pub fn with(&self, other: &CountedNotes<T>) -> CountedNotes<T>
        ensures { result ≡ self.now ++ other.now }
    {
        CountedNotes {
            notes: self.notes.with(&other.notes),
            count: self.count.wrapping_add(other.count),
        }
    }
}
