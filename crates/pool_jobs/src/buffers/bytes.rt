//! What a task does with a buffer.
ghost use Rattle.std.specs.Prelude.{◌≡◌, ℕ, ◌+◌, ◌≤◌, ◌<◌, ◌↔◌, ◌++◌, List, min, length, take, drop, replicate};
ghost use Rattle.std.specs.Prelude.{Some, IsTrue, MatchResult};
ghost use Rattle.std.specs.Fn.{FnOnceReturnsAtMut};
ghost use Rattle.std.specs.Io.KnownBytes.{ReadConsumes};
ghost use Rattle.slot_chain.specs.Filling.{overwritten};

use slot_chain::Full;
use std::io::{self, Read, Write};

/// A buffer, which its user fills from the front. It is a writer as well: `write!(buffer, ..)` appends.
/// Where there is too little room the `write!` fails, and what fitted is filled.
///
/// How much is filled stays with the buffer wherever it goes. A new buffer has nothing filled. `write!`
/// wants `use std::io::Write`.
pub trait Bytes: Drop + Write {
    ghost use Rattle.std.specs.Prelude.{ℕ, List};

    /// How many bytes it has.
    ghost size: { Self → ℕ };

    /// How many of them are filled, from the front.
    ghost filled: { Self → ℕ };

    /// All its bytes.
    ghost held: { Self → List ℕ };

    /// How many bytes are filled.
    fn len(&self) -> usize
        ensures value { result ≡ filled self.now }
        ensures most { result ≤ size self.now };

    /// Whether nothing is filled.
    fn is_empty(&self) -> bool
        ensures { IsTrue result ↔ (filled self.now ≡ 0) };

    /// How many bytes it has: the size of its class, which is never 0.
    fn capacity(&self) -> usize
        ensures { result ≡ size self.now };

    /// What is filled.
    fn data(&self) -> &[u8]
        ensures value { result.now ≡ take (filled self.now) (held self.now) }
        ensures written { Self.contents self.now ≡ Some result.now };

    /// All its bytes. Nothing is cleared when a buffer is lent: behind what is filled stand bytes of earlier
    /// users.
    fn bytes(&self) -> &[u8]
        ensures value { result.now ≡ held self.now }
        ensures size { length result.now ≡ size self.now };

    /// Says how many bytes count as filled, at most the capacity. No byte is written.
    fn set_len(&mut self, len: usize)
        requires { len ≤ size self.old }
        ensures filled { filled self.new ≡ len }
        ensures held { held self.new ≡ held self.old }
        ensures size { size self.new ≡ size self.old };

    /// Nothing counts as filled any more.
    fn clear(&mut self)
        ensures filled { filled self.new ≡ 0 }
        ensures held { held self.new ≡ held self.old }
        ensures size { size self.new ≡ size self.old };

    /// At most `len` bytes count as filled.
    fn truncate(&mut self, len: usize)
        ensures filled { filled self.new ≡ min len (filled self.old) }
        ensures held { held self.new ≡ held self.old }
        ensures size { size self.new ≡ size self.old };

    /// Writes `byte` into each byte, which may be more than were asked for, and all are filled.
    fn fill(&mut self, byte: u8)
        ensures filled { filled self.new ≡ size self.old }
        ensures held { held self.new ≡ replicate (size self.old) byte }
        ensures size { size self.new ≡ size self.old };

    /// Appends these bytes to what is filled, or changes nothing where there is no room for all of them.
    fn extend_from_slice(&mut self, bytes: &[u8]) -> Result<(), Full>
        ensures filled { MatchResult result
            (λ _. filled self.new ≡ filled self.old + length bytes.now)
            (λ _. (size self.old < filled self.old + length bytes.now) × (filled self.new ≡ filled self.old)) }
        ensures held { MatchResult result
            (λ _. held self.new ≡ overwritten (held self.old) (filled self.old) bytes.now)
            (λ _. held self.new ≡ held self.old) }
        ensures size { size self.new ≡ size self.old };

    /// Writes these bytes from place `at` on. How much is filled stays as it is.
    fn copy_in(&mut self, at: usize, bytes: &[u8])
        requires { at + length bytes.now ≤ size self.old }
        ensures filled { filled self.new ≡ filled self.old }
        ensures held { held self.new ≡ overwritten (held self.old) at bytes.now }
        ensures size { size self.new ≡ size self.old };

    /// Lends all bytes to a closure, which may write them. How much is filled stays as it is.
    fn edit<T, F: FnOnce(&mut [u8]) -> T>(&mut self, edit: F) -> T
        requires { F.IsAlwaysCallable edit }
        ensures filled { filled self.new ≡ filled self.old }
        ensures held { FnOnceReturnsAtMut F.FnOnce edit (held self.old) result (held self.new) }
        ensures size { size self.new ≡ size self.old };

    /// Reads once, into the bytes behind those that are filled, and says how many bytes came: these are
    /// filled then. It reads nothing where the buffer is full. After an error as much is filled as
    /// before, and the bytes behind it may be others.
    fn read_from<I: Read>(&mut self, reader: &mut I) -> io::Result<usize>
        ensures filled { MatchResult result
            (λ n. filled self.new ≡ filled self.old + n) (λ _. filled self.new ≡ filled self.old) }
        ensures kept { take (filled self.old) (held self.new) ≡ take (filled self.old) (held self.old) }
        ensures bytes { ReadConsumes (I.remaining reader.old) (I.remaining reader.new) result
            (drop (filled self.old) (held self.new)) }
        ensures size { size self.new ≡ size self.old };
}
