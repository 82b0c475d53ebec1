//! What a task does with a parcel.
ghost use Rattle.std.specs.Prelude.{◌≡◌, ℕ, List, [], ◌∷◌, ◌++◌, ◌≤◌, ◌<◌, ◌↔◌, length, map, take, slice_set};
ghost use Rattle.std.specs.Prelude.{IsTrue, MatchOption, MatchResult};
ghost use Rattle.pool_jobs.specs.Bursts.{AppendsAt};

use crate::buffers::bytes::Bytes;
use crate::buffers::data::Data;
use slot_chain::Full;

/// A parcel: buffers of one allocator, which are handed over and freed as a whole. What each of them is
/// filled with stays with it.
pub trait Burst<B: Bytes>: Drop {
    ghost use Rattle.std.specs.Prelude.{ℕ, List};

    /// A buffer in a parcel, to be looked at.
    type Item: Data;

    /// What each buffer is filled with, in the order in which they came.
    ghost fillings: { Self → List (List ℕ) };

    /// For how many buffers there is a place.
    ghost places: { Self → ℕ };

    /// How many buffers there are.
    fn len(&self) -> usize
        ensures { result ≡ length (fillings self.now) };

    /// Whether there is no buffer.
    fn is_empty(&self) -> bool
        ensures { IsTrue result ↔ (fillings self.now ≡ []) };

    /// For how many buffers there is a place, those that are there counted too.
    fn places(&self) -> usize
        ensures { result ≡ places self.now };

    /// Whether each place has a buffer, so that [`Burst::push`] takes none.
    fn is_full(&self) -> bool
        ensures { IsTrue result ↔ (places self.now ≤ length (fillings self.now)) };

    /// Puts a buffer to the end. It comes back where it is another allocator's, or where there is no room.
    fn push(&mut self, buffer: B) -> Result<(), B>
        ensures added { MatchResult result
            (λ _. fillings self.new ≡ fillings self.old ++ take (B.filled buffer) (B.held buffer) ∷ [])
            (λ b. (b ≡ buffer) × (fillings self.new ≡ fillings self.old)) }
        ensures places { places self.new ≡ places self.old };

    /// Takes out the buffer that came last.
    fn pop(&mut self) -> Option<B>
        ensures last { MatchOption result
            ((fillings self.old ≡ []) × (fillings self.new ≡ []))
            (λ b. fillings self.old ≡ fillings self.new ++ take (B.filled b) (B.held b) ∷ []) }
        ensures places { places self.new ≡ places self.old };

    /// The buffers, in the order in which they came, to be looked at.
    fn buffers(&self) -> &[Self::Item]
        ensures { map Self.Item.filling result.now ≡ fillings self.now };

    /// Lends all bytes of the buffer at place `at` to a closure, which may write them. How much of it is
    /// filled stays as it is; [`Burst::set_len_at`] says it.
    fn edit_at<T, F: FnOnce(&mut [u8]) -> T>(&mut self, at: usize, edit: F) -> T
        requires place { at < length (fillings self.old) }
        requires callable { F.IsAlwaysCallable edit }
        ensures others { (bytes : List ℕ) × (fillings self.new ≡ slice_set (fillings self.old) at bytes) }
        ensures places { places self.new ≡ places self.old };

    /// Says how many bytes of the buffer at place `at` count as filled, from the front. No byte is written.
    /// [`Full`]: the buffer has fewer bytes, and nothing is changed.
    fn set_len_at(&mut self, at: usize, len: usize) -> Result<(), Full>
        requires place { at < length (fillings self.old) }
        ensures filled { MatchResult result
            (λ _. (bytes : List ℕ) × (length bytes ≡ len) × (fillings self.new ≡ slice_set (fillings self.old) at bytes))
            (λ _. fillings self.new ≡ fillings self.old) }
        ensures places { places self.new ≡ places self.old };

    /// Appends these bytes to those that are filled of the buffer at place `at`. [`Full`]: there is no room
    /// for all of them, or no buffer, and nothing is changed.
    fn extend_at(&mut self, at: usize, bytes: &[u8]) -> Result<(), Full>
        ensures appended { MatchResult result
            (λ _. AppendsAt at bytes.now (fillings self.old) (fillings self.new))
            (λ _. fillings self.new ≡ fillings self.old) }
        ensures places { places self.new ≡ places self.old };
}
