//! A layer of a packet, of which some bytes were captured.
ghost use Rattle.std.specs.Prelude.{◌≡◌, ◌+◌, ◌<◌, ◌≤◌, ◌↔◌, length, slice_index, IfErr, IsOk};

use thiserror::Error;

/// Why a header can't be read.
#[derive(Clone, Copy, Debug, PartialEq, Eq, Drop, Error)]
pub enum Fault {
    /// The packet has the header's bytes, but they were not captured.
    #[error("cut in a header")]
    Cut,
    /// The packet, or the layer around, ends before the header does.
    #[error("short header")]
    Short,
    /// An IP header has another version than it is to have.
    #[error("wrong version")]
    Version,
    /// The length that a header gives for itself is too small.
    #[error("wrong header length")]
    HeaderLength,
    /// The length that a header gives for what follows is too small, or there is less.
    #[error("wrong length")]
    Length,
}

/// A layer of a packet: its headers, and all that they carry. Of its `size` bytes those in `bytes` were
/// captured, from the front.
#[derive(Clone, Copy, Debug)]
pub struct Layer<'a> {
    /// What was captured.
    pub bytes: &'a [u8],
    /// How many bytes the layer has in the packet.
    pub size: usize,
    ghost captured: { length bytes.now ≤ size },
}

impl<'a> Layer<'a> {
    ghost use Rattle.packet_headers.specs.Layers.{IsBehind, IsFront, IsUnread, word_at};

    /// The layer with these bytes of `size` in all.
    pub fn new(bytes: &'a [u8], size: usize) -> Layer<'a>
        requires { length bytes.now ≤ size }
        ensures bytes { result.bytes.now ≡ bytes.entry.now }
        ensures size { result.size ≡ size }
    {
        Layer { bytes, size }
    }

    /// Whether its first `count` bytes were captured, and if not, whether the packet has them.
    pub fn has(self, count: usize) -> Result<(), Fault>
        ensures captured { IsOk result ↔ (count ≤ length self.entry.bytes.now) }
        ensures why { IfErr result (IsUnread count self.entry) }
    {
        if count <= self.bytes.len() {
            Ok(())
        } else if count <= self.size {
            Err(Fault::Cut)
        } else {
            Err(Fault::Short)
        }
    }

    /// The byte at this place.
    pub fn byte(self, at: usize) -> u8
        requires { at < length self.bytes.now }
        ensures { result ≡ slice_index self.entry.bytes.now at }
    {
        self.bytes[at]
    }

    /// The number of 16 bits, most significant byte first, that begins at this place.
    pub fn word(self, at: usize) -> u16
        requires { at + 1 < length self.bytes.now }
        ensures { result ≡ word_at self.entry.bytes.now at }
    {
        u16::from(self.bytes[at]) * 256 + u16::from(self.bytes[at + 1])
    }

    /// What lies behind its first `count` bytes.
    pub fn behind(self, count: usize) -> Layer<'a>
        requires { count ≤ length self.bytes.now }
        ensures { IsBehind count self.entry result }
    {
        Layer {
            bytes: &self.bytes[count..],
            size: self.size - count,
        }
    }

    /// Its first `size` bytes.
    pub fn front(self, size: usize) -> Layer<'a>
        requires { size ≤ self.size }
        ensures { IsFront size self.entry result }
    {
        Layer {
            bytes: &self.bytes[..size.min(self.bytes.len())],
            size,
        }
    }
}
