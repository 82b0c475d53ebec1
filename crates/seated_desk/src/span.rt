//! Where the bytes of a buffer lie.
ghost use Rattle.std.specs.Prelude.{◌≡◌};
ghost use Rattle.region_cut.specs.Classes.{size_of};

use crate::start::start_of;
use slot_chain::Buf;
use std::ptr;

/// Where the bytes of one buffer lie and how many it has, which a program in C reads.
#[repr(C)]
#[derive(Drop)]
pub struct Span {
    pub(crate) at: *const u8,
    pub(crate) len: usize,
}

impl Span {
    /// Nowhere: a null pointer and no byte.
    pub fn new() -> Span
        ensures { result.len ≡ 0 }
    {
        Span {
            at: ptr::null(),
            len: 0,
        }
    }

    /// The bytes of this buffer.
    pub(crate) fn of(buf: &Buf<'_>) -> Span
        ensures { result.len ≡ size_of buf.now.class }
    {
        let bytes = buf.bytes();
        Span {
            at: start_of(bytes),
            len: bytes.len(),
        }
    }
}
