//! Where a program in C keeps one buffer.
ghost use Rattle.std.specs.Prelude.{◌≡◌, None, Some, MatchOption};
ghost use Rattle.seated_desk.specs.Answers.{answer_of};
ghost use Rattle.seated_desk.specs.Handles.{SetsFilled, TellsCapacity, TellsFilled};

use crate::refusal::{Refusal, answer};
use crate::start::start_of;
use slot_chain::Buf;
use std::{mem, ptr};

/// A handle, which holds one buffer or none, and says where the buffer's bytes lie.
///
/// A program in C reads the pointer, and reads and writes the bytes that lie there while the handle holds the
/// buffer. Where the handle holds none, the pointer is null.
#[repr(C)]
#[derive(Drop)]
pub struct BufHandle<'r> {
    pub(crate) at: *const u8,
    // The number of the buffer's pool.
    pub(crate) pool: u64,
    pub(crate) buf: Option<Buf<'r>>,
}

// Its pointer owns nothing, and the buffer goes to other threads.
unsafe impl Send for BufHandle<'_> {}

impl<'r> BufHandle<'r> {
    /// A handle that holds none.
    pub fn new() -> BufHandle<'r>
        ensures { result.buf ≡ None }
    {
        BufHandle {
            at: ptr::null(),
            pool: 0,
            buf: None,
        }
    }

    /// A handle that holds this buffer, of the pool of this number.
    pub(crate) fn of(buf: Buf<'r>, pool: u64) -> BufHandle<'r>
        ensures buf { result.buf ≡ Some buf.entry }
        ensures pool { result.pool ≡ pool }
    {
        let at = start_of(buf.bytes());
        BufHandle {
            at,
            pool,
            buf: Some(buf),
        }
    }

    /// Puts a buffer of the pool of this number in, where there is none.
    #[inline(always)]
    pub(crate) fn put(&mut self, buf: Buf<'r>, pool: u64)
        requires { self.old.buf ≡ None }
        ensures buf { self.new.buf ≡ Some buf.entry }
        ensures pool { self.new.pool ≡ pool }
    {
        self.at = start_of(buf.bytes());
        self.pool = pool;
        // there is none, so nothing is forgotten, and nothing has to be let go
        mem::forget(mem::replace(&mut self.buf, Some(buf)));
    }

    /// Takes the buffer out.
    #[inline(always)]
    pub(crate) fn take(&mut self) -> Option<Buf<'r>>
        ensures { MatchOption result ((self.old.buf ≡ None) × (self.new ≡ self.old))
            (λ b. (self.old.buf ≡ Some b) × (self.new ≡ record self.old { at = self.new.at; buf = None })) }
    {
        let Some(buf) = mem::replace(&mut self.buf, None) else {
            return None;
        };
        self.at = ptr::null();
        Some(buf)
    }

    /// How many bytes the buffer has, which is the size of its class; 0 where the handle holds none.
    pub fn capacity(&mut self) -> u64
        ensures { TellsCapacity result self.old self.new }
    {
        match &self.buf {
            Some(buf) => buf.capacity() as u64,
            None => 0,
        }
    }

    /// How many bytes count as filled, from the front; 0 where the handle holds none.
    pub fn len(&mut self) -> u64
        ensures { TellsFilled result self.old self.new }
    {
        match &self.buf {
            Some(buf) => buf.len() as u64,
            None => 0,
        }
    }

    /// Says how many bytes count as filled. `Full` where the buffer has fewer.
    pub fn set_len(&mut self, len: usize) -> u32
        ensures { SetsFilled len result self.old self.new }
    {
        answer(self.fill_to(len))
    }

    fn fill_to(&mut self, len: usize) -> Result<(), Refusal>
        ensures { SetsFilled len (answer_of result) self.old self.new }
    {
        let Some(buf) = &mut self.buf else {
            return Err(Refusal::Empty);
        };
        if len > buf.capacity() {
            return Err(Refusal::Full);
        }
        buf.set_len(len);
        Ok(())
    }
}
