//! What a buffer is filled with.
ghost use Rattle.std.specs.Prelude.{◌≡◌, ◌+◌, ◌-◌, ◌≤◌, ◌<◌, ◌↔◌, ◌++◌, min, length, take, drop, replicate};
ghost use Rattle.std.specs.Prelude.{Ok, IsTrue, IsOk, IfOk, MatchResult};
ghost use Rattle.std.specs.Fn.{FnOnceReturnsAtMut};
ghost use Rattle.std.specs.Io.{WritesAtMost};
ghost use Rattle.std.specs.Io.KnownBytes.{Keeps, ReadConsumes, WriteAppends};
ghost use Rattle.region_cut.specs.Classes.{size_of};
ghost use Rattle.slot_chain.specs.Buffer.{Buffer};
ghost use Rattle.slot_chain.specs.Filling.{Appends, Extends, data_of, emptied, holding, overwritten};

use crate::buf::Buf;
use crate::error::Full;
use std::io::{self, Read, Write};

impl<'r> Buf<'r> {
    /// How many bytes are filled, from the front.
    #[inline]
    pub fn len(&self) -> usize
        ensures value { result ≡ self.now.filled }
        ensures most { result ≤ size_of self.now.class }
    {
        self.node.filled as usize
    }

    /// Whether nothing is filled.
    #[inline]
    pub fn is_empty(&self) -> bool
        ensures { IsTrue result ↔ (self.now.filled ≡ 0) }
    {
        self.node.filled == 0
    }

    /// How many bytes the slot has: the size of its class, which is never 0.
    #[inline]
    pub fn capacity(&self) -> usize
        ensures { result ≡ size_of self.now.class }
    {
        self.bytes().len()
    }

    /// The bytes that are filled.
    pub fn data(&self) -> &[u8]
        ensures { result.now ≡ data_of self.now }
    {
        &self.bytes()[..self.len()]
    }

    /// Says how many bytes count as filled, from the front. No byte is written.
    #[inline]
    pub fn set_len(&mut self, len: usize)
        requires { len ≤ size_of self.old.class }
        ensures { self.new ≡ record self.old { filled = len } }
    {
        self.node.filled = len as u32;
    }

    /// Nothing counts as filled any more. Where nothing did before, the buffer's box is not written to.
    #[inline]
    pub fn clear(&mut self)
        ensures { self.new ≡ emptied self.old }
    {
        if self.node.filled != 0 {
            self.node.filled = 0;
        }
    }

    /// At most `len` bytes count as filled, those at the front. No byte is written.
    pub fn truncate(&mut self, len: usize)
        ensures { self.new ≡ record self.old { filled = min len self.old.filled } }
    {
        if len < self.len() {
            self.set_len(len);
        }
    }

    /// Writes `byte` into each byte of the slot, which is then filled.
    pub fn fill(&mut self, byte: u8)
        ensures { self.new ≡ holding self.old (replicate (size_of self.old.class) byte) (size_of self.old.class) }
    {
        self.bytes_mut().fill(byte);
        self.set_len(self.capacity());
    }

    /// Appends these bytes to those that are filled. Where there is no room for all of them, none is
    /// written.
    pub fn extend_from_slice(&mut self, bytes: &[u8]) -> Result<(), Full>
        ensures { Extends self.old bytes.now result self.new }
    {
        let start = self.len();
        if self.capacity() - start < bytes.len() {
            return Err(Full);
        }
        self.copy_in(start, bytes);
        self.set_len(start + bytes.len());
        Ok(())
    }

    /// Writes these bytes from place `at` on. How much is filled stays as it is.
    pub fn copy_in(&mut self, at: usize, bytes: &[u8])
        requires { at + length bytes.now ≤ size_of self.old.class }
        ensures { self.new ≡ holding self.old (overwritten self.old.bytes.now at bytes.now) self.old.filled }
    {
        self.bytes_mut()[at..at + bytes.len()].copy_from_slice(bytes);
    }

    /// Lends all bytes of the slot to a closure, which may write them. How much is filled stays as it is;
    /// [`Buf::set_len`] says it.
    pub fn edit<T, F: FnOnce(&mut [u8]) -> T>(&mut self, edit: F) -> T
        requires { F.IsAlwaysCallable edit }
        ensures { (bytes : _) × FnOnceReturnsAtMut F.FnOnce edit self.old.bytes.now result bytes
            × (self.new ≡ holding self.old bytes self.old.filled) }
    {
        edit(self.bytes_mut())
    }

    /// Reads once, into the bytes behind those that are filled, and says how many bytes came: these are
    /// filled then. It reads nothing where the buffer is full. After an error as much is filled as
    /// before, and the bytes behind it may be others.
    pub fn read_from<R: Read>(&mut self, reader: &mut R) -> io::Result<usize>
        ensures same { self.new ≡ holding self.old self.new.bytes.now self.new.filled }
        ensures kept { take self.old.filled self.new.bytes.now ≡ data_of self.old }
        ensures filled { MatchResult result
            (λ n. self.new.filled ≡ self.old.filled + n) (λ _. self.new.filled ≡ self.old.filled) }
        ensures bytes { ReadConsumes (R.remaining reader.old) (R.remaining reader.new) result
            (drop self.old.filled self.new.bytes.now) }
    {
        let start = self.len();
        let count = reader.read(&mut self.bytes_mut()[start..])?;
        self.set_len(start + count);
        Ok(count)
    }
}

/// What is written is appended, as far as there is room. A `write!` that finds too little room is an
/// error; what had room before that is filled then.
impl Write for Buf<'_> {
    ghost use Rattle.std.specs.Prelude.{Some};

    ghost contents = { λ b. Some (data_of b) };

    fn write(&mut self, bytes: &[u8]) -> io::Result<usize>
        ensures bound { WritesAtMost result bytes.now }
        ensures bytes { WriteAppends (Some (data_of self.old)) (Some (data_of self.new)) result bytes.now }
        ensures count { result ≡ Ok (min (length bytes.now) (size_of self.old.class - self.old.filled)) }
        ensures appended { IfOk result (λ n. Appends self.old (take n bytes.now) self.new) }
    {
        let count = bytes.len().min(self.capacity() - self.len());
        let start = self.len();
        self.copy_in(start, &bytes[..count]);
        self.set_len(start + count);
        Ok(count)
    }

    fn flush(&mut self) -> io::Result<()>
        ensures bytes { Keeps (Some (data_of self.old)) (Some (data_of self.new)) }
        ensures ok { IsOk result }
        ensures unchanged { self.new ≡ self.old }
    {
        Ok(())
    }
}
