//! A buffer of a pool.
ghost use Rattle.std.specs.Prelude.{◌≡◌, ◌+◌, ◌-◌, ◌<◌, ◌≤◌, ◌^◌, ◌↔◌, ◌++◌, min, length, take, drop, replicate, [], ◌∷◌};
ghost use Rattle.std.specs.Prelude.{IsTrue, IsOk, IfOk, MatchResult};
ghost use Rattle.std.specs.Fn.{FnOnceReturnsAtMut};
ghost use Rattle.std.specs.Io.{WritesAtMost};
ghost use Rattle.std.specs.Io.KnownBytes.{Keeps, ReadConsumes, WriteAppends};
ghost use Rattle.region_cut.specs.Classes.{size_of};
ghost use Rattle.slot_chain.specs.Filling.{Appends, data_of, emptied, holding, overwritten};

use crate::naming::Naming;
use loan_ledger::Receipt;
use region_cut::{Class, Slot};
use slot_chain::{Buf, Full};
use std::fmt;
use std::io::{self, Read, Write};
use std::marker::{Model, PhantomData};

/// A buffer of the pool that `J` names. Its type keeps that its owner is one of the pool, so each
/// allocator of the pool may free it, and no other; and that it was lent and not freed since.
///
/// It may be dropped: its slot is then lost until the region's borrow ends. The audit finds it missing,
/// and names the least missing slot.
#[must_use]
#[derive(Drop)]
pub struct Buffer<'r, J: Naming> {
    buf: Buf<'r>,
    // It has no bytes.
    receipt: Receipt,
    of: PhantomData<J>,
}

impl<'r, J: Naming> Model for Buffer<'r, J> {
    ghost use Rattle.std.specs.Prelude.{◌≡◌, ◌<◌, ◌^◌, [], ◌∷◌};
    ghost use Rattle.slot_chain.specs.Buffer.{Buffer as Slice};

    ghost Value = { Slice };

    ghost view = { λ b. b.buf };

    ghost invariant = { λ b. (b.buf.owner < 2 ^ J.names.digits.bits)
        × (b.receipt ≡ record { ledger = J.names.loans; slots = b.buf.slot ∷ [] }) };
}

impl<'r, J: Naming> Buffer<'r, J> {
    /// The buffer, as one of the pool, with the receipt that it was lent.
    #[inline(always)]
    pub(crate) fn new(buf: Buf<'r>, receipt: Receipt) -> Buffer<'r, J>
        requires owner { buf.owner < 2 ^ J.names.digits.bits }
        requires receipt { receipt ≡ record { ledger = J.names.loans; slots = buf.slot ∷ [] } }
        ensures { result ≡ buf.entry }
    {
        Buffer {
            buf,
            receipt,
            of: PhantomData,
        }
    }

    /// The buffer and its receipt, to be freed or packed.
    #[inline(always)]
    pub(crate) fn into_parts(self) -> (Buf<'r>, Receipt)
        ensures same { result.0 ≡ self.entry }
        ensures owner { result.0.owner < 2 ^ J.names.digits.bits }
        ensures receipt { result.1 ≡ record { ledger = J.names.loans; slots = self.entry.slot ∷ [] } }
    {
        let Buffer {
            buf,
            receipt,
            of: _,
        } = self;
        (buf, receipt)
    }

    /// Where its bytes lie in the region.
    #[inline]
    pub fn slot(&self) -> Slot
        ensures { result ≡ self.now.slot }
    {
        self.buf.slot()
    }

    /// The number of the allocator that lent it.
    #[inline]
    pub fn owner(&self) -> u16
        ensures value { result ≡ self.now.owner }
        ensures in_range { result < 2 ^ J.names.digits.bits }
    {
        self.buf.owner()
    }

    /// The size class of its chunk.
    pub fn class(&self) -> Class
        ensures { result ≡ self.now.class }
    {
        self.buf.class()
    }

    /// How many bytes are filled, from the front. A new buffer has none filled.
    #[inline]
    pub fn len(&self) -> usize
        ensures value { result ≡ self.now.filled }
        ensures most { result ≤ size_of self.now.class }
    {
        self.buf.len()
    }

    /// Whether nothing is filled.
    #[inline]
    pub fn is_empty(&self) -> bool
        ensures { IsTrue result ↔ (self.now.filled ≡ 0) }
    {
        self.buf.is_empty()
    }

    /// How many bytes it has: the size of its class, which is never 0.
    #[inline]
    pub fn capacity(&self) -> usize
        ensures { result ≡ size_of self.now.class }
    {
        self.buf.capacity()
    }

    /// What is filled.
    pub fn data(&self) -> &[u8]
        ensures { result.now ≡ data_of self.now }
    {
        self.buf.data()
    }

    /// All its bytes. Nothing is cleared when a buffer is allocated.
    pub fn bytes(&self) -> &[u8]
        ensures value { result.now ≡ self.now.bytes.now }
        ensures size { length result.now ≡ size_of self.now.class }
    {
        self.buf.bytes()
    }

    /// Says how many bytes count as filled, from the front. No byte is written.
    pub fn set_len(&mut self, len: usize)
        requires { len ≤ size_of self.old.class }
        ensures { self.new ≡ record self.old { filled = len } }
    {
        self.buf.set_len(len);
    }

    /// Nothing counts as filled any more.
    pub fn clear(&mut self)
        ensures { self.new ≡ emptied self.old }
    {
        self.buf.clear();
    }

    /// At most `len` bytes count as filled, those at the front. No byte is written.
    pub fn truncate(&mut self, len: usize)
        ensures { self.new ≡ record self.old { filled = min len self.old.filled } }
    {
        self.buf.truncate(len);
    }

    /// Writes `byte` into each byte, and all are filled.
    pub fn fill(&mut self, byte: u8)
        ensures { self.new ≡ holding self.old (replicate (size_of self.old.class) byte) (size_of self.old.class) }
    {
        self.buf.fill(byte);
    }

    /// Appends these bytes to what is filled. Where there is no room for all of them, none is written.
    pub fn extend_from_slice(&mut self, bytes: &[u8]) -> Result<(), Full>
        ensures { MatchResult result
            (λ _. Appends self.old bytes.now self.new)
            (λ _. (size_of self.old.class < self.old.filled + length bytes.now) × (self.new ≡ self.old)) }
    {
        self.buf.extend_from_slice(bytes)
    }

    /// Writes these bytes from place `at` on. How much is filled stays as it is.
    pub fn copy_in(&mut self, at: usize, bytes: &[u8])
        requires { at + length bytes.now ≤ size_of self.old.class }
        ensures { self.new ≡ holding self.old (overwritten self.old.bytes.now at bytes.now) self.old.filled }
    {
        self.buf.copy_in(at, bytes);
    }

    /// Lends all bytes to a closure, which may write them. How much is filled stays as it is.
    pub fn edit<T, F: FnOnce(&mut [u8]) -> T>(&mut self, edit: F) -> T
        requires { F.IsAlwaysCallable edit }
        ensures { (bytes : _) × FnOnceReturnsAtMut F.FnOnce edit self.old.bytes.now result bytes
            × (self.new ≡ holding self.old bytes self.old.filled) }
    {
        self.buf.edit(edit)
    }

    /// Reads once, into the bytes behind those that are filled, and says how many bytes came: these are
    /// filled then. It reads nothing where the buffer is full. After an error as much is filled as
    /// before, and the bytes behind it may be others.
    pub fn read_from<I: Read>(&mut self, reader: &mut I) -> io::Result<usize>
        ensures same { self.new ≡ holding self.old self.new.bytes.now self.new.filled }
        ensures kept { take self.old.filled self.new.bytes.now ≡ data_of self.old }
        ensures filled { MatchResult result
            (λ n. self.new.filled ≡ self.old.filled + n) (λ _. self.new.filled ≡ self.old.filled) }
        ensures bytes { ReadConsumes (I.remaining reader.old) (I.remaining reader.new) result
            (drop self.old.filled self.new.bytes.now) }
    {
        self.buf.read_from(reader)
    }
}

/// What is written is appended, as far as there is room. Where a `write!` finds too little room it
/// fails, and what fitted is filled.
impl<J: Naming> Write for Buffer<'_, J> {
    ghost use Rattle.std.specs.Prelude.{Some};

    ghost contents = { λ b. Some (data_of b) };

    fn write(&mut self, bytes: &[u8]) -> io::Result<usize>
        ensures bound { WritesAtMost result bytes.now }
        ensures bytes { WriteAppends (Some (data_of self.old)) (Some (data_of self.new)) result bytes.now }
        ensures count { result ≡ Ok (min (length bytes.now) (size_of self.old.class - self.old.filled)) }
        ensures appended { IfOk result (λ n. Appends self.old (take n bytes.now) self.new) }
    {
        self.buf.write(bytes)
    }

    fn flush(&mut self) -> io::Result<()>
        ensures bytes { Keeps (Some (data_of self.old)) (Some (data_of self.new)) }
        ensures ok { IsOk result }
        ensures unchanged { self.new ≡ self.old }
    {
        Ok(())
    }
}

// The bytes are not printed.
impl<J: Naming> fmt::Debug for Buffer<'_, J> {
    fn fmt<W: fmt::Write>(&self, f: &mut fmt::Formatter<W>) -> fmt::Result {
        write!(f, "Buffer({:?})", self.buf)
    }
}
