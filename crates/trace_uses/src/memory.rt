//! Sources and sinks over memory that work in small pieces and fail where they are told to.
ghost use Rattle.std.specs.Prelude.{◌≡◌, [], false, Some};

use std::alloc::Global;
use trace_audit::{Failed, Sink, Source};

/// Bytes that come in pieces of at most `most`. The read number `fails_at` fails, counted from 1; none where it is 0.
#[derive(Drop)]
pub struct Pieces<'a> {
    bytes: &'a [u8],
    most: usize,
    fails_at: u64,
    pub reads: u64,
    failed: bool,
}

impl<'a> Pieces<'a> {
    pub fn new(bytes: &'a [u8], most: usize, fails_at: u64) -> Pieces<'a>
        ensures bytes { result.bytes ≡ bytes.entry }
        ensures down { ⟦<Pieces<'a> as Source>⟧.has_failed result ≡ false }
    {
        Pieces {
            bytes,
            most,
            fails_at,
            reads: 0,
            failed: false,
        }
    }
}

impl<'a> Source for Pieces<'a> {
    ghost remaining = { λ s. Some s.bytes.now };

    ghost has_failed = { λ s. s.failed };

    fn read(&mut self, piece: &mut [u8]) -> Result<usize, Failed> {
        self.reads = self.reads.saturating_add(1);
        if self.reads == self.fails_at {
            self.failed = true;
            return Err(Failed);
        }
        let bytes: &[u8] = self.bytes;
        let count = piece.len().min(self.most.max(1)).min(bytes.len());
        piece[..count].copy_from_slice(&bytes[..count]);
        self.bytes = &bytes[count..];
        Ok(count)
    }
}

/// How a write fails.
#[derive(Clone, Copy, Debug, PartialEq, Eq)]
pub enum WriteFault {
    Error,
    TakesNothing,
}

/// Bytes that were written, taken in pieces of at most `most`. The write number `fails_at` fails, counted from 1; none
/// where it is 0.
#[derive(Drop)]
pub struct Kept {
    pub bytes: Vec<u8>,
    most: usize,
    fails_at: u64,
    fault: WriteFault,
    pub writes: u64,
    failed: bool,
}

impl Kept {
    pub fn new(alloc: Global, most: usize, fails_at: u64, fault: WriteFault) -> Kept
        ensures nothing { result.bytes.items ≡ [] }
        ensures down { ⟦<Kept as Sink>⟧.has_failed result ≡ false }
    {
        Kept {
            bytes: Vec::new(alloc),
            most,
            fails_at,
            fault,
            writes: 0,
            failed: false,
        }
    }

    /// One that takes all.
    pub fn all(alloc: Global) -> Kept
        ensures nothing { result.bytes.items ≡ [] }
        ensures down { ⟦<Kept as Sink>⟧.has_failed result ≡ false }
    {
        Kept::new(alloc, usize::MAX, 0, WriteFault::Error)
    }
}

impl Sink for Kept {
    ghost contents = { λ s. Some s.bytes.items };

    ghost has_failed = { λ s. s.failed };

    fn write(&mut self, piece: &[u8]) -> Result<usize, Failed> {
        self.writes = self.writes.saturating_add(1);
        if self.writes == self.fails_at {
            if self.fault == WriteFault::Error {
                self.failed = true;
                return Err(Failed);
            }
            if !piece.is_empty() {
                self.failed = true;
            }
            return Ok(0);
        }
        let count = piece.len().min(self.most.max(1));
        match self.bytes.extend_from_slice(&piece[..count]) {
            Ok(()) => Ok(count),
            Err(_) => {
                self.failed = true;
                Err(Failed)
            }
        }
    }
}
