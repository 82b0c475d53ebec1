//! The bytes that were read, and not yet dealt.
ghost use Rattle.std.specs.Prelude.{◌≤◌, IfSome};

use std::alloc::{AllocError, Global};
use std::io::{self, Read};
use syslog_lines::{Piece, first_piece};

/// How many bytes are read at a time.
const BLOCK_BYTES: usize = 65_536;

/// The longest piece of a line.
pub const MOST_PIECE: usize = 1_004;

/// Bytes that were read.
#[derive(Drop)]
pub struct Block {
    bytes: Vec<u8>,
    start: usize,
    end: usize,
    is_last: bool,
}

impl Block {
    pub fn new(alloc: Global) -> Result<Block, AllocError> {
        Ok(Block {
            bytes: vec![in alloc; 0u8; BLOCK_BYTES]?,
            start: 0,
            end: 0,
            is_last: false,
        })
    }

    /// The next piece, with its bytes, where they are all there.
    pub fn next_piece(&mut self) -> Option<(Piece, &[u8])>
        ensures { IfSome result (λ r. r.0.len ≤ MOST_PIECE) }
    {
        let unread = self.bytes.get(self.start..self.end)?;
        let piece = first_piece(unread, MOST_PIECE, self.is_last)?;
        let from = self.start;
        self.start += piece.bytes();
        Some((piece, self.bytes.get(from..from + piece.len)?))
    }

    /// Whether no more bytes will come.
    pub fn is_last(&self) -> bool {
        self.is_last
    }

    /// No more bytes will come: what there is without a line feed is a line.
    pub fn end(&mut self) {
        self.is_last = true;
    }

    /// Begins another input.
    pub fn begin(&mut self) {
        self.end = 0;
        self.start = 0;
        self.is_last = false;
    }

    /// Reads once.
    pub fn read_from<I: Read>(&mut self, input: &mut I) -> io::Result<()> {
        self.make_room();
        let Some((_, free)) = self.bytes.split_at_mut_checked(self.end) else {
            return Ok(());
        };
        let count = input.read(free)?;
        self.is_last = count == 0;
        self.end = self.end.saturating_add(count);
        Ok(())
    }

    // Makes room behind what is left, where there is none.
    fn make_room(&mut self) {
        if self.start == self.end {
            self.start = 0;
            self.end = 0;
        }
        if self.end == self.bytes.len() && moved(&mut self.bytes, self.start) {
            self.end = self.end.saturating_sub(self.start);
            self.start = 0;
        }
    }
}

// Moves the bytes from `start` on to the front, if there is room ahead of them.
fn moved(bytes: &mut [u8], start: usize) -> bool {
    let Some((front, back)) = bytes.split_at_mut_checked(start) else {
        return false;
    };
    match front.split_at_mut_checked(back.len()) {
        Some((front, _)) => {
            front.copy_from_slice(back);
            true
        }
        None => false,
    }
}
