//! A pool's buffer, as a task sees it.
ghost use Rattle.region_cut.specs.Classes.{size_of};

use crate::buffers::bytes::Bytes;
use pool_fabric::{Buffer, Naming};
use slot_chain::Full;
use std::io::{self, Read};

impl<'r, J: Naming> Bytes for Buffer<'r, J> {
    ghost size = { λ b. size_of b.class };

    ghost filled = { λ b. b.filled };

    ghost held = { λ b. b.bytes.now };

    fn len(&self) -> usize {
        self.len()
    }

    fn is_empty(&self) -> bool {
        self.is_empty()
    }

    fn capacity(&self) -> usize {
        self.capacity()
    }

    fn data(&self) -> &[u8] {
        self.data()
    }

    fn bytes(&self) -> &[u8] {
        self.bytes()
    }

    fn set_len(&mut self, len: usize) {
        self.set_len(len);
    }

    fn clear(&mut self) {
        self.clear();
    }

    fn truncate(&mut self, len: usize) {
        self.truncate(len);
    }

    fn fill(&mut self, byte: u8) {
        self.fill(byte);
    }

    fn extend_from_slice(&mut self, bytes: &[u8]) -> Result<(), Full> {
        self.extend_from_slice(bytes)
    }

    fn copy_in(&mut self, at: usize, bytes: &[u8]) {
        self.copy_in(at, bytes);
    }

    fn edit<T, F: FnOnce(&mut [u8]) -> T>(&mut self, edit: F) -> T {
        self.edit(edit)
    }

    fn read_from<I: Read>(&mut self, reader: &mut I) -> io::Result<usize> {
        self.read_from(reader)
    }
}
