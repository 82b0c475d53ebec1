//! A pool's parcel, as a task sees it.
ghost use Rattle.std.specs.Prelude.{map};
ghost use Rattle.slot_chain.specs.Filling.{data_of};

use crate::buffers::burst::Burst;
use pool_fabric::{Buffer, Naming, Parcel};
use slot_chain::{Buf, Full};

impl<'r, J: Naming> Burst<Buffer<'r, J>> for Parcel<'r, J> {
    type Item = Buf<'r>;

    ghost fillings = { λ p. map data_of p.items };

    ghost places = { λ p. p.places };

    #[tactic(auto, using(crate::proofs::Fillings::fillings_length))]
    fn len(&self) -> usize {
        self.len()
    }

    #[tactic(auto, using(crate::proofs::Fillings::fillings_none))]
    fn is_empty(&self) -> bool {
        self.is_empty()
    }

    fn places(&self) -> usize {
        self.places()
    }

    #[tactic(auto, using(crate::proofs::Fillings::fillings_length))]
    fn is_full(&self) -> bool {
        self.is_full()
    }

    #[inline]
    #[tactic(auto, using(crate::proofs::Fillings::fillings_append))]
    fn push(&mut self, buffer: Buffer<'r, J>) -> Result<(), Buffer<'r, J>> {
        self.push(buffer)
    }

    #[tactic(auto, using(crate::proofs::Fillings::fillings_append))]
    fn pop(&mut self) -> Option<Buffer<'r, J>> {
        self.pop()
    }

    fn buffers(&self) -> &[Buf<'r>] {
        self.buffers()
    }

    #[tactic(auto, using(crate::proofs::Fillings::fillings_length))]
    fn edit_at<T, F: FnOnce(&mut [u8]) -> T>(&mut self, at: usize, edit: F) -> T {
        self.edit_at(at, edit)
    }

    fn set_len_at(&mut self, at: usize, len: usize) -> Result<(), Full> {
        let bytes = self.buffers()[at].bytes();
        if bytes.len() < len {
            return Err(Full);
        }
        self.set_len_at(at, len);
        Ok(())
    }

    #[tactic(auto, using(crate::proofs::Fillings::fillings_length))]
    fn extend_at(&mut self, at: usize, bytes: &[u8]) -> Result<(), Full> {
        if at < self.len() {
            self.extend_at(at, bytes)
        } else {
            Err(Full)
        }
    }
}
