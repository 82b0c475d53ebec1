//! Batches for whoever tries an inbox, of a region's buffers.
ghost use Rattle.std.specs.Prelude.{◌≡◌, ◌≤◌, ◌*◌, All, IfOk, IfSome, length, replicate};
ghost use Rattle.region_cut.specs.Limits.{chunk_limit};
ghost use Rattle.inbox_uses.specs.Supplied.{IsSupplied, supplied_digits};

use crate::mark;
use digit_route::{Batch, Digits};
use pool_desk::{Desk, IdleDesk};
use region_cut::{CHUNK, Part, cut};
use slot_chain::Buf;
use std::alloc::{AllocError, Global};

/// The desk that owns all buffers of a [`Supply`], to which its batches go.
pub const OWNER: u16 = 9;

// The numbers of desks are below this.
const DESKS: u16 = 64;

// The bytes of each buffer.
const SIZE: usize = 16;

/// The region of a [`Supply`] of so many chunks: twice their bytes, for a second try to cut them.
/// It is zeroed. A refused allocation is tried once more.
pub fn region(alloc: Global, chunks: usize) -> Result<Vec<u8>, AllocError>
    ensures { chunks ≤ chunk_limit → IfOk result (λ r. r.items ≡ replicate (chunks * 8192) 0) }
{
    let len = chunks.saturating_mul(2 * CHUNK);
    match Vec::from_elem(alloc, 0, len) {
        Ok(bytes) => Ok(bytes),
        Err(_) => Vec::from_elem(alloc, 0, len),
    }
}

/// A desk that owns the chunks of a region, of whose buffers batches are made.
///
/// Where memory is refused a call tries once more. So a test that uses one holds whichever single
/// allocation is refused.
#[derive(Drop)]
pub struct Supply<'r> {
    owner: Desk<'r>,
    parts: Vec<Part<'r>>,
    ghost numbered: { owner.number ≡ 9 },
    ghost read: { owner.digits ≡ supplied_digits },
}

impl<'r> Supply<'r> {
    /// Over the first half of a region, or the second where memory is refused at the first.
    /// `None` where it is refused again, or a half has more than 1,024 chunks.
    pub fn new(alloc: Global, region: &'r mut [u8]) -> Option<Supply<'r>> {
        let digits = Digits::new(2)?;
        let half = region.len() / 2;
        let (first, second) = region.split_at_mut(half);
        let parts = match cut(alloc, first) {
            Ok(parts) => parts,
            Err(_) => cut(alloc, second).ok()?,
        };
        Some(Supply {
            owner: IdleDesk::new(OWNER, digits, 0).adopt(0),
            parts,
        })
    }

    /// How the numbers of owners are read in its batches.
    pub fn digits(&self) -> Digits
        ensures { result ≡ supplied_digits }
    {
        self.owner.digits()
    }

    // A buffer of the owner, with this mark.
    fn lend(&mut self, alloc: Global, number: u16) -> Option<Buf<'r>>
        ensures { IfSome result (λ b. b.owner ≡ 9) }
    {
        let class = self.owner.digits().profile().class_for(SIZE)?;
        if !self.owner.has_home(class) {
            let part = self.parts.pop()?;
            let _ = self.owner.claim(part, class);
        }
        let mut buf = match self.owner.alloc(alloc, SIZE) {
            Ok(buf) => buf,
            Err(_) => self.owner.alloc(alloc, SIZE).ok()?,
        };
        mark(&mut buf, number);
        Some(buf)
    }

    // The desk of a sender, if there may be one of this number.
    fn desk_of(&self, sender: u16) -> Option<Desk<'r>>
        ensures { IfSome result (λ d. (d.number ≡ sender) × (d.digits ≡ supplied_digits)) }
    {
        if sender >= DESKS {
            return None;
        }
        Some(IdleDesk::new(sender, self.digits(), 0).adopt(0))
    }

    // The desk frees so many buffers with this mark, and has them in one batch.
    fn sent_by(
        &mut self,
        alloc: Global,
        desk: &mut Desk<'r>,
        number: u16,
        len: u64,
    ) -> Option<Batch<'r>>
        requires { desk.old.digits ≡ supplied_digits }
        ensures desk { (desk.new.number ≡ desk.old.number) × (desk.new.digits ≡ desk.old.digits) }
        ensures batch { IfSome result (IsSupplied desk.old.number) }
    {
        for _ in 0..len {
            let buf = self.lend(alloc, number)?;
            let _ = desk.free(buf);
        }
        desk.batch_for(OWNER).ok()
    }

    /// A batch of so many buffers that the desk `sender` freed, each with this mark. `None` where
    /// the slots or the memory are at an end, for an empty batch, and where no other desk has this
    /// number.
    pub fn long_batch(
        &mut self,
        alloc: Global,
        sender: u16,
        number: u16,
        len: u64,
    ) -> Option<Batch<'r>>
        ensures { IfSome result (IsSupplied sender) }
    {
        let mut desk = self.desk_of(sender)?;
        self.sent_by(alloc, &mut desk, number, len)
    }

    /// A batch of one buffer, as [`Supply::long_batch`] makes it.
    pub fn batch(&mut self, alloc: Global, sender: u16, number: u16) -> Option<Batch<'r>>
        ensures { IfSome result (IsSupplied sender) }
    {
        self.long_batch(alloc, sender, number, 1)
    }

    /// So many of them, with the marks from 0 on.
    pub fn batches(&mut self, alloc: Global, sender: u16, count: u16) -> Option<Vec<Batch<'r>>>
        ensures length { IfSome result (λ r. length r.items ≡ count) }
        ensures each { IfSome result (λ r. All (IsSupplied sender) r.items) }
    {
        let mut desk = self.desk_of(sender)?;
        let mut batches = match Vec::with_capacity(alloc, count as usize) {
            Ok(batches) => batches,
            Err(_) => Vec::with_capacity(alloc, count as usize).ok()?,
        };
        for number in 0..count {
            batches.push_reserved(self.sent_by(alloc, &mut desk, number, 1)?);
        }
        Some(batches)
    }
}
