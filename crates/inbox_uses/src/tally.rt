//! Marks on buffers, by which a receiver tells in which order batches come.
ghost use Rattle.std.specs.Prelude.{◌≡◌, ◌≢◌, ◌<◌, ◌≤◌, ◌+◌, ◌↔◌, ℕ, All, IfOk, IfSome, IsTrue, true, false};
ghost use Rattle.std.specs.Prelude.{length, replicate, slice_index_or};
ghost use Rattle.slot_chain.specs.Counts.{capped};
ghost use Rattle.inbox_uses.specs.Marked.{HasMark, front_number};

use digit_route::Batch;
use slot_chain::Buf;
use std::alloc::{AllocError, Global};

/// Writes a number to the first two bytes of a buffer.
pub fn mark(buf: &mut Buf<'_>, number: u16)
    ensures same { buf.new ≡ record buf.old { bytes = record buf.old.bytes { now = buf.new.bytes.now } } }
    ensures number { 2 ≤ length buf.old.bytes.now → front_number buf.new.bytes.now ≡ number }
{
    let [low, high] = number.to_le_bytes();
    let bytes = buf.bytes_mut();
    if bytes.len() >= 2 {
        bytes[0] = low;
        bytes[1] = high;
    }
}

/// The number in the first two bytes of the last buffer of a batch.
pub fn mark_of(batch: Batch<'_>) -> Option<u16>
    ensures { IfSome result (λ n. HasMark n batch.entry.items) }
{
    let mut magazine = batch.into_magazine();
    let buf = magazine.pop()?;
    let bytes = buf.bytes();
    if bytes.len() >= 2 {
        return Some(u16::from_le_bytes([bytes[0], bytes[1]]));
    }
    None
}

/// What a receiver took: how many batches of each sender, and whether each came in its turn.
#[derive(Drop)]
pub struct Tally {
    pub taken: Vec<u64>,
    pub in_order: bool,
}

impl Tally {
    /// Nothing was taken of so many senders.
    pub fn new(alloc: Global, senders: u16) -> Result<Tally, AllocError>
        ensures { IfOk result (λ t. (t.taken.items ≡ replicate senders 0) × (t.in_order ≡ true)) }
    {
        Ok(Tally {
            taken: Vec::from_elem(alloc, 0, senders as usize)?,
            in_order: true,
        })
    }

    /// One batch more. It comes in its turn where its mark is how many came of its sender before.
    pub fn add(&mut self, batch: Batch<'_>)
        ensures senders { length self.new.taken.items ≡ length self.old.taken.items }
        ensures counted { batch.entry.sender < length self.old.taken.items
            → slice_index_or self.new.taken.items batch.entry.sender 0
            ≡ capped (slice_index_or self.old.taken.items batch.entry.sender 0 + 1) }
        ensures others { (k : ℕ) → k ≢ batch.entry.sender
            → slice_index_or self.new.taken.items k 0 ≡ slice_index_or self.old.taken.items k 0 }
        ensures late { self.old.in_order ≡ false → self.new.in_order ≡ false }
        ensures in_turn { IsTrue self.new.in_order
            → HasMark (slice_index_or self.old.taken.items batch.entry.sender 0) batch.entry.items }
        ensures stranger { length self.old.taken.items ≤ batch.entry.sender → self.new.in_order ≡ false }
    {
        let sender = batch.sender() as usize;
        let number = mark_of(batch);
        if sender >= self.taken.len() {
            self.in_order = false;
            return;
        }
        let before = self.taken[sender];
        match number {
            Some(number) => {
                if number as u64 != before {
                    self.in_order = false;
                }
            }
            None => self.in_order = false,
        }
        self.taken[sender] = before.saturating_add(1);
    }

    /// Whether so many came of each sender, each in its turn.
    pub fn has_all(&self, count: u64) -> bool
        ensures { IsTrue result ↔ (IsTrue self.now.in_order × All (λ n. n ≡ count) self.now.taken.items) }
    {
        self.in_order && self.taken.iter().all(|taken| *taken == count)
    }
}
