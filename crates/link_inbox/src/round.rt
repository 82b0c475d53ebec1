//! The slots of an ended inbox.
ghost use Rattle.std.specs.Prelude.{◌≡◌, ◌+◌, ◌-◌, ◌*◌, ◌/◌, ◌<◌, ◌≤◌, ℕ, Some, true, false, slice_index_or};
ghost use Rattle.std.specs.Mem.Slots.{slots_filled, slots_items, slots_len};
ghost use lib.ListN.{get_elem?};
ghost use mathlib.Core.Option.{some};
ghost use Rattle.batch_inbox.specs.Limits.{sender_limit};
ghost use Rattle.digit_route.specs.States.{BatchState};
ghost use Rattle.link_inbox.specs.Remains.{spot};

use crate::load::Load;
use crate::rule::{NODES, SENDERS};
use atomic_table::Closed;
use std::alloc::Global;

/// The slots that are still to be read, from the reading number `next` on: 16 of each sender.
pub(crate) struct Round<'r> {
    pub(crate) closed: Closed<Load<'r>, Global>,
    pub(crate) turns: [u64; SENDERS],
    pub(crate) senders: u64,
    pub(crate) next: u64,
    ghost sized: { (slots_len closed.slots ≡ senders * 16 + 1) × (senders ≤ sender_limit) × (next ≤ senders * 16) },
    ghost filled: { (k : ℕ) → next ≤ k → k < senders * 16
        → slice_index_or (slots_filled closed.slots) (spot turns k) false ≡ true },
    ghost owned: { (n : ℕ) (b : BatchState) → get_elem? (slots_items closed.slots) n ≡ some (Some b)
        → b.sender ≡ (n - 1) / 16 },
    ghost emptied: { (slice_index_or (slots_filled closed.slots) 0 false ≡ false)
        × ((k : ℕ) → k < next → slice_index_or (slots_filled closed.slots) (spot turns k) false ≡ false) },
}

pub(crate) fn spot_of(turns: &[u64; SENDERS], k: u64) -> usize
    requires { k < sender_limit * 16 }
    ensures { result ≡ spot turns.now k }
{
    let turn = turns[k as usize / 16] % NODES;
    (k / NODES * NODES + 1 + (turn + k % NODES) % NODES) as usize
}

impl<'r> Drop for Round<'r> {
    fn drop(self) {
        let Self {
            mut closed,
            turns,
            senders,
            next,
        } = self;
        let mut at = next;
        while at < senders * NODES {
            drop(closed.take(spot_of(&turns, at)));
            at += 1;
        }
        closed.free();
    }
}
