//! What is left in an inbox.
ghost use Rattle.std.specs.Prelude.{◌≡◌, ℕ, ◌+◌, length, map, IfOk};
ghost use Rattle.region_cut.specs.declared.slot.Slot.{Slot};
ghost use Rattle.slot_balance.specs.Weights.{weigh};
ghost use Rattle.pool_fabric.specs.Accounts.{of_seats, of_batch};
ghost use Rattle.pool_fabric.specs.Seats.{seat_of};
ghost use Rattle.pool_fabric.specs.Gathered.{AreOf};

use batch_inbox::{Mail, Receiver, Sender};
use digit_route::Batch;
use std::alloc::{AllocError, Global};
use std::sync::Wait;

/// Ends an inbox: what was sent to it in all is what was taken and what is left.
pub(crate) fn drained<'r, T: Receiver, S: Sender, M: Mail<'r, TakeSeat = T, SendSeat = S>, R: Wait>(
    rt: &R,
    alloc: Global,
    inbox: M,
    take: T,
    seats: Vec<S>,
) -> Result<Vec<Batch<'r>>, AllocError>
    requires take { T.inbox take ≡ M.id inbox }
    requires seats { AreOf (M.id inbox) (map (seat_of S.inbox S.number S.sent S.resting) seats.items)
        × (length seats.items ≡ T.senders take) }
    ensures { IfOk result (λ v. (h : Slot → ℕ)
        → of_seats h (map (seat_of S.inbox S.number S.sent S.resting) seats.items)
        ≡ weigh (of_batch h) (T.taken take) + weigh (of_batch h) v.items) }
{
    let mut batches = Vec::new(alloc);
    let mut rest = inbox.drain(rt, take, seats);
    for _ in rt.forever() {
        let Some(batch) = M::next_rest(rt, &mut rest) else {
            return Ok(batches);
        };
        batches.push(batch)?;
    }
    unreachable!()
}
