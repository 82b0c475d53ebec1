//! How an inbox is ended, by those who know only that it is one.
ghost use Rattle.std.specs.Prelude.{◌≡◌, ℕ, ◌++◌, [], length, Some, slice_get};
ghost use Rattle.batch_inbox.specs.Views.{batches_of};

use batch_inbox::{Mail, Mailbox, Receiver, Remainder, Sender};
use digit_route::Batch;
use std::sync::Wait;

/// Ends an inbox, given all its seats: what each sender sent is what was taken of it, and then what
/// is left.
pub fn end<'r, M: Mail<'r>, R: Wait>(
    rt: &R,
    inbox: M,
    seat: M::TakeSeat,
    seats: Vec<M::SendSeat>,
) -> M::Rest
    requires seat { M.TakeSeat.inbox seat ≡ M.id inbox }
    requires seats { ((k : ℕ) (s : M.SendSeat) → slice_get seats.items k ≡ Some s
        → (M.SendSeat.inbox s ≡ M.id inbox) × (M.SendSeat.number s ≡ k))
        × (length seats.items ≡ M.TakeSeat.senders seat) }
    ensures { (k : ℕ) (s : M.SendSeat) → slice_get seats.items k ≡ Some s
        → M.SendSeat.sent s ≡ batches_of k (M.TakeSeat.taken seat) ++ M.Rest.left result k }
{
    inbox.drain(rt, seat, seats)
}

/// Hands out the next batch of what is left.
pub fn hand_out<'r, M: Mail<'r>, R: Wait>(rt: &R, rest: &mut M::Rest) -> Option<Batch<'r>> {
    M::next_rest(rt, rest)
}
