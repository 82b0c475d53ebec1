//! What a desk's worker does with its inbox.
ghost use Rattle.std.specs.Prelude.{◌≡◌, ◌<◌, [], ◌∷◌, ◌++◌, All, MatchOption};
ghost use Rattle.slot_chain.specs.Buffer.{Buffer};
ghost use Rattle.digit_route.specs.Digits.{count};
ghost use Rattle.digit_route.specs.Route.{IsCached};
ghost use Rattle.inbox_uses.specs.Handled.{TakesAndHandles, IsPlaceOf};

use batch_inbox::{Mail, Mailbox, Receiver};
use digit_route::Batch;
use pool_desk::{Counts, Desk};
use std::sync::Wait;

/// A desk takes the next batch of its inbox, and handles it: its own buffers come home, and it
/// caches the others. Whatever the senders do, each buffer in its cache was then passed on less
/// often than a number has digits.
pub fn take_and_handle<'r, M: Mail<'r>, R: Wait>(
    rt: &R,
    inbox: &M,
    seat: &mut M::TakeSeat,
    desk: &mut Desk<'r>,
) -> Option<Counts>
    requires seat { M.TakeSeat.inbox seat.old ≡ M.id inbox.now }
    requires place { IsPlaceOf desk.old (M.id inbox.now).place }
    ensures seat { M.TakeSeat.inbox seat.new ≡ M.TakeSeat.inbox seat.old }
    ensures handled { MatchOption result
        ((M.TakeSeat.taken seat.new ≡ M.TakeSeat.taken seat.old) × (desk.new ≡ desk.old))
        (λ _. TakesAndHandles desk.old (M.TakeSeat.taken seat.old) (M.TakeSeat.taken seat.new) desk.new) }
    ensures cached { All (IsCached desk.new.digits desk.new.number) desk.new.cached }
    ensures few { All (λ (b : Buffer). b.forwards < count desk.new.digits) desk.new.cached }
{
    let _number = desk.number();
    let _digits = desk.digits().count();
    let batch = inbox.take(rt, seat)?;
    let _sender = batch.sender();
    Some(desk.handle(batch))
}
