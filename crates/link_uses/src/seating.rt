//! Seats are taken out of the list of all seats, from the last on, and put back in turn.
ghost use Rattle.std.specs.Prelude.{◌≡◌, ◌+◌, None, length, MatchOption, OnOk};
ghost use Rattle.link_inbox.specs.States.{AreSeatsOf, AreAtRest};

use link_inbox::{LinkInbox, SendSeat};
use slot_chain::NoMemory;

/// The seat of the last sender, if one is left.
pub fn take_last_seat<'r>(
    inbox: &LinkInbox<'r>,
    seats: &mut Vec<SendSeat<'r>>,
) -> Option<SendSeat<'r>>
    requires { AreSeatsOf inbox.now seats.old.items × AreAtRest seats.old.items }
    ensures others { AreSeatsOf inbox.now seats.new.items × AreAtRest seats.new.items }
    ensures seat { MatchOption result
        (length seats.old.items ≡ 0)
        (λ s. (s.inbox ≡ inbox.now) × (s.sender ≡ length seats.new.items) × (s.half ≡ None)
        × (length seats.old.items ≡ length seats.new.items + 1)) }
{
    let _inbox = inbox;
    seats.pop()
}

/// Puts back the seat of the next sender.
pub fn put_seat<'r>(
    inbox: &LinkInbox<'r>,
    seats: &mut Vec<SendSeat<'r>>,
    seat: SendSeat<'r>,
) -> Result<(), NoMemory>
    requires seats { AreSeatsOf inbox.now seats.old.items }
    requires seat { (seat.inbox ≡ inbox.now) × (seat.sender ≡ length seats.old.items) }
    ensures { OnOk result
        (AreSeatsOf inbox.now seats.new.items × (length seats.new.items ≡ length seats.old.items + 1)) }
{
    let _inbox = inbox;
    seats.push(seat)?;
    Ok(())
}
