//! Seats are taken out of the list of all seats, from the last on, and put back in turn.
ghost use Rattle.std.specs.Prelude.{◌≡◌, ◌+◌, length, MatchOption, OnOk};
ghost use Rattle.batch_inbox.specs.States.{AreSeatsOf};

use batch_inbox::{Inbox, SendSeat};
use slot_chain::NoMemory;

/// The seat of the last sender, if one is left.
pub fn take_last_seat<'r>(inbox: &Inbox<'r>, seats: &mut Vec<SendSeat<'r>>) -> Option<SendSeat<'r>>
    requires { AreSeatsOf inbox.now seats.old.items }
    ensures others { AreSeatsOf inbox.now seats.new.items }
    ensures seat { MatchOption result
        (length seats.old.items ≡ 0)
        (λ s. (s.inbox ≡ inbox.now) × (s.sender ≡ length seats.new.items)
        × (length seats.old.items ≡ length seats.new.items + 1)) }
{
    let _inbox = inbox;
    seats.pop()
}

/// Puts back the seat of the next sender.
pub fn put_seat<'r>(
    inbox: &Inbox<'r>,
    seats: &mut Vec<SendSeat<'r>>,
    seat: SendSeat<'r>,
) -> Result<(), NoMemory>
    requires seats { AreSeatsOf inbox.now seats.old.items }
    requires seat { (seat.inbox ≡ inbox.now) × (seat.sender ≡ length seats.old.items) }
    ensures { OnOk result
        (AreSeatsOf inbox.now seats.new.items × (length seats.new.items ≡ length seats.old.items + 1)) }
{
    let _inbox = inbox;
    seats.push(seat)?;
    Ok(())
}
