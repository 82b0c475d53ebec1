//! How an inbox is opened: it gets its place, and each sender a seat.
ghost use Rattle.std.specs.Prelude.{◌≡◌, [], length, IfOk};
ghost use Rattle.crossbeam_queue.specs.SegTies.{IsSegPassOf};
ghost use Rattle.batch_inbox.specs.States.{inbox_of, AreSeatsOf, AreNew};
ghost use Rattle.batch_inbox.specs.Views.{opener, taker};

use crate::placing::Placing;
use crate::rule::{Line, Pass};
use crate::seats::SendSeat;
use crate::steps::{Opens, Seats};
use digit_route::Digits;
use std::alloc::{AllocError, Global};

// The first pass becomes the receiver's.
pub(crate) fn opened<'r, J: Placing>(
    queue: &Line<'r>,
    pass: &mut Pass<'r>,
    address: u16,
    digits: Digits,
)
    requires place { record { address = address; digits = digits } ≡ J.place }
    requires pass { IsSegPassOf queue.now pass.old × (pass.old.me.view.client ≡ opener) }
    ensures { IsSegPassOf queue.now pass.new
        × (pass.new.me.view.client ≡ taker (record { address = address; digits = digits }) 0 [] []) }
{
    let _place = (address, digits);
    drop(queue.another::<Opens<J>>(pass));
}

// Makes the seats of the senders, from sender 0 on.
pub(crate) fn seated<'r>(
    alloc: Global,
    queue: &Line<'r>,
    pass: &mut Pass<'r>,
    senders: u16,
) -> Result<Vec<SendSeat<'r>>, AllocError>
    requires { IsSegPassOf queue.now pass.old
        × (pass.old.me.view.client ≡ taker pass.old.me.view.client.place 0 [] []) }
    ensures pass { IsSegPassOf queue.now pass.new }
    ensures receiver { IfOk result (λ r.
        pass.new.me.view.client ≡ taker pass.old.me.view.client.place senders [] []) }
    ensures senders { IfOk result (λ r.
        AreSeatsOf (inbox_of queue.now.web pass.old.me.view.client.place) r.items
        × (length r.items ≡ senders) × AreNew r.items) }
{
    let mut seats = Vec::new(alloc);
    for sender in 0..senders {
        let seat = queue.another::<Seats>(pass);
        seats.push(SendSeat { pass: seat, sender })?;
    }
    Ok(seats)
}
