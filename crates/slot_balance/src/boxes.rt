//! The inboxes of a pool, with all their seats.
ghost use Rattle.std.specs.Prelude.{◌≡◌, ◌≤◌, length, map, IfOk};
ghost use Rattle.batch_inbox.specs.Limits.{sender_limit};
ghost use Rattle.slot_balance.specs.Seats.{taking_of};
ghost use Rattle.slot_balance.specs.Opened.{AreOpened};

use crate::row::Row;
use batch_inbox::{Mailbox, NewMail, Receiver, Sender};
use digit_route::Digits;
use slot_chain::NoMemory;
use std::alloc::Global;

/// Inboxes, the take seat of each, and the send seats at each.
#[derive(Drop)]
pub struct Boxes<M: Mailbox, T: Receiver, S: Sender> {
    pub inboxes: Vec<M>,
    pub takes: Vec<T>,
    pub columns: Vec<Row<S>>,
}

/// Opens an inbox for each desk, at which each desk has a seat.
pub fn open_boxes<T: Receiver, S: Sender, M: NewMail<T, S>>(
    alloc: Global,
    digits: Digits,
    desks: u16,
) -> Result<Boxes<M, T, S>, NoMemory>
    requires desks { (1 ≤ desks) × (desks ≤ sender_limit) }
    ensures opened { IfOk result (λ b. AreOpened digits desks (map M.id b.inboxes.items)
        (map (taking_of T.inbox T.senders T.taken) b.takes.items) b.columns.items) }
    ensures count { IfOk result (λ b. (length b.inboxes.items ≡ desks)
        × (length b.takes.items ≡ desks) × (length b.columns.items ≡ desks)) }
{
    let mut inboxes = Vec::new(alloc);
    let mut takes = Vec::new(alloc);
    let mut columns = Vec::new(alloc);
    for address in 0..desks {
        let (inbox, take, seats) = M::new_mail(alloc, address, digits, desks)?;
        inboxes.push(inbox)?;
        takes.push(take)?;
        columns.push(Row::new(seats))?;
    }
    Ok(Boxes {
        inboxes,
        takes,
        columns,
    })
}
