//! How a fabric is opened: each desk gets its seats, and a place on the shelf.
ghost use Rattle.std.specs.Prelude.{◌≡◌, ℕ, ◌+◌, ◌<◌, ◌≤◌, ◌^◌, [], length, map, IfOk};
ghost use Rattle.digit_route.specs.Limits.{largest_limit};
ghost use Rattle.pool_fabric.specs.Ledgers.{whole};
ghost use Rattle.pool_fabric.specs.Names.{box_at};
ghost use Rattle.pool_fabric.specs.Pages.{new_page};
ghost use Rattle.pool_fabric.specs.Opened.{AreColumns, AreNewTakes, most_desks};
ghost use Rattle.pool_fabric.specs.Gathered.{taking_of};
ghost use Rattle.pool_fabric.specs.Seats.{seat_of, AreSeatsBy, NoneSent};

use crate::fabric::Fabric;
use crate::ledger::{Ledger, Page};
use crate::named::Named;
use crate::naming::Naming;
use crate::opening::Opening;
use crate::shelf::Shelf;
use crate::station::Station;
use crate::store::Store;
use batch_inbox::{Mailbox, Receiver, Sender};
use digit_route::Digits;
use pool_desk::IdleDesk;
use slot_balance::{Boxes, Parted, Row, part_last};
use slot_chain::NoMemory;
use std::alloc::{AllocError, Global};
use std::sync::Mutex;

/// The seats of the last sender, and those of the others.
#[derive(Drop)]
pub(crate) struct LastRow<S: Sender, J: Naming> {
    pub(crate) seats: Vec<S>,
    pub(crate) columns: Vec<Row<S>>,
    pub(crate) of: Named<J>,
}

// Takes the last sender's seat out of each column. It isn't inlined: what it needs of the stack is free again where
// a desk is made.
#[inline(never)]
fn last_row<S: Sender, J: Naming>(
    alloc: Global,
    columns: Vec<Row<S>>,
    last: usize,
) -> Result<LastRow<S, J>, AllocError>
    requires { AreColumns J.names (last + 1) columns.items }
    ensures columns { IfOk result (λ c.
        AreColumns J.names last c.columns.items × (length c.columns.items ≡ length columns.items)) }
    ensures seats { IfOk result (λ c.
        AreSeatsBy J.names last (map (seat_of S.inbox S.number S.sent S.resting) c.seats.items)
        × (length c.seats.items ≡ length columns.items)
        × NoneSent (map (seat_of S.inbox S.number S.sent S.resting) c.seats.items)) }
{
    let Parted {
        rows: columns,
        last: seats,
    } = part_last(alloc, columns)?;
    Ok(LastRow {
        seats,
        columns,
        of: Named::new(),
    })
}

// A desk has some kilobytes, and each move of one takes as much of the stack. So a new one is made, and put in
// its station, by two functions of their own.
#[inline(never)]
fn new_desk<'r>(number: u16, digits: Digits, limit: u64) -> IdleDesk<'r>
    requires number { number < 2 ^ digits.bits }
    requires limit { limit ≤ largest_limit }
    ensures { result ≡ record { number = number; digits = digits; limit = limit; home = []; drawn = [] } }
{
    IdleDesk::new(number, digits, limit)
}

// A station with a new desk of this number.
#[inline(never)]
fn new_station<'r, T: Receiver, S: Sender, J: Naming>(
    alloc: Global,
    number: u16,
    take: T,
    seats: Vec<S>,
    page: Page,
    digits: Digits,
    limit: u64,
) -> Result<Station<'r, T, S, J>, NoMemory>
    requires number { number < 2 ^ digits.bits }
    requires limit { limit ≤ largest_limit }
    requires profile { (digits ≡ J.names.digits) × (limit ≡ J.names.limit) }
    requires take { (T.inbox take ≡ box_at J.names number) × (T.senders take ≡ J.names.count) × (T.taken take ≡ []) }
    requires seats { AreSeatsBy J.names number (map (seat_of S.inbox S.number S.sent S.resting) seats.items)
        × (length seats.items ≡ J.names.count)
        × NoneSent (map (seat_of S.inbox S.number S.sent S.resting) seats.items) }
    requires page { page ≡ new_page J.names.ledger J.names.loans 1 }
{
    let desk = new_desk(number, digits, limit);
    Station::new(alloc, desk, take, seats, page)
}

// Puts a new desk for each take seat on a shelf, with its seats.
fn shelved<'r, T: Receiver, S: Sender, J: Naming>(
    alloc: Global,
    takes: Vec<T>,
    columns: Vec<Row<S>>,
    ledger: &Ledger,
    book: &mut Page,
    digits: Digits,
    limit: u64,
) -> Result<Shelf<'r, T, S, J>, NoMemory>
    requires names { (J.names.digits ≡ digits) × (J.names.limit ≡ limit) × (J.names.ledger ≡ ledger.now)
        × (length takes.items ≡ J.names.count) }
    requires count { (J.names.count ≤ most_desks) × (J.names.count ≤ 2 ^ digits.bits) }
    requires limit { limit ≤ largest_limit }
    requires takes { AreNewTakes J.names (map (taking_of T.inbox T.senders T.taken) takes.items) }
    requires columns { AreColumns J.names J.names.count columns.items × (length columns.items ≡ J.names.count) }
    requires book { book.old ≡ new_page ledger.now J.names.loans whole }
    ensures book { IfOk result (λ s. (book.new ≡ new_page ledger.now J.names.loans book.new.parts)
        × (book.new.parts + J.names.count ≡ whole)) }
    ensures shelf { IfOk result (λ s. length s ≡ J.names.count) }
{
    let mut shelf = Shelf::new(alloc)?;
    let mut takes = takes;
    let mut columns = columns;
    while let Some(take) = takes.pop() {
        let number = takes.len();
        let LastRow {
            seats,
            columns: others,
            of: _,
        } = last_row::<S, J>(alloc, columns, number)?;
        columns = others;
        let page = ledger.split(book);
        let station = new_station(alloc, number as u16, take, seats, page, digits, limit)?;
        shelf.push(station);
    }
    Ok(shelf)
}

impl<'r, M: Mailbox, T: Receiver, S: Sender, J: Naming> Fabric<'r, M, T, S, J> {
    /// The fabric that is made of these, with a new desk for each inbox on the shelf, and a full
    /// stock. `J` is to have the names of the opening, and nothing else is owed.
    ///
    /// Where memory is refused, all is dropped.
    #[inline(never)]
    pub fn open(
        alloc: Global,
        opening: Opening<'r, M, T, S>,
    ) -> Result<Fabric<'r, M, T, S, J>, NoMemory>
        requires { J.names ≡ opening }
    {
        let Opening {
            boxes,
            ledger,
            book,
            stock,
            digits,
            limit,
        } = opening;
        let Boxes {
            inboxes,
            takes,
            columns,
        } = boxes;
        let mut book = book;
        let shelf = shelved::<T, S, J>(alloc, takes, columns, &ledger, &mut book, digits, limit)?;
        Ok(Fabric {
            inboxes,
            ledger,
            shelf: Mutex::new(shelf),
            stock: Mutex::new(Store::new(stock, book)),
            of: Named::new(),
        })
    }
}
