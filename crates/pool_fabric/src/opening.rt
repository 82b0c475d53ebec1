//! All that a fabric is made of.
ghost use Rattle.std.specs.Prelude.{◌≡◌, ◌≤◌, ◌^◌, map, IfOk};
ghost use Rattle.region_cut.specs.Parts.{AreNumbered, number_of};
ghost use Rattle.digit_route.specs.Limits.{largest_limit};
ghost use Rattle.pool_fabric.specs.Opened.{most_desks};

use crate::ledger::{Ledger, Page};
use crate::stock::Stock;
use batch_inbox::{Mailbox, NewMail, Receiver, Sender};
use digit_route::Digits;
use region_cut::Part;
use slot_balance::{Boxes, open_boxes};
use slot_chain::NoMemory;
use std::alloc::Global;
use std::fmt;
use std::marker::Model;

/// All that a fabric is made of: the inboxes with their seats, a full stock, and a new ledger.
///
/// A contract sees the names that the stations of this fabric will agree on. A function that is generic
/// over [`Naming`](crate::Naming) opens the fabric. That function's caller passes `Brand`, and picks
/// these names.
#[derive(Drop)]
pub struct Opening<'r, M: Mailbox, T: Receiver, S: Sender> {
    pub(crate) boxes: Boxes<M, T, S>,
    pub(crate) ledger: Ledger,
    pub(crate) book: Page,
    pub(crate) stock: Stock<'r>,
    pub(crate) digits: Digits,
    pub(crate) limit: u64,
}

impl<'r, M: Mailbox, T: Receiver, S: Sender> Model for Opening<'r, M, T, S> {
    ghost use Rattle.std.specs.Prelude.{map};
    ghost use Rattle.pool_fabric.specs.Names.{Names};
    ghost use Rattle.pool_fabric.specs.Gathered.{taking_of};
    ghost use Rattle.pool_fabric.specs.Opened.{names_of, IsOpening};

    ghost Value = { Names };

    ghost view = { λ o. names_of (map M.id o.boxes.inboxes.items) o.digits o.limit o.ledger o.book.loans o.stock.left };

    ghost invariant = { λ o. IsOpening
        (names_of (map M.id o.boxes.inboxes.items) o.digits o.limit o.ledger o.book.loans o.stock.left)
        (map M.id o.boxes.inboxes.items)
        (map (taking_of T.inbox T.senders T.taken) o.boxes.takes.items)
        o.boxes.columns.items o.book o.stock };
}

impl<'r, M: Mailbox, T: Receiver, S: Sender> Opening<'r, M, T, S> {
    /// How many desks there are.
    pub fn desks(&self) -> usize
        ensures { result ≡ self.now.count }
    {
        self.boxes.inboxes.len()
    }
}

impl<'r, T: Receiver, S: Sender, M: NewMail<T, S>> Opening<'r, M, T, S> {
    /// What a fabric of so many desks is made of, over the chunks of a region that was cut.
    ///
    /// Numbers of desks are read as `digits` says, and `limit` is that of each desk's cache, in bytes.
    /// Where memory is refused, all is dropped.
    #[inline(never)]
    pub fn new(
        alloc: Global,
        parts: Vec<Part<'r>>,
        desks: u16,
        digits: Digits,
        limit: u64,
    ) -> Result<Opening<'r, M, T, S>, NoMemory>
        requires desks { (1 ≤ desks) × (desks ≤ most_desks) × (desks ≤ 2 ^ digits.bits) }
        requires limit { limit ≤ largest_limit }
        requires parts { AreNumbered parts.items }
        ensures count { IfOk result (λ o. o.count ≡ desks) }
        ensures digits { IfOk result (λ o. o.digits ≡ digits) }
        ensures limit { IfOk result (λ o. o.limit ≡ limit) }
        ensures chunks { IfOk result (λ o. o.chunks ≡ map number_of parts.entry.items) }
    {
        let (ledger, book) = Ledger::new(alloc)?;
        let boxes = open_boxes::<T, S, M>(alloc, digits, desks)?;
        let stock = Stock::new(alloc, parts)?;
        Ok(Opening {
            boxes,
            ledger,
            book,
            stock,
            digits,
            limit,
        })
    }
}

impl<M: Mailbox, T: Receiver, S: Sender> fmt::Debug for Opening<'_, M, T, S> {
    fn fmt<W: fmt::Write>(&self, f: &mut fmt::Formatter<W>) -> fmt::Result {
        write!(f, "Opening({} desks)", self.desks())
    }
}
