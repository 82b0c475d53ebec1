//! How a pool is opened: an inbox for each desk, seats at them, and the stations.
ghost use Rattle.std.specs.Prelude.{◌≡◌, ◌<◌, ◌≤◌, [], length, All, IfOk};
ghost use Rattle.std.specs.Arc.{arc_value};
ghost use Rattle.chunk_stock.specs.Notes.{NotesNone};
ghost use Rattle.slot_balance.specs.Opened.{AreOpened, NoneSent};
ghost use Rattle.seated_desk.specs.Shelves.{AreNumbered};
ghost use Rattle.seated_desk.specs.Ways.{IsSeated, seats_at};

use crate::station::Station;
use chunk_stock::Drawer;
use digit_route::Digits;
use link_inbox::{LinkInbox, SendSeat, TakeSeat};
use pool_desk::IdleDesk;
use slot_balance::{Boxes, Parted, Row, open_boxes, part_last};
use slot_chain::NoMemory;
use std::alloc::Global;
use std::sync::Arc;

// How the desks of a pool are: the pool's number, how their numbers are read, and the limit of each cache in bytes.
#[derive(Drop)]
pub(crate) struct Profile {
    pub(crate) pool: u64,
    pub(crate) digits: Digits,
    pub(crate) limit: u64,
}

// A station of a new desk.
fn station<'r>(
    alloc: Global,
    number: u16,
    profile: &Profile,
    inboxes: Arc<Vec<LinkInbox<'r>>>,
    take: TakeSeat<'r>,
    seats: Vec<SendSeat<'r>>,
    drawer: Drawer<'r>,
) -> Station<'r>
    requires number { number < 64 }
    requires limit { profile.now.limit ≤ 1048576 }
    requires bits { profile.now.digits.bits ≡ 6 }
    requires seated { IsSeated profile.now.digits number (arc_value inboxes).items take.inbox (seats_at seats.items) }
    requires unused { (take.taken ≡ []) × NoneSent (seats_at seats.items) }
    requires new { NotesNone drawer.drawn }
    ensures { (result.desk.number ≡ number) × (result.pool ≡ profile.now.pool) }
{
    let desk = IdleDesk::new(number, profile.digits, profile.limit).adopt(0);
    Station::new(alloc, profile.pool, desk, inboxes, take, seats, drawer)
}

// Deals the seats out to new stations, from the last desk to the first.
fn deal<'r>(
    alloc: Global,
    profile: &Profile,
    inboxes: &Arc<Vec<LinkInbox<'r>>>,
    takes: Vec<TakeSeat<'r>>,
    columns: Vec<Row<SendSeat<'r>>>,
    drawers: Vec<Drawer<'r>>,
) -> Result<Vec<Station<'r>>, NoMemory>
    requires count { length takes.items ≤ 64 }
    requires limit { profile.now.limit ≤ 1048576 }
    requires bits { profile.now.digits.bits ≡ 6 }
    requires new { All (λ d. NotesNone d.drawn) drawers.items }
    requires opened { AreOpened profile.now.digits (length takes.items) (arc_value inboxes.now).items
        takes.items columns.items }
    ensures numbered { IfOk result (λ shelf. AreNumbered profile.now.pool (length takes.entry.items) shelf.items) }
    ensures all { IfOk result (λ shelf. length shelf.items ≡ length takes.entry.items) }
{
    let mut takes = takes;
    let mut columns = columns;
    let mut drawers = drawers.into_iter();
    let mut shelf = Vec::with_capacity(alloc, takes.len())?;
    while let Some(take) = takes.pop() {
        let number = takes.len();
        let Parted { rows, last: seats } = part_last(alloc, columns)?;
        columns = rows;
        let (Some(drawer), Ok(inboxes)) = (drawers.next(), Arc::try_clone(inboxes)) else {
            return Err(NoMemory);
        };
        shelf.push(station(alloc, number as u16, profile, inboxes, take, seats, drawer))?;
    }
    Ok(shelf)
}

/// A station for each of so many desks. Their numbers are from 0, the last first.
pub(crate) fn stations<'r>(
    alloc: Global,
    profile: Profile,
    drawers: Vec<Drawer<'r>>,
    desks: u16,
) -> Result<Vec<Station<'r>>, NoMemory>
    requires desks { (1 ≤ desks) × (desks ≤ 64) }
    requires limit { profile.limit ≤ 1048576 }
    requires bits { profile.digits.bits ≡ 6 }
    requires new { All (λ d. NotesNone d.drawn) drawers.items }
    ensures numbered { IfOk result (λ shelf. AreNumbered profile.pool desks shelf.items) }
    ensures all { IfOk result (λ shelf. length shelf.items ≡ desks) }
{
    let Boxes {
        inboxes,
        takes,
        columns,
    } = open_boxes::<TakeSeat<'r>, SendSeat<'r>, LinkInbox<'r>>(alloc, profile.digits, desks)?;
    let Ok(inboxes) = Arc::new(alloc, inboxes) else {
        return Err(NoMemory);
    };
    deal(alloc, &profile, &inboxes, takes, columns, drawers)
}
