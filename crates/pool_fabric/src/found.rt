//! All that is found in the end.
ghost use Rattle.std.specs.Prelude.{◌≡◌, ℕ, List, ◌+◌, ◌<◌, [], ◌∷◌, ◌++◌, length, map, Some, slice_get};
ghost use Rattle.std.specs.Prelude.{IsPermutation, IfOk, IfErr, MatchOption};
ghost use Rattle.pool_fabric.specs.Names.{box_at};
ghost use Rattle.pool_fabric.specs.Ledgers.{whole};
ghost use Rattle.pool_fabric.specs.Accounts.{of_part, of_entry};
ghost use Rattle.pool_fabric.specs.Audited.{slots_found};
ghost use Rattle.pool_fabric.specs.Losses.{FindsAtMostOnce};
ghost use Rattle.slot_balance.specs.Weights.{weigh};
ghost use Rattle.pool_fabric.specs.Stations.{StationState};
ghost use Rattle.pool_fabric.specs.Stocks.{AreTold};
ghost use Rattle.pool_fabric.specs.Faults.{LacksNumber, IsGatherFault};
ghost use Rattle.pool_fabric.specs.Whole.{IsWhole, FreesNoMore, IsAllOf, IsEachDesk, AreNoted};

use crate::error::GatherError;
use crate::fabric::Fabric;
use crate::gathered::Gathered;
use crate::held::HeldStation;
use crate::in_part::in_part;
use crate::ledger::{Ledger, Page};
use crate::naming::Naming;
use crate::shelf::Shelf;
use crate::stock::Stock;
use crate::store::Store;
use batch_inbox::{Mail, Receiver, Sender};
use digit_route::Batch;
use pool_desk::Desk;
use region_cut::Part;
use slot_audit::Drawn;
use slot_balance::CountedNotes;
use slot_chain::Buf;
use std::alloc::{AllocError, Global};
use std::fmt;
use std::sync::Wait;

/// All that a pool has, once no thread holds a station any more.
#[derive(Drop)]
pub struct Found<'r> {
    /// The desks, by their numbers. What a worker could not post is in its desk's cache.
    pub desks: Vec<Desk<'r>>,
    /// The batches that were still in an inbox.
    pub batches: Vec<Batch<'r>>,
    /// What was ever lent. A program sees how many buffers that are, contracts see each.
    pub lent: CountedNotes<Buf<'r>>,
    /// What was ever freed, seen so too.
    pub freed: CountedNotes<Buf<'r>>,
    /// The chunks that nobody drew.
    pub parts: Vec<Part<'r>>,
    /// Which chunks were drawn, and for which class.
    pub drawn: Drawn,
}

// Where the station of this number stands.
fn place_of<'r, T: Receiver, S: Sender, J: Naming>(
    stations: &[HeldStation<'r, T, S, J>],
    number: usize,
) -> Option<usize>
    ensures { MatchOption result
        (LacksNumber number stations.now)
        (λ k. (s : StationState) × (slice_get stations.now k ≡ Some s) × (s.desk.number ≡ number)) }
{
    for at in 0..stations.len() {
        if usize::from(stations[at].number()) == number {
            return Some(at);
        }
    }
    None
}

// Takes the station of this number out of the list.
fn out_of<'r, T: Receiver, S: Sender, J: Naming>(
    stations: &mut Vec<HeldStation<'r, T, S, J>>,
    number: usize,
) -> Option<HeldStation<'r, T, S, J>>
    ensures { MatchOption result
        (LacksNumber number stations.old.items × (stations.new.items ≡ stations.old.items))
        (λ s. (s.desk.number ≡ number) × IsPermutation stations.old.items (s ∷ stations.new.items)) }
{
    let at = place_of(stations.as_slice(), number)?;
    Some(stations.swap_remove(at))
}

// Takes all stations apart, in order of their numbers.
fn add_all<'r, T: Receiver, S: Sender, J: Naming, R: Wait>(
    rt: &R,
    alloc: Global,
    ledger: &Ledger,
    stations: Vec<HeldStation<'r, T, S, J>>,
    columns: usize,
    page: Page,
) -> Result<Gathered<'r, T, S, J>, GatherError<'r>>
    requires ledger { ledger.now ≡ J.names.ledger }
    requires columns { columns ≡ J.names.count }
    requires page { (page.key ≡ J.names.ledger) × (page.got ≡ []) × (0 < page.parts)
        × (page.parts + J.names.count ≡ whole) }
    requires loans { (page.loans ≡ J.names.loans) × (page.lent ≡ []) × (page.freed ≡ []) }
    ensures columns { IfOk result (λ g.
        (g.columns ≡ columns) × (length g.takes ≡ columns) × (length g.rows ≡ columns)) }
    ensures page { IfOk result (λ g. (g.page.parts ≡ whole) × (g.page.gave ≡ page.gave)) }
    ensures stations { IfOk result (λ g. IsAllOf stations.entry.items g.desks g.lent g.freed) }
    ensures fault { IfErr result (IsGatherFault columns stations.entry.items) }
{
    let mut stations = stations;
    let mut gathered = Gathered::new(alloc, columns, page);
    for number in 0..columns {
        let Some(station) = out_of(&mut stations, number) else {
            let Ok(found) = in_part(number, gathered, stations) else {
                return Err(GatherError::NoMemory);
            };
            return Err(GatherError::Missing(found));
        };
        let Ok(more) = gathered.add(ledger, station) else {
            return Err(GatherError::NoMemory);
        };
        gathered = more;
    }
    if let Some(other) = stations.pop() {
        gathered.exclude(rt, ledger, other);
        unreachable!();
    }
    Ok(gathered)
}

// Ends all inboxes, the last one first.
fn close_all<
    'r,
    T: Receiver,
    S: Sender,
    M: Mail<'r, TakeSeat = T, SendSeat = S>,
    J: Naming,
    R: Wait,
>(
    rt: &R,
    alloc: Global,
    gathered: Gathered<'r, T, S, J>,
    inboxes: Vec<M>,
) -> Result<Gathered<'r, T, S, J>, AllocError>
    requires columns { (gathered.columns ≡ length inboxes.items) × (length gathered.takes ≡ length inboxes.items)
        × (length gathered.rows ≡ J.names.count) }
    requires inboxes { (k : ℕ) (i : M) → slice_get inboxes.items k ≡ Some i → M.id i ≡ box_at J.names k }
    ensures ended { IfOk result (λ g. (g.columns ≡ 0) × (length g.takes ≡ 0) × (length g.rows ≡ J.names.count)
        × (g.page ≡ gathered.entry.page)) }
    ensures same { IfOk result (λ g. (g.desks ≡ gathered.entry.desks) × (g.lent ≡ gathered.entry.lent)
        × (g.freed ≡ gathered.entry.freed)) }
{
    let mut gathered = gathered;
    let mut inboxes = inboxes;
    while let Some(inbox) = inboxes.pop() {
        gathered = gathered.close(rt, alloc, inbox)?;
    }
    Ok(gathered)
}

impl<'r, T: Receiver, S: Sender, J: Naming> Gathered<'r, T, S, J> {
    /// Looks into the ledger and the stock, once all inboxes are ended.
    pub(crate) fn finish<R: Wait>(self, rt: &R, ledger: &Ledger, stock: Stock<'r>) -> Found<'r>
        requires columns { (self.columns ≡ 0) × (length self.takes ≡ 0) × (length self.rows ≡ J.names.count) }
        requires page { (ledger.now ≡ J.names.ledger) × (self.page.parts ≡ whole) }
        requires chunks { (g : ℕ → ℕ)
            → weigh (of_entry g) self.page.gave + weigh (of_part g) stock.left ≡ weigh g J.names.chunks }
        requires told { AreTold stock.drawn self.page.gave }
        ensures whole { IsWhole result.desks.items result.batches.items result.lent result.freed
            result.parts.items J.names.chunks }
        ensures bounded { FreesNoMore result.lent result.freed }
        ensures desks { IsEachDesk J.names.count result.desks.items }
        ensures same { (result.desks.items ≡ self.entry.desks) × (result.lent ≡ self.entry.lent)
            × (result.freed ≡ self.entry.freed) }
        ensures drawn { AreNoted result.desks.items result.drawn }
    {
        let Gathered {
            columns: _,
            desks,
            takes: _,
            rows: _,
            mut page,
            lent,
            freed,
            batches,
            of: _,
        } = self;
        ledger.close(rt, &mut page);
        let (parts, drawn) = stock.into_parts();
        Found {
            desks,
            batches,
            lent,
            freed,
            parts,
            drawn,
        }
    }
}

// All stations: those of the shelf beside those that came back from threads.
fn all_of<'r, T: Receiver, S: Sender, J: Naming>(
    shelf: Shelf<'r, T, S, J>,
    held: Vec<HeldStation<'r, T, S, J>>,
) -> Result<Vec<HeldStation<'r, T, S, J>>, AllocError>
    ensures numbers { IfOk result (λ v. (a : ℕ) → LacksNumber a v.items
        → LacksNumber a shelf.entry × LacksNumber a held.entry.items) }
    ensures held { IfOk result (λ v. (others : List StationState) × (v.items ≡ held.entry.items ++ others)) }
{
    let mut shelf = shelf;
    let mut stations = held;
    while let Some(station) = shelf.get() {
        stations.push(station.adopt(0))?;
    }
    Ok(stations)
}

/// Gathers all that there is, once no thread holds a station any more: the stations on the shelf,
/// those that are handed in, and what is left in every inbox.
///
/// Whatever the schedule was, and whatever was done with the buffers, nothing is lost and nothing is
/// there twice. Counted slot by slot, found + lent = slots of the drawn chunks + freed. Each desk is
/// found once, and the chunks told as drawn are those that the desks drew, each for its class. Of the
/// stations that are handed in, all is found as it was: their desks, what they lent and what was freed
/// to them, each buffer with its bytes.
///
/// [`GatherError::NoMemory`]: memory was refused, and all is dropped. [`GatherError::Missing`] names
/// the least desk without a station, and hands out all that the others have.
#[inline(never)]
pub fn gather<
    'r,
    T: Receiver,
    S: Sender,
    M: Mail<'r, TakeSeat = T, SendSeat = S>,
    J: Naming,
    R: Wait,
>(
    rt: &R,
    alloc: Global,
    fabric: Fabric<'r, M, T, S, J>,
    held: Vec<HeldStation<'r, T, S, J>>,
) -> Result<Found<'r>, GatherError<'r>>
    ensures whole { IfOk result (λ f.
        IsWhole f.desks.items f.batches.items f.lent f.freed f.parts.items J.names.chunks) }
    ensures bounded { IfOk result (λ f. FreesNoMore f.lent f.freed) }
    ensures desks { IfOk result (λ f. IsEachDesk J.names.count f.desks.items) }
    ensures once { IfOk result (λ f. FindsAtMostOnce f.drawn (slots_found f.desks.items f.batches.items)) }
    ensures stations { IfOk result (λ f. (others : List StationState)
        × IsAllOf (held.entry.items ++ others) f.desks.items f.lent f.freed) }
    ensures drawn { IfOk result (λ f. AreNoted f.desks.items f.drawn) }
    ensures missing { IfErr result (IsGatherFault J.names.count held.entry.items) }
{
    let Fabric {
        inboxes,
        ledger,
        shelf,
        stock,
        of: _,
    } = fabric;
    let Ok(stations) = all_of(shelf.into_inner(), held) else {
        return Err(GatherError::NoMemory);
    };
    let Store { stock, book, of: _ } = stock.into_inner();
    let gathered = add_all(rt, alloc, &ledger, stations, inboxes.len(), book)?;
    let Ok(gathered) = close_all(rt, alloc, gathered, inboxes) else {
        return Err(GatherError::NoMemory);
    };
    Ok(gathered.finish(rt, &ledger, stock))
}

// The buffers are not printed.
impl fmt::Debug for Found<'_> {
    fn fmt<W: fmt::Write>(&self, f: &mut fmt::Formatter<W>) -> fmt::Result {
        write!(
            f,
            "Found({} desks, {} batches, {} parts)",
            self.desks.len(),
            self.batches.len(),
            self.parts.len()
        )
    }
}
