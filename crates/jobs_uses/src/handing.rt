//! Parcels that one thread packs, and another frees as a whole.
ghost use Rattle.std.specs.Prelude.{◌≡◌, IfOk};
ghost use Rattle.pool_jobs.specs.Ends.{IsAccounted};

use batch_inbox::{Inbox, SendSeat, TakeSeat};
use crossbeam_channel::{Receiver, Sender};
use inbox_uses::{Worker, run_beside};
use pool_fabric::{Fabric, HeldStation, Naming, Opening};
use pool_jobs::{Allocator, Entrance, JobError, NoGate, Parcel, WorkReport, settle};
use std::alloc::{AllocError, Global};
use std::marker::Brand;
use std::sync::Wait;
use std::thread::Threads;

// How many buffers a parcel has.
const BUFFERS: usize = 64;

type Shared<'r, J> = Fabric<'r, Inbox<'r>, TakeSeat<'r>, SendSeat<'r>, J>;

type Door<'a, 'r, J> = Entrance<'a, 'r, Inbox<'r>, TakeSeat<'r>, SendSeat<'r>, NoGate, J>;

type Own<'a, 'r, J> = Allocator<'a, 'r, Inbox<'r>, TakeSeat<'r>, SendSeat<'r>, NoGate, J>;

type Held<'r, J> = HeldStation<'r, TakeSeat<'r>, SendSeat<'r>, J>;

// The thread that packs so many parcels, and hands each over.
#[derive(Drop)]
struct Packing<'a, 'r, J: Naming> {
    entrance: Door<'a, 'r, J>,
    to: Sender<Parcel<'r, J>>,
    parcels: u8,
}

// The thread that frees what it receives.
#[derive(Drop)]
struct Freeing<'a, 'r, J: Naming> {
    entrance: Door<'a, 'r, J>,
    from: Receiver<Parcel<'r, J>>,
}

// What a thread leaves: its station where that doesn't go back on the shelf, and the sum of the marks that
// it read.
#[derive(Drop)]
struct Left<'r, J: Naming> {
    station: Option<Held<'r, J>>,
    marks: u64,
}

// What a thread leaves that found no station.
fn nothing_left<'r, J: Naming>() -> Left<'r, J> {
    Left {
        station: None,
        marks: 0,
    }
}

// Fills a parcel with buffers of mixed sizes, each marked, or with as many as there are.
fn pack<'a, 'r, J: Naming, R: Wait>(
    rt: &R,
    allocator: &mut Own<'a, 'r, J>,
    parcel: &mut Parcel<'r, J>,
    mark: u8,
) {
    for number in 0..BUFFERS {
        let Ok(buffer) = allocator.alloc(rt, 1 + 8 * number) else {
            return;
        };
        let mut buffer = buffer;
        buffer.fill(mark);
        if let Err(buffer) = parcel.push(buffer) {
            allocator.free(rt, buffer);
        }
    }
}

// Packs a parcel and hands it over. What the channel doesn't take is freed here.
fn hand_one<'a, 'r, J: Naming, R: Wait>(
    rt: &R,
    allocator: &mut Own<'a, 'r, J>,
    to: &Sender<Parcel<'r, J>>,
    mark: u8,
) {
    let Ok(parcel) = allocator.parcel(BUFFERS) else {
        return;
    };
    let mut parcel = parcel;
    pack(rt, allocator, &mut parcel, mark);
    if let Err(refused) = to.send(rt, parcel) {
        allocator.free_all(rt, refused.into_inner());
    }
}

// The mark of the buffer that came last. It goes back into the parcel.
fn mark_of<'a, 'r, J: Naming, R: Wait>(
    rt: &R,
    allocator: &mut Own<'a, 'r, J>,
    parcel: &mut Parcel<'r, J>,
) -> u64 {
    let Some(buffer) = parcel.pop() else {
        return 0;
    };
    let mark = match buffer.bytes().first() {
        Some(mark) => u64::from(*mark),
        None => 0,
    };
    if let Err(buffer) = parcel.push(buffer) {
        allocator.free(rt, buffer);
    }
    mark
}

// Waits for the next parcel, if there is to be one. What is cached is posted before: the other thread
// may need those slots.
fn next_parcel<'a, 'r, J: Naming, R: Wait>(
    rt: &R,
    allocator: &mut Own<'a, 'r, J>,
    from: &Receiver<Parcel<'r, J>>,
) -> Option<Parcel<'r, J>> {
    if let Ok(parcel) = from.try_recv(rt) {
        return Some(parcel);
    }
    let _all = allocator.flush(rt);
    from.recv(rt).ok()
}

impl<'a, 'r, J: Naming> Worker for Packing<'a, 'r, J> {
    type Done = Left<'r, J>;

    ghost use Rattle.std.specs.Prelude.{⊤};

    ghost ready = { λ _. ⊤ };

    ghost gives = { λ _ _. ⊤ };

    fn run<R: Wait>(self, rt: &R) -> Left<'r, J> {
        let Packing {
            entrance,
            to,
            parcels,
        } = self;
        let Some(mut allocator) = entrance.enter(rt) else {
            return nothing_left();
        };
        for mark in 0..parcels {
            hand_one(rt, &mut allocator, &to, mark);
        }
        Left {
            station: allocator.retire(rt),
            marks: 0,
        }
    }
}

impl<'a, 'r, J: Naming> Worker for Freeing<'a, 'r, J> {
    type Done = Left<'r, J>;

    ghost use Rattle.std.specs.Prelude.{⊤};

    ghost ready = { λ _. ⊤ };

    ghost gives = { λ _ _. ⊤ };

    fn run<R: Wait>(self, rt: &R) -> Left<'r, J> {
        let Freeing { entrance, from } = self;
        let Some(mut allocator) = entrance.enter(rt) else {
            return nothing_left();
        };
        let mut marks = 0u64;
        for _ in rt.forever() {
            let Some(parcel) = next_parcel(rt, &mut allocator, &from) else {
                break;
            };
            let mut parcel = parcel;
            marks = marks.saturating_add(mark_of(rt, &mut allocator, &mut parcel));
            allocator.free_all(rt, parcel);
        }
        Left {
            station: allocator.retire(rt),
            marks,
        }
    }
}

// Both threads, joined.
fn both_threads<'a, 'r, J: Naming + Send + Sync, R: Threads + Wait + Sync>(
    rt: &R,
    alloc: Global,
    fabric: &'a Shared<'r, J>,
    gate: &'a NoGate,
    parcels: u8,
) -> Result<(Left<'r, J>, Left<'r, J>), AllocError> {
    let (to, from) = crossbeam_channel::unbounded::<Parcel<'r, J>, _>(alloc)?;
    let packing: Packing<'a, 'r, J> = Packing {
        entrance: Entrance::new(alloc, fabric, gate, 0),
        to,
        parcels,
    };
    let freeing: Freeing<'a, 'r, J> = Freeing {
        entrance: Entrance::new(alloc, fabric, gate, 1),
        from,
    };
    Ok(run_beside(rt, packing, freeing))
}

// What both threads left.
#[derive(Drop)]
struct BothLeft<'r, J: Naming> {
    held: Vec<Held<'r, J>>,
    marks: u64,
}

// Takes in what both threads left.
fn taken_in<'r, J: Naming>(
    alloc: Global,
    packed: Left<'r, J>,
    freed: Left<'r, J>,
) -> Result<BothLeft<'r, J>, AllocError> {
    let Left {
        station: first,
        marks,
    } = packed;
    let Left {
        station: second,
        marks: others,
    } = freed;
    let mut held = Vec::new(alloc);
    if let Some(station) = first {
        held.push(station)?;
    }
    if let Some(station) = second {
        held.push(station)?;
    }
    Ok(BothLeft {
        held,
        marks: marks.saturating_add(others),
    })
}

/// What there is when both threads have ended.
#[derive(Drop)]
pub struct Handed<'r> {
    pub report: WorkReport<'r>,
    /// The marks that the second thread read, added up.
    pub marks: u64,
}

// The same at a fabric that `J` names, and its end.
fn at_fabric<'r, J: Naming + Send + Sync, R: Threads + Wait + Sync>(
    rt: &R,
    alloc: Global,
    opening: Opening<'r, Inbox<'r>, TakeSeat<'r>, SendSeat<'r>>,
    parcels: u8,
) -> Result<Handed<'r>, JobError>
    requires { J.names ≡ opening }
    ensures accounted { let n = opening.entry in
        IfOk result (λ h. IsAccounted n.chunks n.count h.report.found h.report.tally) }
{
    let fabric = Shared::<'r, J>::open(alloc, opening)?;
    let (packed, freed) = both_threads(rt, alloc, &fabric, &NoGate, parcels)?;
    let BothLeft { held, marks } = taken_in(alloc, packed, freed)?;
    let report = settle(rt, alloc, fabric, held)?;
    Ok(Handed { report, marks })
}

/// One thread packs so many parcels of 64 buffers of mixed sizes, marks each buffer with the parcel's
/// number, and sends the parcels to another thread. That one reads a mark of each, and frees it as a
/// whole. It wants two desks.
///
/// Whatever the schedule was, all that there is then is accounted for.
pub fn hand_parcels<'r, R: Threads + Wait + Sync>(
    rt: &R,
    alloc: Global,
    opening: Opening<'r, Inbox<'r>, TakeSeat<'r>, SendSeat<'r>>,
    parcels: u8,
) -> Result<Handed<'r>, JobError>
    ensures accounted { let n = opening.entry in
        IfOk result (λ h. IsAccounted n.chunks n.count h.report.found h.report.tally) }
{
    at_fabric::<Brand, R>(rt, alloc, opening, parcels)
}
