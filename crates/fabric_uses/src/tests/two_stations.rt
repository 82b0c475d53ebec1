//! A fabric of two stations to test with.
ghost use Rattle.std.specs.Prelude.{◌≡◌};

use crate::lend_across;
use batch_inbox::{Inbox, SendSeat, TakeSeat};
use digit_route::Digits;
use pool_fabric::{Fabric, HeldStation, Naming, Opening, Station};
use region_cut::{CHUNK, cut};
use slot_chain::NoMemory;
use std::alloc::Global;
use std::process::Abort;
use std::sync::Wait;

pub(crate) type Opened<'r> = Opening<'r, Inbox<'r>, TakeSeat<'r>, SendSeat<'r>>;

pub(crate) type Over<'r, J> = Fabric<'r, Inbox<'r>, TakeSeat<'r>, SendSeat<'r>, J>;

pub(crate) type Held<'r, J> = HeldStation<'r, TakeSeat<'r>, SendSeat<'r>, J>;

pub(crate) type Idle<'r, J> = Station<'r, TakeSeat<'r>, SendSeat<'r>, J>;

/// A region of four chunks.
pub(crate) fn region(alloc: Global) -> Result<Vec<u8>, NoMemory> {
    let region = Vec::from_elem(alloc, 0u8, 4 * CHUNK)?;
    Ok(region)
}

/// What a fabric of two desks over a region is made of.
pub(crate) fn opening_of_two<'r>(alloc: Global, region: &'r mut [u8]) -> Option<Opened<'r>> {
    let parts = cut(alloc, region).ok()?;
    let digits = Digits::new(6)?;
    Opened::<'r>::new(alloc, parts, 2, digits, 4_096).ok()
}

/// A fabric, and its two stations in the hands of workers.
#[derive(Drop)]
pub(crate) struct TwoStations<'r, J: Naming> {
    pub(crate) fabric: Over<'r, J>,
    pub(crate) first: Held<'r, J>,
    pub(crate) second: Held<'r, J>,
}

/// The fabric that `J` names.
pub(crate) fn open_two<'r, J: Naming, R: Wait>(
    rt: &R,
    alloc: Global,
    opening: Opened<'r>,
) -> Option<TwoStations<'r, J>>
    requires { J.names ≡ opening }
{
    let Ok(fabric) = Over::<'r, J>::open(alloc, opening) else {
        return None;
    };
    let first = fabric.station(rt)?;
    let second = fabric.station(rt)?;
    Some(TwoStations {
        fabric,
        first: first.adopt(0),
        second: second.adopt(1),
    })
}

/// Four buffers of one station are freed to the other, whose cache was empty. Says whether there was
/// memory.
pub(crate) fn fill<'r, J: Naming, R: Abort + Wait>(
    rt: &R,
    alloc: Global,
    fabric: &Over<'r, J>,
    from: &mut Held<'r, J>,
    to: &mut Held<'r, J>,
) -> bool {
    for _ in 0..4 {
        if !lend_across(rt, alloc, fabric, from, to, 16) {
            return false;
        }
    }
    assert!(rt; to.cached_bytes() == 64);
    true
}

/// A station whose cache is empty, without its worker.
pub(crate) fn retired<'r, J: Naming>(rt: &impl Abort, station: Held<'r, J>) -> Idle<'r, J> {
    station.retire().ok().expect(rt, "the cache is empty")
}
