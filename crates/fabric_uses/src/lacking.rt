//! A station that doesn't come back.
ghost use Rattle.std.specs.Prelude.{◌≡◌, IfOk};
ghost use Rattle.pool_fabric.specs.Whole.{IsEachDesk};

use batch_inbox::{Inbox, SendSeat, TakeSeat};
use pool_fabric::{Fabric, Found, GatherError, Naming, Opening, gather};
use std::alloc::Global;
use std::marker::Brand;
use std::sync::Wait;

// The same at a fabric that `J` names.
fn without_one_at<'r, J: Naming, R: Wait>(
    rt: &R,
    alloc: Global,
    opening: Opening<'r, Inbox<'r>, TakeSeat<'r>, SendSeat<'r>>,
    missing: u16,
) -> Result<Found<'r>, GatherError<'r>>
    requires { J.names ≡ opening }
    ensures { IfOk result (λ f. IsEachDesk opening.entry.count f.desks.items) }
{
    let desks = opening.desks();
    let Ok(fabric) = Fabric::<'r, Inbox<'r>, TakeSeat<'r>, SendSeat<'r>, J>::open(alloc, opening)
    else {
        return Err(GatherError::NoMemory);
    };
    let mut held = Vec::new(alloc);
    for _desk in 0..desks {
        let Some(station) = fabric.station(rt) else {
            break;
        };
        // those behind it stay on the shelf
        if station.number() == missing {
            break;
        }
        if held.push(station.adopt(0)).is_err() {
            return Err(GatherError::NoMemory);
        }
    }
    gather(rt, alloc, fabric, held)
}

/// A fabric is opened, the station of one desk dropped, and the others gathered.
pub fn without_one<'r, R: Wait>(
    rt: &R,
    alloc: Global,
    opening: Opening<'r, Inbox<'r>, TakeSeat<'r>, SendSeat<'r>>,
    missing: u16,
) -> Result<Found<'r>, GatherError<'r>>
    ensures { IfOk result (λ f. IsEachDesk opening.entry.count f.desks.items) }
{
    without_one_at::<Brand, R>(rt, alloc, opening, missing)
}
