//! How a worker comes to its allocator.
ghost use Rattle.std.specs.Prelude.{◌≡◌};

use crate::allocator::Allocator;
use crate::gate::Gate;
use batch_inbox::{Mail, Mailbox, Receiver, Sender};
use pool_fabric::{Fabric, HeldStation, Naming};
use std::alloc::Global;
use std::sync::Wait;

/// What a worker needs to come to an allocator: the fabric, and a gate that is told of its calls.
#[derive(Drop)]
pub struct Entrance<'a, 'r, M: Mailbox, T: Receiver, S: Sender, G: Gate, J: Naming> {
    fabric: &'a Fabric<'r, M, T, S, J>,
    gate: &'a G,
    alloc: Global,
    worker: u32,
}

impl<'a, 'r, M: Mailbox, T: Receiver, S: Sender, G: Gate, J: Naming> Entrance<
    'a,
    'r,
    M,
    T,
    S,
    G,
    J,
> {
    /// An entrance to the fabric, for the worker of this number: any, which the gate is told.
    pub fn new(
        alloc: Global,
        fabric: &'a Fabric<'r, M, T, S, J>,
        gate: &'a G,
        worker: u32,
    ) -> Entrance<'a, 'r, M, T, S, G, J> {
        Entrance {
            fabric,
            gate,
            alloc,
            worker,
        }
    }
}

impl<
    'a,
    'r,
    T: Receiver,
    S: Sender,
    M: Mail<'r, TakeSeat = T, SendSeat = S>,
    G: Gate,
    J: Naming,
> Entrance<'a, 'r, M, T, S, G, J> {
    /// Takes a station off the shelf; `None` where the shelf is empty: each desk has a worker.
    pub fn enter<R: Wait>(self, rt: &R) -> Option<Allocator<'a, 'r, M, T, S, G, J>> {
        let worker = self.worker;
        let station = self.fabric.station(rt)?;
        Some(self.resume(station.adopt(worker)))
    }

    /// Goes on with a station that [`Allocator::retire`] gave back, with what it has in its cache.
    pub fn resume(self, station: HeldStation<'r, T, S, J>) -> Allocator<'a, 'r, M, T, S, G, J>
        ensures { result ≡ station.entry }
    {
        let Entrance {
            fabric,
            gate,
            alloc,
            worker,
        } = self;
        Allocator::new(fabric, gate, alloc, worker, station)
    }
}
