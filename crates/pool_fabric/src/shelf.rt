//! The stations that no worker holds.
ghost use Rattle.std.specs.Prelude.{◌≡◌, ◌<◌, [], ◌∷◌, ◌++◌, length, IfOk, MatchResult, MatchOption};
ghost use Rattle.pool_fabric.specs.Limits.{shelf_room};

use crate::naming::Naming;
use crate::station::Station;
use batch_inbox::{Receiver, Sender};
use slot_chain::NoMemory;
use std::alloc::Global;
use std::fmt;
use std::marker::Model;

/// How many stations a shelf holds at most.
pub const SHELF_ROOM: usize = 64;

/// Stations that no worker holds, at most [`SHELF_ROOM`]. Each of them has an empty cache, as its
/// desk is idle.
///
/// A contract sees them as a list. The station that was put last is got first.
#[derive(Drop)]
pub struct Shelf<'r, T: Receiver, S: Sender, J: Naming> {
    row: Vec<Station<'r, T, S, J>>,
}

impl<'r, T: Receiver, S: Sender, J: Naming> Model for Shelf<'r, T, S, J> {
    ghost use Rattle.std.specs.Prelude.{List, ◌≤◌, length};
    ghost use Rattle.std.specs.Vec.{vec_capacity};
    ghost use Rattle.pool_fabric.specs.Limits.{shelf_room};
    ghost use Rattle.pool_fabric.specs.Stations.{StationState};

    ghost Value = { List StationState };

    ghost view = { λ s. s.row.items };

    ghost invariant = { λ s. (shelf_room ≤ vec_capacity s.row) × (length s.row.items ≤ shelf_room) };
}

impl<'r, T: Receiver, S: Sender, J: Naming> Shelf<'r, T, S, J> {
    /// An empty shelf. Only this call takes memory.
    pub fn new(alloc: Global) -> Result<Shelf<'r, T, S, J>, NoMemory>
        ensures { IfOk result (λ s. s ≡ []) }
    {
        let row = Vec::with_capacity(alloc, SHELF_ROOM)?;
        Ok(Shelf { row })
    }

    /// How many stations are on it.
    pub fn len(&self) -> usize
        ensures { result ≡ length self.now }
    {
        self.row.len()
    }

    /// Puts a station on the shelf, or hands it back: exactly where the shelf holds [`SHELF_ROOM`].
    pub fn put(&mut self, station: Station<'r, T, S, J>) -> Result<(), Station<'r, T, S, J>>
        ensures { MatchResult result
            (λ _. (length self.old < shelf_room) × (self.new ≡ self.old ++ station.entry ∷ []))
            (λ s. (length self.old ≡ shelf_room) × (s ≡ station.entry) × (self.new ≡ self.old)) }
    {
        if self.row.len() >= SHELF_ROOM {
            return Err(station);
        }
        self.row.push_reserved(station);
        Ok(())
    }

    /// Puts a station on a shelf that is not full.
    pub(crate) fn push(&mut self, station: Station<'r, T, S, J>)
        requires { length self.old < shelf_room }
        ensures { self.new ≡ self.old ++ station.entry ∷ [] }
    {
        self.row.push_reserved(station);
    }

    /// Gets the station that was put last; `None` where the shelf is empty.
    pub fn get(&mut self) -> Option<Station<'r, T, S, J>>
        ensures { MatchOption result
            ((self.old ≡ []) × (self.new ≡ []))
            (λ s. self.old ≡ self.new ++ s ∷ []) }
    {
        self.row.pop()
    }
}

impl<T: Receiver, S: Sender, J: Naming> fmt::Debug for Shelf<'_, T, S, J> {
    fn fmt<W: fmt::Write>(&self, f: &mut fmt::Formatter<W>) -> fmt::Result {
        write!(f, "Shelf({} stations)", self.row.len())
    }
}
