//! What came back of several workers.
ghost use Rattle.std.specs.Prelude.{◌≡◌, ◌<◌, ◌≤◌, [], ◌∷◌, ◌++◌, length, All, IsPermutation, MatchOption, IfSome, IfOk};
ghost use Rattle.std.specs.Prelude.{OnOk, OnErr};
ghost use Rattle.pool_fabric.specs.Stations.{StationState};
ghost use Rattle.pool_jobs.specs.Counted.{IsLeastAt, both, counted_by, counts_of, none_counted, stations_of};

use crate::counting_heap::WorkerResult;
use crate::tally::WorkerCounts;
use batch_inbox::{Receiver, Sender};
use pool_fabric::{HeldStation, Naming};
use std::alloc::{AllocError, Global};

/// What came back of several workers: the stations that the shelf didn't take, and what they counted.
#[derive(Drop)]
pub struct CrewResult<'r, T: Receiver, S: Sender, J: Naming> {
    pub held: Vec<HeldStation<'r, T, S, J>>,
    pub counts: WorkerCounts,
}

impl<'r, T: Receiver, S: Sender, J: Naming> CrewResult<'r, T, S, J> {
    /// Nothing came back yet.
    pub(crate) fn none(alloc: Global) -> CrewResult<'r, T, S, J>
        ensures counts { result.counts ≡ none_counted }
        ensures held { result.held.items ≡ [] }
    {
        CrewResult {
            held: Vec::new(alloc),
            counts: WorkerCounts::none(),
        }
    }

    /// What these workers left, in order.
    pub(crate) fn of(
        alloc: Global,
        outcomes: Vec<Option<WorkerResult<'r, T, S, J>>>,
    ) -> Result<CrewResult<'r, T, S, J>, AllocError>
        ensures counts { IfOk result (λ b. b.counts ≡ counted_by outcomes.entry.items) }
        ensures held { IfOk result (λ b. b.held.items ≡ stations_of outcomes.entry.items) }
    {
        let mut held = Vec::new(alloc);
        let mut counts = WorkerCounts::none();
        for outcome in outcomes {
            let more = kept(&mut held, outcome)?;
            counts = counts.plus(more);
        }
        Ok(CrewResult { held, counts })
    }

    /// Takes in what came back of others. Where memory for that is refused, it is as before.
    pub(crate) fn add(&mut self, more: CrewResult<'r, T, S, J>) -> Result<(), AllocError>
        ensures counts { OnOk result (self.new.counts ≡ both self.old.counts more.entry.counts) }
        ensures held { OnOk result (self.new.held.items ≡ self.old.held.items ++ more.entry.held.items) }
        ensures err { OnErr result ((self.new.counts ≡ self.old.counts) × (self.new.held.items ≡ self.old.held.items)) }
    {
        let CrewResult { mut held, counts } = more;
        self.held.append(&mut held)?;
        self.counts = self.counts.plus(counts);
        Ok(())
    }

    /// Takes out the station whose desk has the least number, where one came back.
    pub(crate) fn take_least(&mut self) -> Option<HeldStation<'r, T, S, J>>
        ensures counts { self.new.counts ≡ self.old.counts }
        ensures held { MatchOption result
            ((self.old.held.items ≡ []) × (self.new.held.items ≡ []))
            (λ s. IsPermutation self.old.held.items (s ∷ self.new.held.items)) }
        ensures least { IfSome result (λ s.
            All (λ (o : StationState). s.desk.number ≤ o.desk.number) self.old.held.items) }
    {
        if self.held.is_empty() {
            return None;
        }
        let at = place_of_least(self.held.as_slice());
        Some(self.held.swap_remove(at))
    }
}

// Where the station stands whose desk has the least number.
fn place_of_least<'r, T: Receiver, S: Sender, J: Naming>(
    stations: &[HeldStation<'r, T, S, J>],
) -> usize
    requires { 0 < length stations.now }
    ensures within { result < length stations.now }
    ensures least { IsLeastAt stations.now result }
{
    let mut least = 0;
    for at in 1..stations.len() {
        if stations[at].number() < stations[least].number() {
            least = at;
        }
    }
    least
}

// Keeps the station that one worker left, if any, and tells what it counted.
fn kept<'r, T: Receiver, S: Sender, J: Naming>(
    held: &mut Vec<HeldStation<'r, T, S, J>>,
    outcome: Option<WorkerResult<'r, T, S, J>>,
) -> Result<WorkerCounts, AllocError>
    ensures counts { IfOk result (λ c. c ≡ counts_of outcome.entry) }
    ensures held { OnOk result (held.new.items ≡ held.old.items ++ stations_of (outcome.entry ∷ [])) }
{
    let Some(WorkerResult { station, counts }) = outcome else {
        return Ok(WorkerCounts::none());
    };
    if let Some(station) = station {
        held.push(station)?;
    }
    Ok(counts)
}
