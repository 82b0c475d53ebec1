//! The end of all work.
ghost use Rattle.std.specs.Prelude.{◌≡◌, List, ◌++◌, IfOk, IfErr};
ghost use Rattle.pool_fabric.specs.Stations.{StationState};
ghost use Rattle.pool_fabric.specs.Whole.{IsAllOf};
ghost use Rattle.pool_fabric.specs.Faults.{IsGatherFault};
ghost use Rattle.pool_jobs.specs.Ends.{IsAccounted};

use crate::crew_result::CrewResult;
use crate::error::JobError;
use crate::tally::{BufferCounts, Tally, WorkerCounts};
use crate::tasks::worker::TaskReport;
use batch_inbox::{Mail, Receiver, Sender};
use pool_fabric::{Fabric, Found, GatherError, HeldStation, Naming, account, gather};
use std::alloc::Global;
use std::fmt;
use std::sync::Wait;

/// What there is when all workers have ended.
#[derive(Drop)]
pub struct WorkReport<'r> {
    /// What was counted, and the audit.
    pub tally: Tally,
    /// All that was found. `tally.audit` is its audit.
    pub found: Found<'r>,
}

/// What there is when all tasks of a program have ended.
#[derive(Drop)]
pub struct RunReport<'r, A: Drop> {
    /// What each task answered, in order; `None` for a task beyond the 64th, which is not begun.
    pub answers: Vec<Option<A>>,
    /// What was counted, and the audit.
    pub tally: Tally,
    /// All that was found. `tally.audit` is its audit.
    pub found: Found<'r>,
}

// What was found is not printed.
impl fmt::Debug for WorkReport<'_> {
    fn fmt<W: fmt::Write>(&self, f: &mut fmt::Formatter<W>) -> fmt::Result {
        write!(f, "WorkReport({:?})", self.tally)
    }
}

// Neither the answers nor what was found are printed.
impl<A: Drop> fmt::Debug for RunReport<'_, A> {
    fn fmt<W: fmt::Write>(&self, f: &mut fmt::Formatter<W>) -> fmt::Result {
        write!(
            f,
            "RunReport({} answers, {:?})",
            self.answers.len(),
            self.tally
        )
    }
}

/// Gathers all that there is, once no thread holds a station any more, and audits it: the stations on
/// the shelf, those that [`Allocator::retire`](crate::Allocator::retire) gave back, and what is left
/// in every inbox.
///
/// Whatever the schedule was, nothing is lost and nothing is there twice. Each slot of a drawn chunk is
/// found at most once, and no other slot. The audit names a slot as missing only where it was lent more
/// often than it was freed; where as many buffers were freed as were lent it names none. The tally counts
/// the buffers that were lent, freed and lost; `starved` is 0 in it, since stations don't count that.
/// Where a station is missing the answer is [`GatherError::Missing`], with the number of its desk and all
/// that the others have.
#[inline(never)]
pub fn settle<
    'r,
    T: Receiver,
    S: Sender,
    M: Mail<'r, TakeSeat = T, SendSeat = S>,
    J: Naming,
    R: Wait,
>(
    rt: &R,
    alloc: Global,
    fabric: Fabric<'r, M, T, S, J>,
    held: Vec<HeldStation<'r, T, S, J>>,
) -> Result<WorkReport<'r>, GatherError<'r>>
    ensures accounted { IfOk result (λ e. IsAccounted J.names.chunks J.names.count e.found e.tally) }
    ensures stations { IfOk result (λ e. (others : List StationState) × IsAllOf (held.entry.items ++ others)
        e.found.desks.items e.found.lent e.found.freed) }
    ensures starved { IfOk result (λ e. e.tally.counts.starved ≡ 0) }
    ensures missing { IfErr result (IsGatherFault J.names.count held.entry.items) }
{
    let found = gather(rt, alloc, fabric, held)?;
    let counts = BufferCounts::of(&found);
    let audit = account(alloc, &[], &found.desks, &found.batches, &found.drawn);
    let tally = Tally { counts, audit };
    Ok(WorkReport { tally, found })
}

/// Gathers all that there is when the workers have ended that left this, as [`settle`] does. The tally
/// also has how often they found no buffer.
pub fn settle_crew<'r, T, S, M, J, R>(
    rt: &R,
    alloc: Global,
    fabric: Fabric<'r, M, T, S, J>,
    crew: CrewResult<'r, T, S, J>,
) -> Result<WorkReport<'r>, JobError>
where
    T: Receiver,
    S: Sender,
    M: Mail<'r, TakeSeat = T, SendSeat = S>,
    J: Naming,
    R: Wait,
    ensures accounted { IfOk result (λ e. IsAccounted J.names.chunks J.names.count e.found e.tally) }
    ensures starved { IfOk result (λ e. e.tally.counts.starved ≡ crew.entry.counts.starved) }
{
    let CrewResult { held, counts } = crew;
    let WorkerCounts {
        starved,
        dropped: _,
    } = counts;
    let mut report = settle(rt, alloc, fabric, held)?;
    report.tally.counts.starved = starved;
    Ok(report)
}

/// Gathers all that there is when all tasks have ended, as [`settle`] does.
pub fn settle_tasks<'r, T, S, M, J, A, R>(
    rt: &R,
    alloc: Global,
    fabric: Fabric<'r, M, T, S, J>,
    report: TaskReport<'r, T, S, J, A>,
) -> Result<RunReport<'r, A>, JobError>
where
    T: Receiver,
    S: Sender,
    M: Mail<'r, TakeSeat = T, SendSeat = S>,
    J: Naming,
    A: Drop,
    R: Wait,
    ensures accounted { IfOk result (λ e. IsAccounted J.names.chunks J.names.count e.found e.tally) }
    ensures answers { IfOk result (λ e. e.answers ≡ report.entry.answers) }
    ensures starved { IfOk result (λ e. e.tally.counts.starved ≡ report.entry.crew.counts.starved) }
{
    let TaskReport { answers, crew } = report;
    let WorkReport { tally, found } = settle_crew(rt, alloc, fabric, crew)?;
    Ok(RunReport {
        answers,
        tally,
        found,
    })
}
