//! Why there is no buffer, and why there is no report.
ghost use Rattle.std.specs.Prelude.{◌≡◌};
ghost use Rattle.pool_jobs.specs.Refusals.{shortage_number, job_number, job_error_of};

use pool_fabric::GatherError;
use slot_chain::NoMemory;
use std::alloc::{AllocError, AllocFailed};
use thiserror::Error;

/// Why an allocator gives no buffer.
#[derive(Clone, Copy, Debug, PartialEq, Eq, Drop, Error)]
pub enum PoolError {
    /// No size class has as many bytes.
    #[error("no size class has as many bytes")]
    TooLarge,
    /// No slot of the class is at home at this allocator, none came in a batch, and every chunk is drawn.
    /// One of its slots of the class may come home later. Free slots of other classes, or at other
    /// allocators, don't help.
    #[error("the pool has no slot of this size left")]
    UsedUp,
    /// The system refused the memory for a buffer that was never handed out before.
    #[error("no memory for a slot's first use")]
    NoMemory,
    /// Every chunk is drawn, and this allocator drew none for the class: no slot will ever come.
    #[error("every chunk is drawn, and none for this size")]
    NoChunk,
}

impl PoolError {
    /// Its number, from 1.
    pub fn number(self) -> u32
        ensures { result ≡ shortage_number self }
    {
        match self {
            PoolError::TooLarge => 1,
            PoolError::UsedUp => 2,
            PoolError::NoMemory => 3,
            PoolError::NoChunk => 4,
        }
    }
}

impl From<NoMemory> for PoolError {
    fn from(_refused: NoMemory) -> PoolError
        ensures { result ≡ PoolError.NoMemory }
    {
        PoolError::NoMemory
    }
}

/// Why a run or a workload gives no report. All that it had is dropped.
#[derive(Clone, Copy, Debug, PartialEq, Eq, Drop, Error)]
pub enum JobError {
    /// The system refused memory for the run's own desks, queues, edges or lists.
    #[error("no memory for the run")]
    NoMemory,
    /// A thread couldn't be started, or a station didn't come back from one.
    #[error("a thread couldn't be started")]
    NoThread,
}

impl JobError {
    /// Its number, from 1.
    pub fn number(self) -> u32
        ensures { result ≡ job_number self }
    {
        match self {
            JobError::NoMemory => 1,
            JobError::NoThread => 2,
        }
    }
}

impl<'r> From<GatherError<'r>> for JobError {
    fn from(refused: GatherError<'r>) -> JobError
        ensures { result ≡ job_error_of refused.entry }
    {
        match refused {
            GatherError::NoMemory => JobError::NoMemory,
            GatherError::Missing(_) => JobError::NoThread,
        }
    }
}

impl From<AllocError> for JobError {
    fn from(_refused: AllocError) -> JobError
        ensures { result ≡ JobError.NoMemory }
    {
        JobError::NoMemory
    }
}

impl<T: Drop> From<AllocFailed<T>> for JobError {
    fn from(_refused: AllocFailed<T>) -> JobError
        ensures { result ≡ JobError.NoMemory }
    {
        JobError::NoMemory
    }
}

impl From<NoMemory> for JobError {
    fn from(_refused: NoMemory) -> JobError
        ensures { result ≡ JobError.NoMemory }
    {
        JobError::NoMemory
    }
}
