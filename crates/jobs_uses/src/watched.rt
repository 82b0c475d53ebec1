//! What a workload gave whose posts were counted.

use batch_inbox::{Receiver, Sender};
use pool_fabric::Naming;
use pool_jobs::WorkReport;
use pool_jobs::crossing::CrewResult;

/// What there is when all workers have ended, and what their gate saw.
#[derive(Drop)]
pub struct Watched<'r> {
    pub report: WorkReport<'r>,
    /// How many posts were answered `Ok`, at all inboxes.
    pub posts: u64,
    /// How many calls of worker 0 were answered.
    pub calls: u64,
    /// How many of them when it was held.
    pub calls_held: u64,
    /// Whether a worker was let go before its posts were counted.
    pub gave_up: bool,
}

/// What came back of all workers, and what their gate saw.
#[derive(Drop)]
pub struct Seen<'r, T: Receiver, S: Sender, J: Naming> {
    pub crew: CrewResult<'r, T, S, J>,
    pub posts: u64,
    pub calls: u64,
    pub calls_held: u64,
    pub gave_up: bool,
}
