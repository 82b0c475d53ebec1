//! What the workers of a workload do.
ghost use Rattle.std.specs.Prelude.{◌≡◌};
ghost use Rattle.pool_jobs.specs.Rounds.{rounds_of};

use crate::workloads::plan::Plan;

/// What the workers of a workload do.
#[derive(Clone, Copy, Debug, PartialEq, Eq)]
pub enum Workload {
    /// Worker `2p` allocates buffers and hands them to worker `2p + 1`, which frees them. A last
    /// worker without a partner frees its own.
    ProdCons,
    /// Each worker allocates buffers and hands them to the next, the last one to the first. Then it
    /// frees those that it received.
    Ring,
    /// Each worker has a row of 16 buffers, and replaces one after another, round after round. After
    /// each round the rows go on by one worker, and each worker is a new thread.
    Replace,
}

impl Workload {
    /// How many rounds it has.
    pub(crate) fn rounds(self, plan: &Plan) -> u32
        ensures { result ≡ rounds_of self plan.now }
    {
        match self {
            Workload::Replace => plan.rounds,
            _ => 1,
        }
    }
}
