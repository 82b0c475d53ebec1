//! The parts of [`work`](crate::work) and [`run`](crate::run), for a program with an inbox of its own.
//!
//! Threads start only in a free function that names the inbox: in one that is generic over it, or in a
//! method, the check can't tell that what a thread is given may cross to it. So a program whose desks
//! have an inbox of another type writes two such functions itself, one around [`run_round`] and one
//! around [`run_tasks`], and proves there that its inbox may be shared and its seats may cross
//! (`proofs/Travels.antt` has the lemmas for the rest). All else is here.
//!
//! For a workload:
//!
//! ```text
//! let mut rounds = Rounds::new(alloc, &fabric, gate, workload, plan, workers);
//! for number in 0..rounds.count() {
//!     let start = rounds.begin::<N>(number)?;
//!     let results = run_round(rt, alloc, start)?;   // in threads
//!     rounds.take_in(results)?;
//! }
//! settle_crew(rt, alloc, fabric, rounds.end())
//! ```
//!
//! For a program's own tasks:
//!
//! ```text
//! let workers = task_workers(rt, alloc, &fabric, gate, wanted)?;
//! let results = run_tasks(rt, alloc, workers, tasks)?;   // in threads
//! let report = report_tasks(alloc, results)?;
//! settle_tasks(rt, alloc, fabric, report)
//! ```

pub use crate::counting_heap::{CountingHeap, WorkerResult};
pub use crate::crew_result::CrewResult;
pub use crate::report::{settle_crew, settle_tasks};
pub use crate::tally::WorkerCounts;
pub use crate::tasks::worker::{TaskReport, TaskResult, report_tasks, run_tasks, task_workers};
pub use crate::workloads::rounds::{RoundStart, Rounds, run_round};
pub use crate::workloads::rows::RoundResult;
pub use crate::workloads::worker::WorkerBuilder;
