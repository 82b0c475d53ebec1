//! The workloads of `poolctl work`: what their workers do, round after round. A program's own tasks need none of it.

pub(crate) mod handing;
pub(crate) mod plan;
pub(crate) mod rounds;
pub(crate) mod rows;
pub(crate) mod worker;
pub(crate) mod workload;
