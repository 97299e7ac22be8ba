//! Reads that several workers serve from one queue.
#![tactic(auto)]

mod arrange;
mod job;
mod pool;
mod queue;
mod serve;
mod worker;

pub use job::{Job, JobResult, Jobs, Results, RowTable2};
pub use pool::{answer_all, serve_all};
pub use worker::Done;
