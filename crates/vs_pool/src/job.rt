//! Reads that are asked for, and what comes of each.

use vs_base::{BucketId, ClientNo, Items};
use vs_rows::{Answers, Ops, Rows};

/// A call of a client that reads one bucket: none of its operations changes rows.
#[derive(Drop)]
pub struct Job {
    pub client: ClientNo,
    pub call: u32,
    pub bucket: BucketId,
    pub ops: Ops,
}

/// What comes of a read.
#[derive(Drop)]
pub enum JobResult {
    /// What its operations answer on the rows of its bucket.
    Served(Answers),
    /// Nothing, as the word of its bucket is closed.
    Closed,
}

/// Reads, in the order in which they are asked for.
pub type Jobs = Items<Job>;

/// What comes of each read, in the order of the reads.
pub type Results = Items<JobResult>;

/// The rows of each bucket, from bucket 1 on.
pub type RowTable2 = Items<Rows>;
