//! What a report says of histories and answers, each with its line.

use vs_base::{BucketId, CallId, Items};
use vs_rows::{Answers, Ops, Rows};

/// A call that stands in a history, and the line that says so.
#[derive(Drop)]
pub struct AuditEntry {
    pub line: u32,
    pub id: CallId,
    pub ops: Ops,
    pub answers: Answers,
    pub place: u64,
}

/// Entries of one history, in the order of their lines.
pub type AuditEntries = Items<AuditEntry>;

/// The history of a bucket.
#[derive(Drop)]
pub struct AuditHistory {
    pub bucket: BucketId,
    /// The rows at opening.
    pub base: Rows,
    pub writes: AuditEntries,
    pub reads: AuditEntries,
}

/// Histories, in the order of their lines.
pub type AuditHistories = Items<AuditHistory>;

/// What became of a call.
#[derive(Drop)]
pub enum LineOutcome {
    /// It was answered, at this place and with these answers.
    Reply(u64, Answers),
    Lost,
    Spent,
    Open,
}

/// What the line of a call says.
#[derive(Drop)]
pub struct CallLine {
    pub line: u32,
    pub id: CallId,
    pub outcome: LineOutcome,
}

/// Lines of calls, in their order.
pub type CallLines = Items<CallLine>;

/// What a report says of histories and answers.
#[derive(Drop)]
pub struct Account {
    /// The number of buckets of the cluster.
    pub buckets: u32,
    pub histories: AuditHistories,
    pub calls: CallLines,
}
