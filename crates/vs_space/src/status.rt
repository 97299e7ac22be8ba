//! Statuses of buckets, and what they answer to calls.

use vs_base::SetNo;

/// The status of a bucket at a set, as in the space `_bucket` of vshard.
#[derive(Clone, Copy, Debug, PartialEq, Eq)]
pub enum Status {
    /// It takes reads and writes.
    Active,
    /// It takes reads and writes, and may not be moved.
    Pinned,
    /// It is being moved to this set, and takes reads.
    Sending(SetNo),
    /// It is being moved here from this set, and takes no calls.
    Receiving(SetNo),
    /// It was moved to this set, and takes no calls.
    Sent(SetNo),
    /// Its rows are to be deleted, and it takes no calls.
    Garbage,
}

/// The six statuses, without their sets.
#[derive(Clone, Copy)]
pub enum StatusKind {
    Active,
    Pinned,
    Sending,
    Receiving,
    Sent,
    Garbage,
}

/// Why a set refuses a call.
#[derive(Clone, Copy, Debug, PartialEq, Eq)]
pub enum Cause {
    /// The bucket isn't here; if it was sent, with the set that it was sent to.
    WrongBucket(Option<SetNo>),
    /// The bucket is being moved to or from this set.
    TransferInProgress(SetNo),
    /// A transfer waits for the writes that are running, and lets no further one begin.
    BucketIsLocked,
    /// The set is down.
    Down,
}

/// What a set that is up answers to a call.
#[derive(Clone, Copy, PartialEq, Eq)]
pub enum Verdict {
    Granted,
    Refused(Cause),
}
