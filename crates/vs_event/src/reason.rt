//! Why an event can't happen.

use vs_base::{BucketId, SetNo};
use vs_space::Status;

/// Why an event can't happen in a state of the cluster.
#[derive(Clone, Copy, Debug)]
pub enum Reason {
    /// A client, operator, set or bucket that isn't in the cluster.
    Unknown,
    /// The client or operator has no such next call or command.
    NoCommand,
    /// The call, the command or the transfer is at another stage.
    Stage,
    /// The call was tried as often as it may be.
    TriesSpent,
    /// The refused call may still be tried again.
    TriesLeft,
    /// The call to be cut was not begun.
    NotReached,
    /// The round has nothing left to move between these sets.
    NoRoute,
    /// A transfer or an ask stands, or as many hauls as may be.
    Live,
    /// There is no such transfer.
    NoTransfer,
    /// No write of the bucket is running.
    Unreferenced,
    /// The transfer waited as long as it may.
    TurnsSpent,
    /// This number of calls still hold references to the bucket.
    Referenced(u32),
    /// The set is down.
    Down(SetNo),
    /// Nothing stands against the transfer, and it goes on.
    Standing,
    /// No message or reply is in the line.
    Empty,
    /// The bucket has this status, or none.
    Unfit(Option<Status>),
    /// The bucket has no rows.
    NoRows,
    /// The bucket has this number of rows.
    Rows(u64),
    /// The bucket is being moved.
    Moving(BucketId),
    /// The fault number isn't above this one, the set's last.
    FaultNumber(u64),
    /// The event would record nothing at the set.
    NoRecord,
    /// The set is up.
    Up(SetNo),
    /// Calls or commands are not answered yet.
    NotFinished,
    /// No entry is pending at the set.
    NoPending,
}
