//! What a set answers to the message of another.

use crate::status::Status;
use vs_base::SetNo;

/// Why a receiver refuses a message of a transfer.
#[derive(Clone, Copy, Debug, PartialEq, Eq)]
pub enum RecvFault {
    /// The set is locked, and takes no new bucket.
    SetLocked,
    /// As many buckets are being received as may be: this number.
    TooManyReceiving(u32),
    /// The bucket is being received from this set.
    WrongSender(SetNo),
    /// The bucket has this status, or none.
    WrongBucket(Option<Status>),
}

/// What a set answers to a message.
#[derive(Clone, Copy)]
pub enum Reply {
    /// The rows, or the last message, were taken.
    Took,
    /// The message was refused.
    Not(RecvFault),
    /// The bucket's status, and whether a transfer of it is live.
    State(Option<Status>, bool),
}
