//! Statuses of buckets, and why calls, messages and transfers are refused.

ghost use Rattle.std.specs.Prelude.{◌++◌, codes, OnOk};
ghost use Rattle.vs_machine.specs.Report.{number, word, status_text, cause_text, receiver_text, abort_text};
ghost use Rattle.vs_report.specs.Adds.{Adds};

use crate::words::{put_number, put_text};
use vs_base::{NoMemory, SetNo};
use vs_send::AbortCause;
use vs_space::{Cause, RecvFault, Status};

/// Appends a word and the number of a set.
pub fn put_with_set(out: &mut Vec<u8>, name: &[u8], set: SetNo) -> Result<(), NoMemory>
    ensures { OnOk result (Adds out.old out.new (name.now ++ number set)) }
{
    put_text(out, name)?;
    put_number(out, u64::from(set.get()))
}

pub fn put_status(out: &mut Vec<u8>, status: Status) -> Result<(), NoMemory>
    ensures { OnOk result (Adds out.old out.new (status_text status)) }
{
    match status {
        Status::Active => put_text(out, b"active"),
        Status::Pinned => put_text(out, b"pinned"),
        Status::Sending(to) => put_with_set(out, b"sending", to),
        Status::Receiving(from) => put_with_set(out, b"receiving", from),
        Status::Sent(to) => put_with_set(out, b"sent", to),
        Status::Garbage => put_text(out, b"garbage"),
    }
}

/// Appends why a set refused a call.
pub fn put_cause(out: &mut Vec<u8>, cause: Cause) -> Result<(), NoMemory>
    ensures { OnOk result (Adds out.old out.new (cause_text cause)) }
{
    match cause {
        Cause::WrongBucket(sent_to) => match sent_to {
            Some(set) => put_with_set(out, b"wrong", set),
            None => put_text(out, b"wrong"),
        },
        Cause::TransferInProgress(other) => put_with_set(out, b"transfer", other),
        Cause::BucketIsLocked => put_text(out, b"locked"),
        Cause::Down => put_text(out, b"down"),
    }
}

/// Appends why a receiver refused a message of a transfer.
fn put_receiver(out: &mut Vec<u8>, fault: RecvFault) -> Result<(), NoMemory>
    ensures { OnOk result (Adds out.old out.new (receiver_text fault)) }
{
    match fault {
        RecvFault::SetLocked => put_text(out, b"setlocked"),
        RecvFault::TooManyReceiving(number) => {
            put_text(out, b"receiving")?;
            put_number(out, u64::from(number))
        }
        RecvFault::WrongSender(set) => put_with_set(out, b"sender", set),
        RecvFault::WrongBucket(status) => match status {
            Some(status) => {
                put_text(out, b"wrong 1 ")?;
                put_status(out, status)
            }
            None => put_text(out, b"wrong 0"),
        },
    }
}

/// Appends why a transfer was given up.
pub fn put_abort(out: &mut Vec<u8>, cause: AbortCause) -> Result<(), NoMemory>
    ensures { OnOk result (Adds out.old out.new (abort_text cause)) }
{
    match cause {
        AbortCause::Drained => put_text(out, b"drained"),
        AbortCause::Receiver(fault) => put_receiver(out, fault),
        AbortCause::Closed => put_text(out, b"closed"),
        AbortCause::SetDown(set) => put_with_set(out, b"setdown", set),
        AbortCause::Stopped => put_text(out, b"stopped"),
    }
}
