//! Why an event can't happen.

ghost use Rattle.std.specs.Prelude.{◌++◌, OnOk};
ghost use Rattle.vs_machine.specs.Report.{number};
ghost use Rattle.vs_report.specs.Adds.{Adds};
ghost use Rattle.vs_report.specs.ReasonText.{reason_text};

use crate::statuses::{put_status, put_with_set};
use crate::words::{put_number, put_text};
use vs_base::NoMemory;
use vs_event::Reason;
use vs_space::Status;

fn put_with_number(out: &mut Vec<u8>, name: &[u8], n: u64) -> Result<(), NoMemory>
    ensures { OnOk result (Adds out.old out.new (name.now ++ number n)) }
{
    put_text(out, name)?;
    put_number(out, n)
}

fn put_unfit(out: &mut Vec<u8>, status: Option<Status>) -> Result<(), NoMemory>
    ensures { OnOk result (Adds out.old out.new (reason_text (Reason.Unfit status))) }
{
    match status {
        Some(status) => {
            put_text(out, b"Unfit ")?;
            put_status(out, status)
        }
        None => put_text(out, b"Unfit none"),
    }
}

/// Appends the name of a reason and, where it has one, its number or its status.
pub fn put_reason(out: &mut Vec<u8>, reason: &Reason) -> Result<(), NoMemory>
    ensures { OnOk result (Adds out.old out.new (reason_text reason.now)) }
{
    match reason {
        Reason::Unknown => put_text(out, b"Unknown"),
        Reason::NoCommand => put_text(out, b"NoCommand"),
        Reason::Stage => put_text(out, b"Stage"),
        Reason::TriesSpent => put_text(out, b"TriesSpent"),
        Reason::TriesLeft => put_text(out, b"TriesLeft"),
        Reason::NotReached => put_text(out, b"NotReached"),
        Reason::NoRoute => put_text(out, b"NoRoute"),
        Reason::Live => put_text(out, b"Live"),
        Reason::NoTransfer => put_text(out, b"NoTransfer"),
        Reason::Unreferenced => put_text(out, b"Unreferenced"),
        Reason::TurnsSpent => put_text(out, b"TurnsSpent"),
        Reason::Referenced(n) => put_with_number(out, b"Referenced", u64::from(*n)),
        Reason::Down(set) => put_with_set(out, b"Down", *set),
        Reason::Standing => put_text(out, b"Standing"),
        Reason::Empty => put_text(out, b"Empty"),
        Reason::Unfit(status) => put_unfit(out, *status),
        Reason::NoRows => put_text(out, b"NoRows"),
        Reason::Rows(n) => put_with_number(out, b"Rows", *n),
        Reason::Moving(bucket) => put_with_number(out, b"Moving", u64::from(bucket.get())),
        Reason::FaultNumber(n) => put_with_number(out, b"FaultNumber", *n),
        Reason::NoRecord => put_text(out, b"NoRecord"),
        Reason::Up(set) => put_with_set(out, b"Up", *set),
        Reason::NotFinished => put_text(out, b"NotFinished"),
        Reason::NoPending => put_text(out, b"NoPending"),
    }
}
