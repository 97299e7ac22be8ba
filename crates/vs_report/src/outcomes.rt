//! What calls and commands are answered.

ghost use Rattle.std.specs.Prelude.{OnOk};
ghost use Rattle.vs_calls.specs.Outcomes.{outcome};
ghost use Rattle.vs_machine.specs.Report.{outcome_text, fault_text, command_text};
ghost use Rattle.vs_report.specs.Adds.{Adds};

use crate::answers::put_answers;
use crate::statuses::{put_abort, put_cause, put_status, put_with_set};
use crate::words::{put_number, put_text};
use vs_base::NoMemory;
use vs_calls::Outcome;
use vs_machine::{CommandFault, CommandOutcome};

/// Appends what a call was answered.
pub fn put_outcome(out: &mut Vec<u8>, answer: &Outcome) -> Result<(), NoMemory>
    ensures { OnOk result (Adds out.old out.new (outcome_text (outcome answer.now))) }
{
    match answer {
        Outcome::Reply(place, answers) => {
            put_text(out, b"reply")?;
            put_number(out, *place)?;
            put_text(out, b" ")?;
            put_answers(out, answers.as_slice())
        }
        Outcome::Lost => put_text(out, b"lost"),
        Outcome::Spent(cause) => {
            put_text(out, b"spent ")?;
            put_cause(out, *cause)
        }
    }
}

/// Appends why a command was refused.
fn put_fault(out: &mut Vec<u8>, fault: CommandFault) -> Result<(), NoMemory>
    ensures { OnOk result (Adds out.old out.new (fault_text fault)) }
{
    match fault {
        CommandFault::MoveToSelf => put_text(out, b"self"),
        CommandFault::Down(set) => put_with_set(out, b"down", set),
        CommandFault::WrongStatus(status) => match status {
            Some(status) => {
                put_text(out, b"status ")?;
                put_status(out, status)
            }
            None => put_text(out, b"status none"),
        },
        CommandFault::Pinned => put_text(out, b"pinned"),
        CommandFault::SetLocked(set) => put_with_set(out, b"setlocked", set),
        CommandFault::BucketIsLocked => put_text(out, b"locked"),
    }
}

/// Appends what a command was answered.
pub fn put_command_outcome(out: &mut Vec<u8>, answer: CommandOutcome) -> Result<(), NoMemory>
    ensures { OnOk result (Adds out.old out.new (command_text answer)) }
{
    match answer {
        CommandOutcome::Moved => put_text(out, b"moved"),
        CommandOutcome::Done => put_text(out, b"done"),
        CommandOutcome::Late => put_text(out, b"late"),
        CommandOutcome::WasDown => put_text(out, b"wasdown"),
        CommandOutcome::WasUp => put_text(out, b"wasup"),
        CommandOutcome::Balanced(rounds) => {
            put_text(out, b"balanced")?;
            put_number(out, u64::from(rounds))
        }
        CommandOutcome::Stuck(rounds) => {
            put_text(out, b"stuck")?;
            put_number(out, u64::from(rounds))
        }
        CommandOutcome::Refused(fault) => {
            put_text(out, b"refused ")?;
            put_fault(out, fault)
        }
        CommandOutcome::Aborted(cause) => {
            put_text(out, b"aborted ")?;
            put_abort(out, cause)
        }
    }
}
