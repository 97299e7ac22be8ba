//! An operator pins or unpins a bucket.

ghost use Rattle.std.specs.Prelude.{◌≡◌, true, Ok, OnOk, None};
ghost use Rattle.vs_machine.specs.Kinds.Pinning as pinning;
ghost use Rattle.vs_machine.specs.State as machine;
ghost use Rattle.vs_state.specs.Guard.{verdict};
ghost use Rattle.vs_state.specs.Plain.{plain};
ghost use Rattle.vs_core.specs.Keeps.{IsKnown, IsSound};
ghost use Rattle.vs_core.specs.Pins.{MayTurn};
ghost use Rattle.vs_core.specs.Rooms.{HasAnswerRoom};

use crate::answers::{answer, reserve_answer};
use crate::pins::turn;
use vs_base::{BucketId, NoMemory, OpNo, SetNo};
use vs_machine::{CommandFault, CommandOutcome};
use vs_script::Command;
use vs_space::Status;
use vs_state::State;

/// Makes room for the operator's answer.
pub(crate) fn reserve_pin(state: &mut State, operator: OpNo) -> Result<(), NoMemory>
    requires possible { verdict (pinning.pin (plain state.old) operator) ≡ Ok tt }
    requires known { IsKnown (plain state.old) }
    requires sound { IsSound state.old }
    ensures ready { OnOk result (HasAnswerRoom state.new operator) }
    ensures same { plain state.new ≡ plain state.old }
    ensures sound { IsSound state.new }
{
    reserve_answer(state, operator)
}

/// A bucket gets this status at a set, or the command is refused for this fault.
fn pin_to(
    state: &mut State,
    operator: OpNo,
    bucket: BucketId,
    set: SetNo,
    status: Status,
    fault: Option<CommandFault>,
)
    requires operator { machine.has_operator (plain state.old) operator ≡ true }
    requires set { machine.has_set (plain state.old) set ≡ true }
    requires bucket { machine.has_bucket (plain state.old) bucket ≡ true }
    requires sound { IsSound state.old }
    requires room { HasAnswerRoom state.old operator }
    requires may { fault ≡ None → MayTurn (((plain state.old).bucket bucket).entry set) status }
    ensures step { plain state.new ≡ pinning.after_pin (plain state.old) operator
        (record { bucket = bucket; at = set; status = status }) fault }
    ensures sound { IsSound state.new }
{
    if let Some(fault) = fault {
        answer(state, operator, CommandOutcome::Refused(fault));
        return;
    }
    turn(state, set, bucket, status);
    answer(state, operator, CommandOutcome::Done);
}

/// A bucket is pinned or unpinned by the operator's next command, or the command is refused.
pub(crate) fn pin(state: &mut State, operator: OpNo)
    requires possible { verdict (pinning.pin (plain state.old) operator) ≡ Ok tt }
    requires known { IsKnown (plain state.old) }
    requires sound { IsSound state.old }
    requires ready { HasAnswerRoom state.old operator }
    ensures step { pinning.pin (plain state.old) operator ≡ Ok (plain state.new) }
    ensures sound { IsSound state.new }
{
    match state.next_command(operator) {
        Some(Command::Pin(bucket, set)) => {
            let (bucket, set) = (*bucket, *set);
            let fault = state.pin_fault(bucket, set);
            pin_to(state, operator, bucket, set, Status::Pinned, fault);
        }
        Some(Command::Unpin(bucket, set)) => {
            let (bucket, set) = (*bucket, *set);
            let fault = state.unpin_fault(bucket, set);
            pin_to(state, operator, bucket, set, Status::Active, fault);
        }
        // The next command is one of these.
        _ => {}
    }
}
