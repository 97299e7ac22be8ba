//! An operator's command begins to move a bucket.

ghost use Rattle.std.specs.Prelude.{◌≡◌, Ok, OnOk};
ghost use Rattle.vs_machine.specs.Kinds.Sender as sender;
ghost use Rattle.vs_machine.specs.State as machine;
ghost use Rattle.vs_state.specs.Guard.{verdict};
ghost use Rattle.vs_state.specs.Plain.{plain};
ghost use Rattle.vs_core.specs.Keeps.{IsKnown, IsSound};
ghost use Rattle.vs_core.specs.Sending.{IsStartReady};

use crate::answers::{answer, reserve_answer};
use crate::commands::mark_moving;
use crate::moves;
use vs_base::{NoMemory, OpNo};
use vs_machine::CommandOutcome;
use vs_script::Command;
use vs_send::By;
use vs_state::State;

/// Makes room for the transfer, or for the answer.
pub(crate) fn reserve_start(state: &mut State, operator: OpNo) -> Result<(), NoMemory>
    requires possible { verdict (sender.start (plain state.old) operator) ≡ Ok tt }
    requires known { IsKnown (plain state.old) }
    requires sound { IsSound state.old }
    ensures ready { OnOk result (IsStartReady state.new operator) }
    ensures same { plain state.new ≡ plain state.old }
    ensures sound { IsSound state.new }
{
    let Some(Command::Send(_, from, _)) = state.next_command(operator) else {
        unreachable!()
    };
    let from = *from;
    reserve_answer(state, operator)?;
    moves::reserve_begin(state, from)
}

/// A transfer begins by an operator's command, or the command is refused.
pub(crate) fn start(state: &mut State, operator: OpNo)
    requires possible { verdict (sender.start (plain state.old) operator) ≡ Ok tt }
    requires known { IsKnown (plain state.old) }
    requires sound { IsSound state.old }
    requires ready { IsStartReady state.old operator }
    ensures step { sender.start (plain state.old) operator ≡ Ok (plain state.new) }
    ensures sound { IsSound state.new }
{
    let Some(Command::Send(bucket, from, to)) = state.next_command(operator) else {
        return;
    };
    let (bucket, from, to) = (*bucket, *from, *to);
    if let Some(fault) = state.send_fault(bucket, from, to) {
        answer(state, operator, CommandOutcome::Refused(fault));
        return;
    }
    moves::begin(state, from, bucket, to, By::Command(operator));
    mark_moving(state, operator);
}
