//! An operator closes a connection.

ghost use Rattle.std.specs.Prelude.{◌≡◌, Ok, OnOk};
ghost use Rattle.vs_machine.specs.Kinds.Connections as connections;
ghost use Rattle.vs_state.specs.Guard.{verdict};
ghost use Rattle.vs_state.specs.Plain.{plain};
ghost use Rattle.vs_core.specs.Keeps.{IsKnown, IsSound};
ghost use Rattle.vs_core.specs.Closing.{IsCloseReady};

use crate::answers::{answer, reserve_answer};
use crate::posting;
use vs_base::{NoMemory, OpNo};
use vs_machine::CommandOutcome;
use vs_script::Command;
use vs_state::State;

/// The end of the epochs of a connection.
const END: u64 = (1 << 63) - 1;

/// Makes room for the answer. There is none where the epochs of the connection are spent.
pub(crate) fn reserve_close(state: &mut State, operator: OpNo) -> Result<(), NoMemory>
    requires possible { verdict (connections.close (plain state.old) operator) ≡ Ok tt }
    requires known { IsKnown (plain state.old) }
    requires sound { IsSound state.old }
    ensures ready { OnOk result (IsCloseReady state.new operator) }
    ensures same { plain state.new ≡ plain state.old }
    ensures sound { IsSound state.new }
{
    let Some(Command::Close(from, to)) = state.next_command(operator) else {
        unreachable!()
    };
    if state.epoch(*from, *to) >= END {
        return Err(NoMemory);
    }
    reserve_answer(state, operator)
}

/// An operator closes the connection that its next command names: what lies in its lines is gone. It takes no memory.
pub(crate) fn close(state: &mut State, operator: OpNo)
    requires possible { verdict (connections.close (plain state.old) operator) ≡ Ok tt }
    requires known { IsKnown (plain state.old) }
    requires sound { IsSound state.old }
    requires ready { IsCloseReady state.old operator }
    ensures step { connections.close (plain state.old) operator ≡ Ok (plain state.new) }
    ensures sound { IsSound state.new }
{
    let Some(Command::Close(from, to)) = state.next_command(operator) else {
        return;
    };
    let (from, to) = (*from, *to);
    posting::close(state, from, to);
    answer(state, operator, CommandOutcome::Done);
}
