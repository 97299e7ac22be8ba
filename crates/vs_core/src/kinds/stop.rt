//! An operator stops a set.

ghost use Rattle.std.specs.Prelude.{◌≡◌, Ok, OnOk};
ghost use Rattle.vs_machine.specs.Kinds.Stops as stops;
ghost use Rattle.vs_state.specs.Guard.{verdict};
ghost use Rattle.vs_state.specs.Plain.{plain};
ghost use Rattle.vs_core.specs.Keeps.{IsKnown, IsSound};
ghost use Rattle.vs_core.specs.Stopping.{IsStopReady};

use crate::answers::answer;
use crate::going_down::{go_down, reserve_going_down};
use vs_base::{NoMemory, OpNo};
use vs_machine::CommandOutcome;
use vs_script::Command;
use vs_state::State;

/// Makes ready that the set which the operator's next command names goes down.
pub(crate) fn reserve_stop(state: &mut State, operator: OpNo) -> Result<(), NoMemory>
    requires possible { verdict (stops.stop (plain state.old) operator) ≡ Ok tt }
    requires known { IsKnown (plain state.old) }
    requires sound { IsSound state.old }
    ensures ready { OnOk result (IsStopReady state.new operator) }
    ensures same { plain state.new ≡ plain state.old }
    ensures sound { IsSound state.new }
{
    let Some(Command::Stop(set)) = state.next_command(operator) else {
        unreachable!()
    };
    let set = *set;
    reserve_going_down(state, set)
}

/// The set that the operator's next command names goes down, unless it is down.
pub(crate) fn stop(state: &mut State, operator: OpNo)
    requires possible { verdict (stops.stop (plain state.old) operator) ≡ Ok tt }
    requires known { IsKnown (plain state.old) }
    requires sound { IsSound state.old }
    requires ready { IsStopReady state.old operator }
    ensures step { stops.stop (plain state.old) operator ≡ Ok (plain state.new) }
    ensures sound { IsSound state.new }
{
    let Some(Command::Stop(set)) = state.next_command(operator) else {
        return;
    };
    let set = *set;
    if !state.up(set) {
        answer(state, operator, CommandOutcome::WasDown);
        return;
    }
    go_down(state, set);
    answer(state, operator, CommandOutcome::Done);
}
