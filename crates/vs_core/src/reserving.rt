//! How room is made for any one event of the kinds Begin, End, Take, Abort and Close.

ghost use Rattle.std.specs.Prelude.{◌≡◌, ◌≤◌, ◌<◌, ◌-◌, ◌^◌, ℕ, OnOk, Some};
ghost use Rattle.std.specs.Bool.{OnTrue};
ghost use Rattle.vs_script.specs.declared.command.Command.TheVariants as command;
ghost use Rattle.vs_machine.specs.State.{next_command};
ghost use Rattle.vs_state.specs.Plain.{plain, client};
ghost use Rattle.vs_state.specs.Sized.{IsSized};
ghost use Rattle.vs_core.specs.Keeps.{IsSound};
ghost use Rattle.vs_core.specs.References.{HasReferenceRoom};
ghost use Rattle.vs_core.specs.Reserving.{HasOutcomeRoom, IsReserved};

use crate::going_down::reserve_answers;
use crate::references::reserve_in;
use vs_base::{NoMemory, OpNo};
use vs_script::Command;
use vs_state::{ClientTables, State};

/// The end of the epochs of a connection.
const END: u64 = (1 << 63) - 1;

/// Makes room for one more reference at each set.
fn reserve_references(state: &mut State) -> Result<(), NoMemory>
    requires sound { IsSound state.old }
    ensures room { OnOk result ((x : ℕ) → HasReferenceRoom state.new x) }
    ensures same { plain state.new ≡ plain state.old }
    ensures sound { IsSound state.new }
{
    for index in 0..state.sets.len() {
        let tables = &mut state.sets[index];
        reserve_in(tables)?;
    }
    Ok(())
}

/// Makes room for one more outcome.
fn reserve_outcome(tables: &mut ClientTables) -> Result<(), NoMemory>
    ensures room { OnOk result (1 ≤ tables.new.outcomes.room) }
    ensures same { client tables.new ≡ client tables.old }
{
    tables.outcomes.reserve()
}

/// Makes room for one more outcome of each client.
fn reserve_outcomes(state: &mut State) -> Result<(), NoMemory>
    requires sound { IsSound state.old }
    ensures room { OnOk result ((c : ℕ) → HasOutcomeRoom state.new c) }
    ensures rest { state.new ≡ record state.old { clients = state.new.clients } }
    ensures same { plain state.new ≡ plain state.old }
    ensures sound { IsSound state.new }
{
    for index in 0..state.clients.len() {
        let tables = &mut state.clients[index];
        reserve_outcome(tables)?;
    }
    Ok(())
}

/// Whether the connection that the operator's next command closes, if it closes one, has an epoch after its present one.
fn can_close(state: &State, operator: OpNo) -> bool
    requires { IsSized state.now }
    ensures { OnTrue result ((x y : ℕ) → next_command ((plain state.now).operator operator) ≡ Some (command.Close x y)
        → ((plain state.now).link x y).epoch < 2 ^ 63 - 1) }
{
    match state.next_command(operator) {
        Some(Command::Close(from, to)) => state.epoch(*from, *to) < END,
        _ => true,
    }
}

/// Whether that holds of each operator.
fn can_close_next(state: &State) -> bool
    requires { IsSound state.now }
    ensures { OnTrue result ((o x y : ℕ) → next_command ((plain state.now).operator o) ≡ Some (command.Close x y)
        → ((plain state.now).link x y).epoch < 2 ^ 63 - 1) }
{
    for before in 0..state.operators.len() as u8 {
        let Some(operator) = OpNo::new(before + 1) else {
            unreachable!()
        };
        if !can_close(state, operator) {
            return false;
        }
    }
    true
}

/// Makes room for any one event of the kinds Begin, End, Take, Abort and Close. There is none where the epochs of a
/// connection that is to be closed are spent.
pub(crate) fn reserve_kinds(state: &mut State) -> Result<(), NoMemory>
    requires sound { IsSound state.old }
    ensures ready { OnOk result (IsReserved state.new) }
    ensures same { plain state.new ≡ plain state.old }
    ensures sound { IsSound state.new }
{
    if !can_close_next(state) {
        return Err(NoMemory);
    }
    reserve_references(state)?;
    reserve_outcomes(state)?;
    reserve_answers(state)
}
