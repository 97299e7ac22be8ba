//! An operator gives up a client's call.

ghost use Rattle.std.specs.Prelude.{◌≡◌, true, false, Ok, OnOk};
ghost use Rattle.vs_calls.specs.Progress as progress;
ghost use Rattle.vs_machine.specs.Kinds.Calls as kinds;
ghost use Rattle.vs_machine.specs.State as machine;
ghost use Rattle.vs_state.specs.Guard.{verdict};
ghost use Rattle.vs_state.specs.Plain.{plain};
ghost use Rattle.vs_core.specs.Keeps.{IsKnown, IsSound};
ghost use Rattle.vs_core.specs.Rooms.{HasAnswerRoom};

use crate::answers::{answer, reserve_answer};
use vs_base::{ClientNo, NoMemory, OpNo};
use vs_machine::CommandOutcome;
use vs_script::Command;
use vs_state::State;

/// Makes room for the operator's answer.
pub(crate) fn reserve_cut(state: &mut State, operator: OpNo) -> Result<(), NoMemory>
    requires possible { verdict (kinds.cut_call (plain state.old) operator) ≡ Ok tt }
    requires known { IsKnown (plain state.old) }
    requires sound { IsSound state.old }
    ensures ready { OnOk result (HasAnswerRoom state.new operator) }
    ensures same { plain state.new ≡ plain state.old }
    ensures sound { IsSound state.new }
{
    reserve_answer(state, operator)
}

/// Whether the client's call of this number is answered.
fn is_answered(state: &State, client: ClientNo, number: u32) -> bool
    ensures { result ≡ kinds.is_answered ((plain state.now).client client) number }
{
    match state.client(client) {
        Some(tables) => number as usize <= tables.outcomes.len(),
        None => number == 0,
    }
}

/// The client's call is given up. One that holds a reference keeps it.
fn cut_present(state: &mut State, client: ClientNo)
    requires client { machine.has_client (plain state.old) client ≡ true }
    requires sound { IsSound state.old }
    requires posted { progress.is_idle ((plain state.old).client client).present.stage ≡ false }
    ensures cut { plain state.new ≡ machine.put_client (plain state.old) client
        (machine.with_progress ((plain state.old).client client)
        (progress.cut ((plain state.old).client client).present)) }
    ensures operators { state.new.operators ≡ state.old.operators }
    ensures sound { IsSound state.new }
{
    state.clients[usize::from(client.get()) - 1].present.cut();
}

/// An operator gives up the client's call that its next command names, unless it was answered. It takes no memory.
pub(crate) fn cut(state: &mut State, operator: OpNo)
    requires possible { verdict (kinds.cut_call (plain state.old) operator) ≡ Ok tt }
    requires known { IsKnown (plain state.old) }
    requires sound { IsSound state.old }
    requires ready { HasAnswerRoom state.old operator }
    ensures step { kinds.cut_call (plain state.old) operator ≡ Ok (plain state.new) }
    ensures sound { IsSound state.new }
{
    let Some(Command::Cut(client, number)) = state.next_command(operator) else {
        return;
    };
    let (client, number) = (*client, *number);
    if is_answered(state, client, number) {
        answer(state, operator, CommandOutcome::Late);
        return;
    }
    cut_present(state, client);
    answer(state, operator, CommandOutcome::Done);
}
