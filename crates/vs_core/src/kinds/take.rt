//! A client takes the answer of its call.

ghost use Rattle.std.specs.Prelude.{◌≡◌, ◌≤◌, ◌<◌, ◌-◌, ◌^◌, ◌++◌, ◌∷◌, [], ◌||◌, not, nat_le, true, Ok, OnOk};
ghost use Rattle.vs_calls.specs.Progress.{is_refused, is_over, outcome_of, taken};
ghost use Rattle.vs_machine.specs.Kinds.Calls as kinds;
ghost use Rattle.vs_machine.specs.State as machine;
ghost use Rattle.vs_state.specs.Guard.{verdict};
ghost use Rattle.vs_state.specs.Plain.{plain, client};
ghost use Rattle.vs_core.specs.Keeps.{IsKnown, IsSound};
ghost use Rattle.vs_core.specs.Taking.{HasTakeRoom, IsTakeReady};

use vs_base::{ClientNo, NoMemory};
use vs_state::{ClientTables, State};

/// Makes room for the answer of the present call.
fn reserve_outcome(tables: &mut ClientTables) -> Result<(), NoMemory>
    requires { tables.old.present.number < 2 ^ 32 - 1 }
    ensures room { OnOk result (HasTakeRoom tables.new) }
    ensures same { client tables.new ≡ client tables.old }
{
    tables.outcomes.reserve()
}

/// Makes room for what a client takes.
pub(crate) fn reserve_take(state: &mut State, client: ClientNo) -> Result<(), NoMemory>
    requires possible { verdict (kinds.take (plain state.old) client) ≡ Ok tt }
    requires known { IsKnown (plain state.old) }
    requires sound { IsSound state.old }
    ensures ready { OnOk result (IsTakeReady state.new client) }
    ensures same { plain state.new ≡ plain state.old }
    ensures sound { IsSound state.new }
{
    let tables = &mut state.clients[usize::from(client.get()) - 1];
    reserve_outcome(tables)
}

/// The present call is answered, and the next one is the present.
fn take_outcome(tables: &mut ClientTables)
    requires tried { (not (is_refused (client tables.old).present.stage)
        || nat_le 128 (client tables.old).present.tries) ≡ true }
    requires over { (is_refused (client tables.old).present.stage
        || is_over (client tables.old).present.stage) ≡ true }
    requires room { HasTakeRoom tables.old }
    ensures { client tables.new ≡ record (client tables.old) {
      answered = (client tables.old).answered ++ outcome_of (client tables.old).present ∷ [];
      present = taken (client tables.old).present;
    } }
{
    tables.present.take(&mut tables.outcomes);
}

/// A client takes the answer of its call. It takes no memory.
pub(crate) fn take(state: &mut State, client: ClientNo)
    requires possible { verdict (kinds.take (plain state.old) client) ≡ Ok tt }
    requires known { IsKnown (plain state.old) }
    requires sound { IsSound state.old }
    requires ready { IsTakeReady state.old client }
    ensures step { kinds.take (plain state.old) client ≡ Ok (plain state.new) }
    ensures sound { IsSound state.new }
{
    let tables = &mut state.clients[usize::from(client.get()) - 1];
    take_outcome(tables);
}
