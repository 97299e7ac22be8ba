//! How an operator's command is answered.

ghost use Rattle.std.specs.Prelude.{◌≡◌, ◌≤◌, ◌++◌, ◌∷◌, [], true, OnOk};
ghost use Rattle.vs_machine.specs.State as machine;
ghost use Rattle.vs_state.specs.Plain.{plain, operator};
ghost use Rattle.vs_core.specs.Keeps.{IsSound};
ghost use Rattle.vs_core.specs.Rooms.{HasAnswerRoom};

use vs_balance::Routes;
use vs_base::{NoMemory, OpNo};
use vs_machine::{CommandFault, CommandOutcome};
use vs_send::AbortCause;
use vs_space::{RecvFault, Status};
use vs_state::{CommandOutcomes, OperatorTables, State};

/// Makes room for one more answer to an operator.
pub(crate) fn reserve_answer(state: &mut State, operator: OpNo) -> Result<(), NoMemory>
    requires operator { machine.has_operator (plain state.old) operator ≡ true }
    requires sound { IsSound state.old }
    ensures room { OnOk result (HasAnswerRoom state.new operator) }
    ensures same { plain state.new ≡ plain state.old }
    ensures sets { state.new.sets ≡ state.old.sets }
    ensures histories { state.new.histories ≡ state.old.histories }
    ensures sound { IsSound state.new }
{
    let tables = &mut state.operators[usize::from(operator.get()) - 1];
    tables.outcomes.reserve()
}

/// The next command is answered. It takes no memory.
pub(crate) fn answer_next(tables: &mut OperatorTables, outcome: CommandOutcome)
    requires { 1 ≤ tables.old.outcomes.room }
    ensures { operator tables.new ≡ machine.answer (operator tables.old) outcome }
{
    push(&mut tables.outcomes, outcome);
    tables.moving = false;
    tables.rounds = 0;
    tables.routes = Routes::new(tables.routes.allocator());
    tables.moved = 0;
}

/// Adds an outcome. It takes no memory.
fn push(outcomes: &mut CommandOutcomes, outcome: CommandOutcome)
    requires { 1 ≤ outcomes.old.room }
    ensures { outcomes.new.items ≡ outcomes.old.items ++ outcome ∷ [] }
{
    // What an outcome is made of has to be named where one is moved into a list.
    let _parts: Option<(CommandFault, AbortCause, Status, RecvFault)> = None;
    outcomes.push(outcome);
}

/// The next command of an operator is answered. It takes no memory.
pub(crate) fn answer(state: &mut State, operator: OpNo, outcome: CommandOutcome)
    requires operator { machine.has_operator (plain state.old) operator ≡ true }
    requires sound { IsSound state.old }
    requires room { HasAnswerRoom state.old operator }
    ensures answered { plain state.new ≡ machine.put_operator (plain state.old) operator
        (machine.answer ((plain state.old).operator operator) outcome) }
    ensures sound { IsSound state.new }
{
    let tables = &mut state.operators[usize::from(operator.get()) - 1];
    answer_next(tables, outcome);
}
