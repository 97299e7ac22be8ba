//! How far an operator's command has come, in the state. No call takes memory.

ghost use Rattle.std.specs.Prelude.{◌≡◌, ◌+◌, true};
ghost use Rattle.vs_machine.specs.Kinds.Rebalancing.{with_round};
ghost use Rattle.vs_machine.specs.State as machine;
ghost use Rattle.vs_state.specs.Plain.{plain, operator};
ghost use Rattle.vs_core.specs.Keeps.{IsSound};
ghost use Rattle.vs_core.specs.Sending.{HasMovedRoom};

use vs_balance::Routes;
use vs_base::OpNo;
use vs_state::{OperatorTables, State};

/// An operator's command moves a bucket.
pub(crate) fn mark_moving(state: &mut State, operator: OpNo)
    requires operator { machine.has_operator (plain state.old) operator ≡ true }
    requires sound { IsSound state.old }
    ensures moving { plain state.new ≡ machine.put_operator (plain state.old) operator
        (record ((plain state.old).operator operator) { moving = true }) }
    ensures sound { IsSound state.new }
{
    state.operators[usize::from(operator.get()) - 1].moving = true;
}

/// A bucket of an operator's round was moved.
pub(crate) fn count_moved(state: &mut State, operator: OpNo)
    requires operator { machine.has_operator (plain state.old) operator ≡ true }
    requires sound { IsSound state.old }
    requires room { HasMovedRoom state.old operator }
    ensures moved { plain state.new ≡ machine.put_operator (plain state.old) operator
        (record ((plain state.old).operator operator) {
          moved = ((plain state.old).operator operator).moved + 1;
        }) }
    ensures sound { IsSound state.new }
{
    state.operators[usize::from(operator.get()) - 1].moved += 1;
}

/// What is left of the routes of an operator's round.
pub(crate) fn set_routes(state: &mut State, operator: OpNo, routes: Routes)
    requires operator { machine.has_operator (plain state.old) operator ≡ true }
    requires sound { IsSound state.old }
    ensures routes { plain state.new ≡ machine.put_operator (plain state.old) operator
        (record ((plain state.old).operator operator) { routes = routes.items }) }
    ensures sets { state.new.sets ≡ state.old.sets }
    ensures sound { IsSound state.new }
{
    let tables = &mut state.operators[usize::from(operator.get()) - 1];
    tables.routes = routes;
}

/// A further round of an operator's command begins.
pub(crate) fn begin_round(state: &mut State, operator: OpNo, routes: Routes)
    requires operator { machine.has_operator (plain state.old) operator ≡ true }
    requires sound { IsSound state.old }
    ensures begun { plain state.new ≡ machine.put_operator (plain state.old) operator
        (with_round ((plain state.old).operator operator) routes.items) }
    ensures sound { IsSound state.new }
{
    let tables = &mut state.operators[usize::from(operator.get()) - 1];
    count_round(tables, routes);
}

/// The same, in the tables of the operator. The number of rounds ends at 2^32 - 1.
fn count_round(tables: &mut OperatorTables, routes: Routes)
    ensures { operator tables.new ≡ with_round (operator tables.old) routes.items }
{
    tables.rounds = tables.rounds.saturating_add(1);
    tables.routes = routes;
    tables.moved = 0;
}
