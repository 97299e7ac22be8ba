//! The journal of a set fails, and the set goes down.

ghost use Rattle.std.specs.Prelude.{◌≡◌, true, Ok, Some, IfOk};
ghost use Rattle.vs_record.specs.Change as changes;
ghost use Rattle.vs_machine.specs.Kinds.Stops as stops;
ghost use Rattle.vs_machine.specs.State as machine;
ghost use Rattle.vs_machine.specs.Tables.{put};
ghost use Rattle.vs_state.specs.Guard.{verdict};
ghost use Rattle.vs_state.specs.Plain.{plain};
ghost use Rattle.vs_core.specs.Keeps.{IsKnown, IsSound};
ghost use Rattle.vs_core.specs.Stopping.{IsFaultReady};

use crate::going_down::{go_down, reserve_going_down};
use crate::recordings::change_of;
use vs_base::{NoMemory, SetNo};
use vs_event::Recorded;
use vs_record::Change;
use vs_state::{SetTables, State};

/// The change that may be in the journal.
#[derive(Drop)]
pub struct PreparedFault {
    pub change: Change,
}

/// Copies the change that the event would record, and makes ready that the set goes down.
pub(crate) fn reserve_fault(
    state: &mut State,
    set: SetNo,
    number: u64,
    recorded: Recorded,
) -> Result<PreparedFault, NoMemory>
    requires possible { verdict (stops.fault (plain state.old) set number recorded) ≡ Ok tt }
    requires known { IsKnown (plain state.old) }
    requires sound { IsSound state.old }
    ensures ready { IfOk result (λ prepared. IsFaultReady state.new set number recorded prepared) }
    ensures same { plain state.new ≡ plain state.old }
    ensures sound { IsSound state.new }
{
    // The number takes no memory.
    let _ = number;
    let Some(change) = change_of(state, recorded)? else {
        unreachable!()
    };
    reserve_going_down(state, set)?;
    Ok(PreparedFault { change })
}

/// The journal of these tables' set may have this change, since its last fault, which has this number.
fn mark_in(tables: &mut SetTables, number: u64, change: Change)
    ensures { tables.new ≡ record tables.old { pending = Some change; last_fault = number } }
{
    tables.pending = Some(change);
    tables.last_fault = number;
}

/// The same, in the state.
fn mark(state: &mut State, set: SetNo, number: u64, change: Change)
    requires set { machine.has_set (plain state.old) set ≡ true }
    requires sound { IsSound state.old }
    ensures marked { plain state.new ≡ record (plain state.old) {
      pending = put (plain state.old).pending set (Some (changes.change change));
      last_fault = put (plain state.old).last_fault set number;
    } }
    ensures sound { IsSound state.new }
{
    let tables = &mut state.sets[usize::from(set.get()) - 1];
    mark_in(tables, number, change);
}

/// The set goes down, and whether its journal has the change is left open.
pub(crate) fn fault(
    state: &mut State,
    set: SetNo,
    number: u64,
    recorded: Recorded,
    prepared: PreparedFault,
)
    requires possible { verdict (stops.fault (plain state.old) set number recorded) ≡ Ok tt }
    requires known { IsKnown (plain state.old) }
    requires sound { IsSound state.old }
    requires ready { IsFaultReady state.old set number recorded prepared }
    ensures step { stops.fault (plain state.old) set number recorded ≡ Ok (plain state.new) }
    ensures sound { IsSound state.new }
{
    // What the event would record was copied ahead.
    let _ = recorded;
    go_down(state, set);
    mark(state, set, number, prepared.change);
}
