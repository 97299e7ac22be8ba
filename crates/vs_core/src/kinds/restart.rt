//! A set is up again.

ghost use Rattle.std.specs.Prelude.{◌≡◌, true, false, Ok, IfOk, OnOk};
ghost use Rattle.vs_event.specs.declared.event.RestartBy.TheVariants.{Line};
ghost use Rattle.vs_machine.specs.Kinds.Stops as stops;
ghost use Rattle.vs_machine.specs.State as machine;
ghost use Rattle.vs_state.specs.Guard.{verdict};
ghost use Rattle.vs_state.specs.Plain.{plain};
ghost use Rattle.vs_core.specs.Keeps.{IsKnown, IsSound};
ghost use Rattle.vs_core.specs.Restarting.{kept_of, settled, AreLocks, HasRestartRoom, IsPendingReady, IsRestartReady};

use crate::answers::{answer, reserve_answer};
use crate::keeping::{reserve_change, settle};
use crate::locks::settled_locks;
use crate::restoring::raise;
use vs_base::{NoMemory, OpNo, SetNo};
use vs_event::RestartBy;
use vs_machine::CommandOutcome;
use vs_refs::Refs;
use vs_rows::Staged;
use vs_state::State;

/// What is made ahead.
#[derive(Drop)]
pub struct PreparedRestart {
    /// The references of the set, once it is up.
    pub refs: Refs,
    /// What a pending write changes and answers, where one takes effect.
    pub staged: Staged,
}

/// Makes room for the answer to an operator's command.
fn reserve_by(state: &mut State, set: SetNo, kept: bool, by: RestartBy) -> Result<(), NoMemory>
    requires possible { verdict (stops.restart (plain state.old) set kept by) ≡ Ok tt }
    requires sound { IsSound state.old }
    ensures room { OnOk result (HasRestartRoom state.new by) }
    ensures same { plain state.new ≡ plain state.old }
    ensures sets { state.new.sets ≡ state.old.sets }
    ensures histories { state.new.histories ≡ state.old.histories }
    ensures sound { IsSound state.new }
{
    match by {
        RestartBy::Line(operator) => reserve_answer(state, operator),
        RestartBy::Service => Ok(()),
    }
}

/// Makes room for what the pending change does, and for the answer, and the references of the set once it is up.
pub(crate) fn reserve_restart(
    state: &mut State,
    set: SetNo,
    kept: bool,
    by: RestartBy,
) -> Result<PreparedRestart, NoMemory>
    requires possible { verdict (stops.restart (plain state.old) set kept by) ≡ Ok tt }
    requires known { IsKnown (plain state.old) }
    requires sound { IsSound state.old }
    ensures ready { IfOk result (λ prepared. IsRestartReady state.new set kept by prepared) }
    ensures same { plain state.new ≡ plain state.old }
    ensures sound { IsSound state.new }
{
    let refs = settled_locks(state, set, kept)?;
    let staged = reserve_change(state, set, kept)?;
    reserve_by(state, set, kept, by)?;
    Ok(PreparedRestart { refs, staged })
}

/// A set that is down is up again, with its pending change where that is kept.
fn bring_up(state: &mut State, set: SetNo, kept: bool, prepared: PreparedRestart)
    requires set { machine.has_set (plain state.old) set ≡ true }
    requires down { (plain state.old).up set ≡ false }
    requires known { IsKnown (plain state.old) }
    requires sound { IsSound state.old }
    requires change { IsPendingReady state.old set (kept_of kept ((plain state.old).pending set)) prepared.staged }
    requires locks { AreLocks prepared.refs.items
        (settled (plain state.old) set (kept_of kept ((plain state.old).pending set))) set }
    ensures up { plain state.new ≡ stops.restarted (plain state.old) set kept ((plain state.old).pending set) }
    ensures operators { state.new.operators ≡ state.old.operators }
    ensures sound { IsSound state.new }
{
    let PreparedRestart { refs, staged } = prepared;
    settle(state, set, kept, staged);
    raise(state, set, refs);
}

/// An operator's command brings a set up, unless it is up.
fn restart_by(state: &mut State, set: SetNo, kept: bool, operator: OpNo, prepared: PreparedRestart)
    requires possible { verdict (stops.restart (plain state.old) set kept (Line operator)) ≡ Ok tt }
    requires known { IsKnown (plain state.old) }
    requires sound { IsSound state.old }
    requires ready { IsRestartReady state.old set kept (Line operator) prepared }
    ensures step { stops.restart (plain state.old) set kept (Line operator) ≡ Ok (plain state.new) }
    ensures sound { IsSound state.new }
{
    if state.up(set) {
        answer(state, operator, CommandOutcome::WasUp);
        return;
    }
    bring_up(state, set, kept, prepared);
    answer(state, operator, CommandOutcome::Done);
}

/// A set is up again: its pending change took effect, where that is kept, and buckets that are garbage there are locked
/// against reads. An operator's command is answered. It takes no memory.
pub(crate) fn restart(
    state: &mut State,
    set: SetNo,
    kept: bool,
    by: RestartBy,
    prepared: PreparedRestart,
)
    requires possible { verdict (stops.restart (plain state.old) set kept by) ≡ Ok tt }
    requires known { IsKnown (plain state.old) }
    requires sound { IsSound state.old }
    requires ready { IsRestartReady state.old set kept by prepared }
    ensures step { stops.restart (plain state.old) set kept by ≡ Ok (plain state.new) }
    ensures sound { IsSound state.new }
{
    match by {
        RestartBy::Line(operator) => restart_by(state, set, kept, operator, prepared),
        RestartBy::Service => bring_up(state, set, kept, prepared),
    }
}
