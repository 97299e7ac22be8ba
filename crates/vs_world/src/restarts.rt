//! Sets that are started again.

ghost use Rattle.std.specs.Prelude.{◌≡◌, ◌≢◌, ◌≤◌, ℕ, false, Ok, Err, IfOk, IfErr, OnOk, OnErr};
ghost use Rattle.vs_core.specs.Core.{means};
ghost use Rattle.vs_event.specs.declared.event.Event.TheVariants as events_of;
ghost use Rattle.vs_machine.specs.Step.{step};
ghost use Rattle.vs_state.specs.Guard.{verdict};
ghost use Rattle.vs_stores.specs.Stores.{HasSet};
ghost use Rattle.vs_world.specs.Played.{IsAdvanced};
ghost use Rattle.vs_world.specs.Restarts.{IsRestartCause};
ghost use Rattle.vs_world.specs.Steps.{IsStepCause};
ghost use Rattle.vs_world.specs.Touched.{IsTouched, IsStill, IsFit, IsUnfit};
ghost use Rattle.vs_world.specs.Whole.{IsWhole, shown, played_in};
ghost use Rattle.vs_world.specs.World.{IsLengthAt, KeepsDisks};

use crate::fault::StepFault;
use crate::opening::Opening;
use crate::steps::carry_out;
use std::alloc::Global;
use vs_base::SetNo;
use vs_core::Core;
use vs_disk::{Disk, DiskFailed};
use vs_event::{Event, Reason, RestartBy, Trace};
use vs_machine::{given_inputs, recorded_changes};
use vs_stores::{AppendFault, Stores};

/// Starts a set that is down again as its journal shows, and adds the restart to the list, in which it has room. It answers
/// whether a pending change was kept.
pub fn restart<D: Disk + Drop>(
    core: &mut Core,
    stores: &mut Stores<D>,
    events: &mut Trace,
    opening: &Opening,
    set: SetNo,
    by: RestartBy,
) -> Result<bool, StepFault>
    requires whole { IsWhole core.old events.old opening.now stores.old }
    requires possible { verdict (step (means core.old) (events_of.Restart set false by)) ≡ Ok tt }
    requires down { (means core.old).up set ≡ false }
    requires room { 1 ≤ events.old.room }
    ensures whole { IsWhole core.new events.new opening.now stores.new }
    ensures ok { IfOk result (λ kept. IsAdvanced (played_in core.old events.old opening.now)
        (played_in core.new events.new opening.now) (events_of.Restart set kept by)) }
    ensures other { (reason : Reason) → result ≢ Err (StepFault.NotNow reason) }
    ensures cause { IfErr result (IsRestartCause D.told
        (shown core.old events.old opening.now stores.old)
        (shown core.new events.new opening.now stores.new) set by) }
    ensures disks { KeepsDisks D.told
        (shown core.old events.old opening.now stores.old)
        (shown core.new events.new opening.now stores.new) (events_of.Restart set false by) }
{
    recorded_changes();
    given_inputs();
    let kept = match stores.reopen(set) {
        Ok(kept) => kept,
        Err(DiskFailed) => return Err(StepFault::OpenFault(set)),
    };
    carry_out(core, events, &Event::Restart(set, kept, by))?;
    stores.forget_last(set);
    Ok(kept)
}

/// Makes the journal of a set that is down fit the restart that is given: a kept change that it lacks is appended, and one that
/// isn't kept is taken out.
fn make_fit<D: Disk + Drop>(
    alloc: Global,
    core: &Core,
    stores: &mut Stores<D>,
    set: SetNo,
    kept: bool,
) -> Result<(), StepFault>
    requires has { HasSet stores.old set }
    requires still { IsStill (means core.now) stores.old set }
    ensures touched { IsTouched (means core.now) stores.old stores.new set }
    ensures fit { OnOk result (IsFit (means core.now) stores.new set kept) }
    ensures still { OnErr result (IsStill (means core.now) stores.new set) }
    ensures cause { IfErr result (IsUnfit (means core.now) stores.old stores.new set kept) }
{
    recorded_changes();
    match core.state().pending(set) {
        None => match stores.reopen(set) {
            Ok(_) => Ok(()),
            Err(DiskFailed) => Err(StepFault::OpenFault(set)),
        },
        Some(change) if kept => match stores.keep_pending(alloc, set, change) {
            Ok(()) => Ok(()),
            Err(AppendFault::Full(_)) => Err(StepFault::Full(set)),
            Err(AppendFault::DiskFault) => Err(StepFault::OpenFault(set)),
            Err(AppendFault::NoMemory) => Err(StepFault::NoMemory),
        },
        Some(_) => match stores.drop_pending(set) {
            Ok(()) => Ok(()),
            Err(DiskFailed) => Err(StepFault::OpenFault(set)),
        },
    }
}

/// Starts a set that is down again by the restart that is given, and adds it to the list, in which it has room. Its journal is
/// made to fit it first.
pub fn restart_as<D: Disk + Drop>(
    core: &mut Core,
    stores: &mut Stores<D>,
    events: &mut Trace,
    opening: &Opening,
    set: SetNo,
    kept: bool,
    by: RestartBy,
) -> Result<(), StepFault>
    requires whole { IsWhole core.old events.old opening.now stores.old }
    requires possible { verdict (step (means core.old) (events_of.Restart set kept by)) ≡ Ok tt }
    requires down { (means core.old).up set ≡ false }
    requires room { 1 ≤ events.old.room }
    ensures whole { IsWhole core.new events.new opening.now stores.new }
    ensures ok { OnOk result (IsAdvanced (played_in core.old events.old opening.now)
        (played_in core.new events.new opening.now) (events_of.Restart set kept by)) }
    ensures other { (reason : Reason) → result ≢ Err (StepFault.NotNow reason) }
    ensures cause { IfErr result (IsStepCause D.told
        (shown core.old events.old opening.now stores.old)
        (shown core.new events.new opening.now stores.new) (events_of.Restart set kept by)) }
    ensures length { (x : ℕ) → result ≡ Err (StepFault.Full x)
        → IsLengthAt D.told (shown core.new events.new opening.now stores.new) x }
    ensures disks { KeepsDisks D.told
        (shown core.old events.old opening.now stores.old)
        (shown core.new events.new opening.now stores.new) (events_of.Restart set kept by) }
{
    recorded_changes();
    given_inputs();
    let event = Event::Restart(set, kept, by);
    core.reserve_for(&event)?;
    make_fit(events.allocator(), core, stores, set, kept)?;
    events.push(event);
    core.apply(&event);
    Ok(())
}
