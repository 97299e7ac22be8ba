//! Events that are played over the journals.

ghost use Rattle.std.specs.Prelude.{◌≡◌, ◌≢◌, ◌≤◌, ℕ, ◌++◌, ◌∷◌, [], true, false, Ok, Err, Some, IfOk, IfErr, OnOk, OnErr};
ghost use Rattle.vs_core.specs.Core.{means};
ghost use Rattle.vs_core.specs.Records as recorded;
ghost use Rattle.vs_event.specs.Recorded.{event_of};
ghost use Rattle.vs_event.specs.declared.event.Event.TheVariants as events_of;
ghost use Rattle.vs_machine.specs.Kinds.Stops.{is_next_fault};
ghost use Rattle.vs_machine.specs.State.{has_set};
ghost use Rattle.vs_machine.specs.Step.{step};
ghost use Rattle.vs_state.specs.Guard.{verdict};
ghost use Rattle.vs_stores.specs.Stores.{faults_at, stores_of, HasSet};
ghost use Rattle.vs_world.specs.Began.{begun};
ghost use Rattle.vs_world.specs.Played.{IsAdvanced};
ghost use Rattle.vs_world.specs.Restarts.{IsRestartCause};
ghost use Rattle.vs_world.specs.Steps.{HasRoom, IsStepCause, fault_number as number_of};
ghost use Rattle.vs_world.specs.Rising.{RaisesNone};
ghost use Rattle.vs_world.specs.Whole.{IsWhole, shown, played_in};
ghost use Rattle.vs_world.specs.World.{IsLengthAt, KeepsDisks};

use crate::fault::StepFault;
use crate::opening::Opening;
use crate::restarts::{restart, restart_as};
use std::alloc::Global;
use vs_base::{NoMemory, SetNo};
use vs_core::{Core, Recording};
use vs_disk::Disk;
use vs_event::{Event, Reason, Recorded, RestartBy, Trace};
use vs_machine::{given_inputs, recorded_changes};
use vs_stores::{AppendFault, Stores};

/// Carries out an event that is possible, and adds it to the list, in which it has room. It writes nothing.
pub fn carry_out(core: &mut Core, events: &mut Trace, event: &Event) -> Result<(), NoMemory>
    requires possible { verdict (step (means core.old) event.now) ≡ Ok tt }
    requires room { 1 ≤ events.old.room }
    ensures step { OnOk result (step (means core.old) event.now ≡ Ok (means core.new)) }
    ensures events { OnOk result (events.new.items ≡ events.old.items ++ event.now ∷ []) }
    ensures same { OnErr result (means core.new ≡ means core.old) }
    ensures none { OnErr result (events.new ≡ events.old) }
    ensures unreserved { core.new.is_reserved ≡ false }
{
    core.reserve_for(event)?;
    events.push(*event);
    core.apply(event);
    Ok(())
}

/// Whether a set may be started again as its journal shows, and why not.
pub fn can_restart(core: &Core, set: SetNo, by: &RestartBy) -> Result<(), Reason>
    ensures { result ≡ verdict (step (means core.now) (events_of.Restart set false by.now)) }
{
    let event = Event::Restart(set, false, *by);
    core.can(&event)
}

/// Whether a set is up. One that isn't of the cluster counts as up.
fn is_up(core: &Core, set: SetNo) -> bool
    ensures { result ≡ (means core.now).up set }
{
    match core.state().set(set) {
        Some(tables) => tables.is_up,
        None => true,
    }
}

/// The number of the last fault of a set, or 0 where there was none.
fn last_fault(core: &Core, set: SetNo) -> u64
    ensures { result ≡ (means core.now).last_fault set }
{
    match core.state().set(set) {
        Some(tables) => tables.last_fault,
        None => 0,
    }
}

/// The number of the fault of a set whose disk failed just now.
fn fault_number<D: Disk + Drop>(
    core: &Core,
    stores: &Stores<D>,
    opening: &Opening,
    set: SetNo,
) -> u64
    requires has { HasSet stores.now set }
    requires rose { (begun opening.now).faults set ≤ faults_at stores.now set }
    ensures value { result ≡ number_of (faults_at stores.now set) ((begun opening.now).faults set) ((means core.now).last_fault set) }
    ensures next { is_next_fault ((means core.now).last_fault set) result ≡ true }
{
    let last = last_fault(core, set);
    let rise = stores.faults(set) - opening.faults(set);
    rise.max(last.saturating_add(1))
}

/// Writes the change of an event to the journal of its set, and then carries the event out. The list has room for one event.
pub fn write<D: Disk + Drop>(
    core: &mut Core,
    stores: &mut Stores<D>,
    events: &mut Trace,
    opening: &Opening,
    event: Event,
    recording: &Recording,
) -> Result<(), StepFault>
    requires whole { IsWhole core.old events.old opening.now stores.old }
    requires possible { verdict (step (means core.old) event) ≡ Ok tt }
    requires records { recorded.records (means core.old) event ≡ Some (recorded.recording recording.now) }
    requires room { 1 ≤ events.old.room }
    ensures whole { IsWhole core.new events.new opening.now stores.new }
    ensures ok { OnOk result (IsAdvanced (played_in core.old events.old opening.now)
        (played_in core.new events.new opening.now) event) }
    ensures has_room { OnOk result
        (HasRoom (shown core.old events.old opening.now stores.old) event) }
    ensures other { (reason : Reason) → result ≢ Err (StepFault.NotNow reason) }
    ensures length { (x : ℕ) → result ≡ Err (StepFault.Full x)
        → IsLengthAt D.told (shown core.new events.new opening.now stores.new) x }
    ensures cause { IfErr result (IsStepCause D.told
        (shown core.old events.old opening.now stores.old)
        (shown core.new events.new opening.now stores.new) event) }
    ensures disks { KeepsDisks D.told
        (shown core.old events.old opening.now stores.old)
        (shown core.new events.new opening.now stores.new) event }
{
    given_inputs();
    recorded_changes();
    core.reserve_for(&event)?;
    match stores.append(events.allocator(), recording.set, &recording.change) {
        Ok(()) => {
            events.push(event);
            core.apply(&event);
            Ok(())
        }
        Err(AppendFault::Full(_)) => Err(StepFault::Full(recording.set)),
        Err(AppendFault::NoMemory) => Err(StepFault::NoMemory),
        Err(AppendFault::DiskFault) => match event.recorded() {
            Some(recorded) => {
                let number = fault_number(core, stores, opening, recording.set);
                let fault = Event::Fault(recording.set, number, recorded);
                events.push(fault);
                core.apply(&fault);
                Err(StepFault::WentDown(recording.set))
            }
            None => unreachable!(),
        },
    }
}

/// Plays an event that is possible and is no restart of a set that is down. The list has room for one event.
fn play_on<D: Disk + Drop>(
    core: &mut Core,
    stores: &mut Stores<D>,
    events: &mut Trace,
    opening: &Opening,
    event: Event,
) -> Result<(), StepFault>
    requires whole { IsWhole core.old events.old opening.now stores.old }
    requires possible { verdict (step (means core.old) event) ≡ Ok tt }
    requires raises_none { RaisesNone (means core.old) event }
    requires room { 1 ≤ events.old.room }
    ensures whole { IsWhole core.new events.new opening.now stores.new }
    ensures ok { OnOk result (IsAdvanced (played_in core.old events.old opening.now)
        (played_in core.new events.new opening.now) event) }
    ensures has_room { OnOk result
        (HasRoom (shown core.old events.old opening.now stores.old) event) }
    ensures other { (reason : Reason) → result ≢ Err (StepFault.NotNow reason) }
    ensures length { (x : ℕ) → result ≡ Err (StepFault.Full x)
        → IsLengthAt D.told (shown core.new events.new opening.now stores.new) x }
    ensures cause { IfErr result (IsStepCause D.told
        (shown core.old events.old opening.now stores.old)
        (shown core.new events.new opening.now stores.new) event) }
    ensures disks { KeepsDisks D.told
        (shown core.old events.old opening.now stores.old)
        (shown core.new events.new opening.now stores.new) event }
{
    given_inputs();
    recorded_changes();
    match core.records(&event)? {
        Some(recording) => write(core, stores, events, opening, event, &recording),
        None => {
            carry_out(core, events, &event)?;
            Ok(())
        }
    }
}

/// Plays a restart that is possible and that says whether a pending change is kept. The list has room for one event.
fn play_given<D: Disk + Drop>(
    core: &mut Core,
    stores: &mut Stores<D>,
    events: &mut Trace,
    opening: &Opening,
    set: SetNo,
    kept: bool,
    by: RestartBy,
) -> Result<(), StepFault>
    requires whole { IsWhole core.old events.old opening.now stores.old }
    requires possible { verdict (step (means core.old) (events_of.Restart set kept by)) ≡ Ok tt }
    requires room { 1 ≤ events.old.room }
    ensures whole { IsWhole core.new events.new opening.now stores.new }
    ensures ok { OnOk result (IsAdvanced (played_in core.old events.old opening.now)
        (played_in core.new events.new opening.now) (events_of.Restart set kept by)) }
    ensures has_room { OnOk result
        (HasRoom (shown core.old events.old opening.now stores.old) (events_of.Restart set kept by)) }
    ensures other { (reason : Reason) → result ≢ Err (StepFault.NotNow reason) }
    ensures length { (x : ℕ) → result ≡ Err (StepFault.Full x)
        → IsLengthAt D.told (shown core.new events.new opening.now stores.new) x }
    ensures cause { IfErr result (IsStepCause D.told
        (shown core.old events.old opening.now stores.old)
        (shown core.new events.new opening.now stores.new) (events_of.Restart set kept by)) }
    ensures disks { KeepsDisks D.told
        (shown core.old events.old opening.now stores.old)
        (shown core.new events.new opening.now stores.new) (events_of.Restart set kept by) }
{
    if is_up(core, set) {
        let event = Event::Restart(set, kept, by);
        return play_on(core, stores, events, opening, event);
    }
    restart_as(core, stores, events, opening, set, kept, by)
}

/// Plays an event that is possible. The list gets room for it first.
pub fn play<D: Disk + Drop>(
    core: &mut Core,
    stores: &mut Stores<D>,
    events: &mut Trace,
    opening: &Opening,
    event: Event,
) -> Result<(), StepFault>
    requires whole { IsWhole core.old events.old opening.now stores.old }
    requires possible { verdict (step (means core.old) event) ≡ Ok tt }
    ensures whole { IsWhole core.new events.new opening.now stores.new }
    ensures ok { OnOk result (IsAdvanced (played_in core.old events.old opening.now)
        (played_in core.new events.new opening.now) event) }
    ensures has_room { OnOk result
        (HasRoom (shown core.old events.old opening.now stores.old) event) }
    ensures other { (reason : Reason) → result ≢ Err (StepFault.NotNow reason) }
    ensures length { (x : ℕ) → result ≡ Err (StepFault.Full x)
        → IsLengthAt D.told (shown core.new events.new opening.now stores.new) x }
    ensures cause { IfErr result (IsStepCause D.told
        (shown core.old events.old opening.now stores.old)
        (shown core.new events.new opening.now stores.new) event) }
    ensures disks { KeepsDisks D.told
        (shown core.old events.old opening.now stores.old)
        (shown core.new events.new opening.now stores.new) event }
{
    events.reserve()?;
    match event {
        Event::Restart(set, kept, by) => {
            play_given(core, stores, events, opening, set, kept, by)
        }
        event => play_on(core, stores, events, opening, event),
    }
}

/// Plays a restart that is possible, as the journal of the set shows. The list gets room for it first.
pub fn play_restart<D: Disk + Drop>(
    core: &mut Core,
    stores: &mut Stores<D>,
    events: &mut Trace,
    opening: &Opening,
    set: SetNo,
    by: RestartBy,
) -> Result<bool, StepFault>
    requires whole { IsWhole core.old events.old opening.now stores.old }
    requires possible { verdict (step (means core.old) (events_of.Restart set false by)) ≡ Ok tt }
    ensures whole { IsWhole core.new events.new opening.now stores.new }
    ensures ok { IfOk result (λ kept. IsAdvanced (played_in core.old events.old opening.now)
        (played_in core.new events.new opening.now) (events_of.Restart set kept by)) }
    ensures other { (reason : Reason) → result ≢ Err (StepFault.NotNow reason) }
    ensures cause { IfErr result (IsRestartCause D.told
        (shown core.old events.old opening.now stores.old)
        (shown core.new events.new opening.now stores.new) set by) }
    ensures disks { KeepsDisks D.told
        (shown core.old events.old opening.now stores.old)
        (shown core.new events.new opening.now stores.new) (events_of.Restart set false by) }
{
    given_inputs();
    recorded_changes();
    events.reserve()?;
    if is_up(core, set) {
        carry_out(core, events, &Event::Restart(set, false, by))?;
        return Ok(false);
    }
    restart(core, stores, events, opening, set, by)
}
