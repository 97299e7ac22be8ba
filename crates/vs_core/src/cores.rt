//! A cluster in memory.

ghost use Rattle.std.specs.Prelude.{◌≡◌, true, false, Ok, Some, None, IfOk, OnOk, OnErr, option_map};
ghost use Rattle.vs_machine.specs.Runs.{IsReached};
ghost use Rattle.vs_machine.specs.Step.{step};
ghost use Rattle.vs_state.specs.Guard.{verdict};
ghost use Rattle.vs_state.specs.Plain.{plain};
ghost use Rattle.vs_core.specs.Core.{HasRoom, means};
ghost use Rattle.vs_core.specs.Keeps.{IsKnown, IsSound};
ghost use Rattle.vs_core.specs.Ready.{IsReadyFor};
ghost use Rattle.vs_core.specs.Records as recording;
ghost use Rattle.vs_core.specs.Safety.{IsSafe, IsSafeEvent};
ghost use Rattle.vs_core.specs.Standing.{IsReady, shown};

use crate::dispatch::{Prepared, carry_out, reserve};
use crate::failing::reserve_failure;
use crate::kinds::fault::PreparedFault;
use crate::laws::safe_runs;
use crate::records::{Recording, records};
use crate::reserving::reserve_kinds;
use std::marker::Model;
use vs_base::NoMemory;
use vs_event::{Event, Reason};
use vs_machine::{due_answers, every_event, given_inputs, recorded_changes};
use vs_state::State;

/// What was made ahead.
#[derive(Drop)]
pub(crate) enum Ready {
    /// All for this event, and for the fault that may come in its place where it records a change.
    Single(Event, Prepared, Option<PreparedFault>),
    /// All for any one event of the kinds Begin, End, Take, Abort and Close.
    AnyReserved,
}

/// A cluster in memory: its state, which a run of the machine reached, and what stands ready for the next event.
#[derive(Drop)]
pub struct Core {
    state: State,
    ready: Option<Ready>,
}

impl Model for Core {
    ghost use Rattle.vs_core.specs.Core.{Shown};
    ghost use Rattle.vs_core.specs.Standing.{IsFine, shown};

    ghost Value = { Shown };

    ghost view = { λ c. shown c.state c.ready };

    ghost invariant = { λ c. IsFine c.state c.ready };
}

/// What is known of a state that is reached.
fn know(state: &State)
    requires { IsReached (plain state.now) }
    ensures { IsKnown (plain state.now) }
{
    every_event();
    given_inputs();
    due_answers();
    let _state = state;
}

/// What was made ahead for an event that has room.
fn prepared_for(state: &State, ready: Option<Ready>, event: Event) -> Prepared
    requires possible { verdict (step (plain state.now) event) ≡ Ok tt }
    requires known { IsKnown (plain state.now) }
    requires ready { IsReady state.now ready }
    requires room { HasRoom (shown state.now ready) event }
    ensures { IsReadyFor state.now event result }
{
    let _state = state;
    match ready {
        None => unreachable!(),
        Some(Ready::AnyReserved) => Prepared::Nothing,
        Some(Ready::Single(_, prepared, fault)) => match event {
            Event::Fault(_, _, _) => match fault {
                Some(fault) => Prepared::Fault(fault),
                None => prepared,
            },
            _ => prepared,
        },
    }
}

impl Core {
    /// A core of a state that a run reached.
    pub(crate) fn of_state(state: State) -> Core
        requires reached { IsReached (plain state) }
        requires sound { IsSound state }
        ensures state { result.state ≡ state }
        ensures none { result.ready_for ≡ None }
        ensures unreserved { result.is_reserved ≡ false }
    {
        Core { state, ready: None }
    }

    /// The state.
    pub fn state(&self) -> &State
        ensures value { result.now ≡ self.now.state }
        ensures sound { IsSound result.now }
        ensures reached { IsReached (means self.now) }
    {
        &self.state
    }

    /// Whether an event can happen, and why not. It takes no memory.
    pub fn can(&self, event: &Event) -> Result<(), Reason>
        ensures { result ≡ verdict (step (means self.now) event.now) }
    {
        know(&self.state);
        self.state.guard(event)
    }

    /// The change that an event which can happen records, and the set in whose journal it is to stand before the event is
    /// carried out. A fault and a restart record nothing.
    pub fn records(&self, event: &Event) -> Result<Option<Recording>, NoMemory>
        requires { verdict (step (means self.now) event.now) ≡ Ok tt }
        ensures { IfOk result (λ r. option_map recording.recording r ≡ recording.records (means self.now) event.now) }
    {
        know(&self.state);
        records(&self.state, *event)
    }

    /// Takes all memory of an event that can happen; and where it records a change, that of a fault which comes in its
    /// place. What was ready before is given up.
    pub fn reserve_for(&mut self, event: &Event) -> Result<(), NoMemory>
        requires { verdict (step (means self.old) event.now) ≡ Ok tt }
        ensures ready { OnOk result (self.new.ready_for ≡ Some event.now) }
        ensures none { OnErr result (self.new.ready_for ≡ None) }
        ensures unreserved { self.new.is_reserved ≡ false }
        ensures same { means self.new ≡ means self.old }
    {
        self.ready = None;
        know(&self.state);
        recorded_changes();
        let prepared = reserve(&mut self.state, *event)?;
        let fault = reserve_failure(&mut self.state, *event)?;
        self.ready = Some(Ready::Single(*event, prepared, fault));
        Ok(())
    }

    /// Takes all memory of any one event of the kinds Begin, End, Take, Abort and Close. What was ready before is given up.
    pub fn reserve(&mut self) -> Result<(), NoMemory>
        ensures ready { OnOk result (self.new.is_reserved ≡ true) }
        ensures none { OnErr result (self.new.is_reserved ≡ false) }
        ensures unready { self.new.ready_for ≡ None }
        ensures same { means self.new ≡ means self.old }
    {
        self.ready = None;
        reserve_kinds(&mut self.state)?;
        self.ready = Some(Ready::AnyReserved);
        Ok(())
    }

    /// Carries out an event that can happen, and for which all memory was taken. It takes none.
    pub fn apply(&mut self, event: &Event)
        requires possible { verdict (step (means self.old) event.now) ≡ Ok tt }
        requires room { HasRoom self.old event.now }
        ensures step { step (means self.old) event.now ≡ Ok (means self.new) }
        ensures used { self.new.ready_for ≡ None }
        ensures spent { self.new.is_reserved ≡ false }

        // What is promised of every run holds of this event, and of the state after it.
        ensures event { IsSafeEvent (means self.old) event.now (means self.new) }
        ensures safe { IsSafe (means self.new) }
    {
        safe_runs();
        every_event();
        know(&self.state);
        let ready = self.ready.take();
        let prepared = prepared_for(&self.state, ready, *event);
        carry_out(&mut self.state, *event, prepared);
    }
}
