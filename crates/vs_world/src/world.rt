//! A cluster over journals.

ghost use Rattle.std.specs.Prelude.{◌≡◌, ◌↔◌, ◌^◌, ◌-◌, ◌≤◌, min, ℕ, true, false, Ok, Err, IfOk, IfErr, OnOk};
ghost use Rattle.vs_core.specs.Core.{means};
ghost use Rattle.vs_core.specs.Safety.{IsSafe, IsSafeEvent, IsSafeRun};
ghost use Rattle.vs_event.specs.declared.event.Event.TheVariants as events;
ghost use Rattle.vs_machine.specs.State.{has_set};
ghost use Rattle.vs_machine.specs.Step.{step};
ghost use Rattle.vs_world.specs.Began.{start_of};
ghost use Rattle.vs_world.specs.Counted.{IsNoFault, KeepsCount};
ghost use Rattle.vs_world.specs.Played.{IsAdvanced, began, state_of};
ghost use Rattle.vs_world.specs.Restarts.{IsRestartCause};
ghost use Rattle.vs_world.specs.Steps.{HasRoom, IsStepCause};
ghost use Rattle.vs_world.specs.World.{IsKept, IsLengthAt, KeepsDisks, OfDisk, length_of};

use crate::fault::StepFault;
use crate::opening::Opening;
use crate::steps::{can_restart, play, play_restart};
use std::marker::Model;
use vs_base::SetNo;
use vs_core::{Core, safe_runs};
use vs_disk::Disk;
use vs_event::{Event, Reason, RestartBy, Trace};
use vs_machine::steered_posts;
use vs_stores::Stores;

/// A cluster, the journal of each set, what it began with, and the list of all its events: the state is where they lead from
/// the beginning.
#[derive(Drop)]
pub struct World<D: Disk + Drop> {
    pub(crate) core: Core,
    pub(crate) stores: Stores<D>,
    pub(crate) opening: Opening,
    pub(crate) events: Trace,
}

impl<D: Disk + Drop> Model for World<D> {
    ghost use Rattle.vs_world.specs.World as world;
    ghost use Rattle.vs_world.specs.Whole.{IsWhole, shown};

    ghost Value = { world.World D };

    ghost view = { λ w. shown w.core w.events w.opening w.stores };

    ghost invariant = { λ w. IsWhole w.core w.events w.opening w.stores };
}

impl<D: Disk + Drop> World<D> {
    /// The cluster.
    pub fn core(&self) -> &Core
        ensures state { means result.now ≡ state_of self.now.played }
        ensures kept { IsKept D.told self.now }
    {
        &self.core
    }

    /// All events, in the order in which they happened.
    pub fn trace(&self) -> &Trace
        ensures events { result.now.items ≡ self.now.played.events }
    {
        &self.events
    }

    /// What it began with.
    pub fn opening(&self) -> &Opening
        ensures { result.now ≡ self.now.played.opening }
    {
        &self.opening
    }

    /// The greatest length that a journal may have, in bytes.
    pub fn limit(&self) -> u64
        ensures { result ≡ (began self.now.played).limit }
    {
        self.opening.limit()
    }

    /// The length of the journal of a set, in bytes, with the gate that ends it. A change that is pending isn't counted. That of
    /// a set that is up is the length of what its disk reads as.
    pub fn journal_len(&self, set: SetNo) -> u64
        requires { has_set (state_of self.now.played) set ≡ true }
        ensures length { result ≡ min (length_of self.now set) (2 ^ 64 - 1) }
        ensures journal { (state_of self.now.played).up set ≡ true → IsLengthAt D.told self.now set }
        ensures reserved { OfDisk self.now set (λ it. result ≤ (D.told it).reserved) }
    {
        self.stores.journal_len(set)
    }

    /// Carries out an event, and adds it to the list. All memory is taken first; then the change that the event records, if
    /// any, is written to the journal of its set, and then the event is applied. A restart that is given makes the journal of
    /// its set fit it: a kept change that the journal lacks is appended, and one that isn't kept is taken out.
    pub fn step(&mut self, event: Event) -> Result<(), StepFault>
        ensures ok { OnOk result (IsAdvanced self.old.played self.new.played event) }
        ensures room { OnOk result (HasRoom self.old event) }

        // It is refused with the reason exactly where it can't happen.
        ensures refused { (reason : Reason) → (result ≡ Err (StepFault.NotNow reason))
            ↔ (step (state_of self.old.played) event ≡ Err reason) }
        ensures cause { IfErr result (IsStepCause D.told self.old self.new event) }
        ensures length { (x : ℕ) → result ≡ Err (StepFault.Full x) → IsLengthAt D.told self.new x }
        ensures disks { KeepsDisks D.told self.old self.new event }
        ensures kept { IsKept D.told self.new }
        ensures counted { IsNoFault event → KeepsCount D.told self.old self.new }

        // What is promised of every run holds of this event, of the state after it, and of the whole list, whatever the answer.
        ensures event { OnOk result
            (IsSafeEvent (state_of self.old.played) event (state_of self.new.played)) }
        ensures safe { IsSafe (state_of self.new.played) }
        ensures run { IsSafeRun (start_of (began self.new.played)) self.new.played.events }
    {
        safe_runs();
        steered_posts();
        if let Err(reason) = self.core.can(&event) {
            return Err(StepFault::NotNow(reason));
        }
        play(
            &mut self.core,
            &mut self.stores,
            &mut self.events,
            &self.opening,
            event,
        )
    }

    /// Starts a set again as its journal shows: a pending change that the journal has is kept. It answers whether one was. A
    /// set that is up only has the command answered.
    pub fn restart(&mut self, set: SetNo, by: RestartBy) -> Result<bool, StepFault>
        ensures ok { IfOk result (λ kept.
            IsAdvanced self.old.played self.new.played (events.Restart set kept by)) }
        ensures refused { (reason : Reason) → (result ≡ Err (StepFault.NotNow reason))
            ↔ (step (state_of self.old.played) (events.Restart set false by) ≡ Err reason) }
        ensures cause { IfErr result (IsRestartCause D.told self.old self.new set by) }
        ensures disks { KeepsDisks D.told self.old self.new (events.Restart set false by) }
        ensures kept { IsKept D.told self.new }
        ensures counted { KeepsCount D.told self.old self.new }
        ensures safe { IsSafe (state_of self.new.played) }
        ensures run { IsSafeRun (start_of (began self.new.played)) self.new.played.events }
    {
        safe_runs();
        steered_posts();
        if let Err(reason) = can_restart(&self.core, set, &by) {
            return Err(StepFault::NotNow(reason));
        }
        play_restart(
            &mut self.core,
            &mut self.stores,
            &mut self.events,
            &self.opening,
            set,
            by,
        )
    }

    /// All 32 disks, those of the sets first. It takes no memory.
    pub fn close(self) -> Vec<D>
        ensures disks { result.items ≡ self.disks }
        ensures kept { IsKept D.told self }
    {
        let World { stores, .. } = self;
        stores.close()
    }
}
