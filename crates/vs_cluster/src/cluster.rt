//! A cluster that actors run.

ghost use Rattle.std.specs.Prelude.{◌≡◌, ◌↔◌, ◌≢◌, ℕ, [], false, true, Err, Some, IfErr, IfOk, IsTrue, OnOk, slice_get};
ghost use Rattle.vs_cluster.specs.Calls.{IsDriverEvent, IsPostAllowed, Leaves};
ghost use Rattle.vs_cluster.specs.Cluster.{IsKept};
ghost use Rattle.vs_core.specs.Safety.{IsSafeEvent};
ghost use Rattle.vs_event.specs.declared.event.Event.TheVariants as events;
ghost use Rattle.vs_machine.specs.Actors.{ArePostsSteered};
ghost use Rattle.vs_machine.specs.State.{has_set};
ghost use Rattle.vs_machine.specs.Step.{step};
ghost use Rattle.vs_world.specs.Began.{start_of};
ghost use Rattle.vs_world.specs.Counted.{IsCounted};
ghost use Rattle.vs_world.specs.Played.{IsAdvanced, began, state_of};
ghost use Rattle.vs_world.specs.Restarts.{IsRestartCause};
ghost use Rattle.vs_world.specs.Steps.{HasRoom, IsStepCause};
ghost use Rattle.vs_world.specs.World.{IsLengthAt};

use crate::hints::Hints;
use crate::steering::steering_of;
use std::marker::Model;
use vs_base::{ClientNo, SetNo};
use vs_disk::Disk;
use vs_event::{Event, Reason, RestartBy};
use vs_machine::{given_inputs, steered_posts};
use vs_world::{StepFault, World};

/// A world as actors run it behind a lock. Whatever they did, in whatever order, is known by this type: of its list of events, each
/// post that isn't the first of its call was steered, no mover waited, and no disk's fault was made up.
///
/// A further post of a call is steered where the set would grant it; where the last refusal named the set, but not for that
/// alone twice in a row; or where no set would grant it and nothing else can happen.
#[derive(Drop)]
pub struct Cluster<D: Disk + Drop> {
    world: World<D>,
    hints: Hints,
}

impl<D: Disk + Drop> Model for Cluster<D> {
    ghost use Rattle.vs_cluster.specs.Cluster as cluster;

    ghost Value = { cluster.Cluster D };

    ghost view = { λ c. record { world = c.world; hints = c.hints.flags } };

    ghost invariant = { λ c. cluster.IsKept D.told (record { world = c.world; hints = c.hints.flags }) };
}

impl<D: Disk + Drop> Cluster<D> {
    /// A cluster of a world in which nothing has happened.
    pub fn new(world: World<D>) -> Cluster<D>
        requires { world.played.events ≡ [] }
        ensures world { result.world ≡ world }
        ensures kept { IsKept D.told result }
    {
        steered_posts();
        let _core = world.core();
        Cluster {
            world,
            hints: Hints::none(),
        }
    }

    /// The world.
    pub fn world(&self) -> &World<D>
        ensures world { result.now ≡ self.now.world }
        ensures kept { IsKept D.told self.now }
    {
        &self.world
    }

    /// The world, without what was kept of it.
    pub fn into_world(self) -> World<D>
        ensures world { result ≡ self.world }
        ensures kept { IsKept D.told self }

        // Each further post in its list was steered, no mover waited, and no set's last fault number is above how often its disk
        // failed since the beginning.
        ensures steered { ArePostsSteered (start_of (began result.played)) result.played.events }
        ensures unwaited { (n x b : ℕ) → slice_get result.played.events n ≢ Some (events.NotYet x b) }
        ensures counted { (x : ℕ) → has_set (state_of result.played) x ≡ true → IsCounted D.told result x }
    {
        let Cluster { world, .. } = self;
        world
    }

    /// Whether a post of the client's next call to the set would be the first of its call, or would be steered. It takes no
    /// memory.
    pub fn steered(&self, client: ClientNo, set: SetNo) -> bool
        ensures { IsTrue result ↔ IsPostAllowed self.now client set }
    {
        steering_of(self.world.core(), client, set).allows(self.hints.of(client))
    }

    /// Posts the client's next call to the set, as [`World::step`] does.
    pub fn post(&mut self, client: ClientNo, set: SetNo) -> Result<(), StepFault>
        requires { IsPostAllowed self.old client set }
        ensures ok { OnOk result
            (IsAdvanced self.old.world.played self.new.world.played (events.Post client set)) }
        ensures refused { (reason : Reason) → (result ≡ Err (StepFault.NotNow reason))
            ↔ (step (state_of self.old.world.played) (events.Post client set) ≡ Err reason) }
        ensures cause { IfErr result
            (IsStepCause D.told self.old.world self.new.world (events.Post client set)) }
        ensures event { OnOk result (IsSafeEvent (state_of self.old.world.played)
            (events.Post client set) (state_of self.new.world.played)) }
        ensures leaves { Leaves D.told self.old self.new (events.Post client set) }
    {
        steered_posts();
        given_inputs();
        let by_hint = steering_of(self.world.core(), client, set).is_hinted();
        match self.world.step(Event::Post(client, set)) {
            Ok(()) => {
                self.hints.put(client, by_hint);
                Ok(())
            }
            Err(fault) => Err(fault),
        }
    }

    /// Carries out an event of an actor that is no post, as [`World::step`] does.
    pub fn step(&mut self, event: Event) -> Result<(), StepFault>
        requires { IsDriverEvent event }
        ensures ok { OnOk result
            (IsAdvanced self.old.world.played self.new.world.played event) }
        ensures room { OnOk result (HasRoom self.old.world event) }
        ensures refused { (reason : Reason) → (result ≡ Err (StepFault.NotNow reason))
            ↔ (step (state_of self.old.world.played) event ≡ Err reason) }
        ensures cause { IfErr result (IsStepCause D.told self.old.world self.new.world event) }
        ensures length { (x : ℕ) → result ≡ Err (StepFault.Full x)
            → IsLengthAt D.told self.new.world x }
        ensures event { OnOk result (IsSafeEvent (state_of self.old.world.played) event
            (state_of self.new.world.played)) }
        ensures leaves { Leaves D.told self.old self.new event }
    {
        steered_posts();
        given_inputs();
        let _core = self.world.core();
        self.world.step(event)
    }

    /// Starts a set again as its journal shows, as [`World::restart`] does. It answers whether a pending change was kept.
    pub fn restart(&mut self, set: SetNo, by: RestartBy) -> Result<bool, StepFault>
        ensures ok { IfOk result (λ kept. IsAdvanced self.old.world.played self.new.world.played
            (events.Restart set kept by)) }
        ensures refused { (reason : Reason) → (result ≡ Err (StepFault.NotNow reason))
            ↔ (step (state_of self.old.world.played) (events.Restart set false by) ≡ Err reason) }
        ensures cause { IfErr result
            (IsRestartCause D.told self.old.world self.new.world set by) }
        ensures leaves { Leaves D.told self.old self.new (events.Restart set false by) }
    {
        steered_posts();
        given_inputs();
        let _core = self.world.core();
        self.world.restart(set, by)
    }
}
