//! The service brings a cluster to rest.

ghost use Rattle.std.specs.Prelude.{◌≡◌, ◌≤◌, ◌+◌, ◌-◌, true, length, IfErr, OnErr, OnOk};
ghost use Rattle.vs_core.specs.Safety.{IsSafeRun};
ghost use Rattle.vs_machine.specs.Kinds.Stops.{is_finished};
ghost use Rattle.vs_machine.specs.Settling.{IsSettled, settle_bound};
ghost use Rattle.vs_world.specs.Began.{start_of};
ghost use Rattle.vs_world.specs.Played.{began, state_of};
ghost use Rattle.vs_world.specs.World.{IsKept};
ghost use Rattle.vs_settle.specs.Service.{AddsServices};
ghost use Rattle.vs_settle.specs.Stopped.{AddsAndFails, Goes, IsSettleCause, IsStopped, KeepsFaults};

use crate::entries::settle_buckets;
use crate::fault::SettleFault;
use crate::laws::finished_is_quiet;
use crate::messages::settle_messages;
use crate::raising::raise_sets;
use crate::reads::know;
use crate::steps::Steps;
use std::sync::ledger::Ledger;
use vs_core::safe_runs;
use vs_disk::Disk;
use vs_world::World;

/// The sets are started again, then all messages are taken, and then all buckets are brought to rest.
fn bring_to_rest<D: Disk + Drop, L: Ledger>(
    world: &mut World<D>,
    steps: &mut Steps<L>,
) -> Result<(), SettleFault>
    requires finished { is_finished (state_of world.old.played) ≡ true }
    ensures goes { OnOk result (Goes D.told world.old steps.old world.new steps.new) }
    ensures stops { IfErr result (IsStopped D.told world.old steps.old world.new steps.new) }
    ensures settled { OnOk result (IsSettled (state_of world.new.played)) }
    ensures bound { steps.new ≤ steps.old + settle_bound (state_of world.old.played) }
{
    finished_is_quiet();
    know(world);
    raise_sets(world, steps)?;
    settle_messages(world, steps)?;
    settle_buckets(world, steps)
}

/// Carries out events of the service until the cluster is settled, once every call and every command is answered. First the
/// sets that are down are started again, each as its journal shows. Each event is one of `steps`, and so is the fault of a set
/// whose disk fails: it ends the work, and stands in the place of the event.
pub fn settle<D: Disk + Drop, L: Ledger>(
    world: &mut World<D>,
    steps: &mut Steps<L>,
) -> Result<(), SettleFault>
    requires finished { is_finished (state_of world.old.played) ≡ true }
    ensures settled { OnOk result (IsSettled (state_of world.new.played)) }
    ensures done { OnOk result (is_finished (state_of world.new.played) ≡ true) }

    // The events before stay, and those that are added are of starts, of messages, of recovery and of collection.
    ensures added { OnOk result (AddsServices world.old.played.events world.new.played.events) }
    ensures adds { OnErr result (AddsAndFails world.old.played.events world.new.played.events) }
    ensures cause { IfErr result (IsSettleCause D.told world.old world.new) }
    ensures bound { steps.new ≤ steps.old + settle_bound (state_of world.old.played) }
    ensures ticks { length world.new.played.events ≡ length world.old.played.events + (steps.new - steps.old) }
    ensures counted { steps.old ≤ steps.new }
    ensures opening { world.new.played.opening ≡ world.old.played.opening }
    ensures faults { KeepsFaults D.told world.old world.new }
    ensures kept { IsKept D.told world.new }
    ensures run { IsSafeRun (start_of (began world.new.played)) world.new.played.events }
{
    safe_runs();
    let answer = bring_to_rest(world, steps);
    know(world);
    answer
}
