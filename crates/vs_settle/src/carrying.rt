//! The service carries out one event.

ghost use Rattle.std.specs.Prelude.{◌≡◌, ◌≤◌, ◌+◌, Ok, IfErr, OnOk};
ghost use Rattle.vs_machine.specs.Step.{step};
ghost use Rattle.vs_machine.specs.Actors.{IsPossible};
ghost use Rattle.vs_world.specs.Played.{state_of};
ghost use Rattle.vs_settle.specs.Service.{IsResting, IsService};
ghost use Rattle.vs_settle.specs.Stopped.{Goes, IsStopped};

use crate::fault::{SettleFault, cause_of, is_going_down};
use crate::laws::finished_is_quiet;
use crate::reads::know;
use crate::steps::Steps;
use std::sync::ledger::Ledger;
use vs_disk::Disk;
use vs_event::Event;
use vs_world::World;

/// Carries out an event of the service, and counts it. The cluster stays at rest. Where the disk of a set failed, the fault is
/// counted in place of the event.
pub(crate) fn carry_out<D: Disk + Drop, L: Ledger>(
    world: &mut World<D>,
    steps: &mut Steps<L>,
    event: Event,
) -> Result<(), SettleFault>
    requires rests { IsResting (state_of world.old.played) }
    requires service { IsService event }
    requires possible { IsPossible (state_of world.old.played) event }
    ensures goes { OnOk result (Goes D.told world.old steps.old world.new steps.new) }
    ensures stops { IfErr result (IsStopped D.told world.old steps.old world.new steps.new) }
    ensures step { OnOk result (step (state_of world.old.played) event ≡ Ok (state_of world.new.played)) }
    ensures ticks { OnOk result (steps.new ≡ steps.old + 1) }
    ensures most { steps.new ≤ steps.old + 1 }
{
    finished_is_quiet();
    know(world);
    match world.step(event) {
        Ok(()) => {
            steps.tick();
            Ok(())
        }
        Err(fault) => {
            if is_going_down(&fault) {
                steps.tick();
            }
            Err(cause_of(fault))
        }
    }
}
