//! The sets that are down are started again.

ghost use Rattle.std.specs.Prelude.{◌≡◌, ◌≤◌, ◌+◌, false, true, IfErr, OnErr, OnOk};
ghost use Rattle.vs_machine.specs.Settling.{settle_bound};
ghost use Rattle.vs_machine.specs.State.{has_set};
ghost use Rattle.vs_world.specs.Played.{state_of};
ghost use Rattle.vs_settle.specs.Raised.{IsRaised};
ghost use Rattle.vs_settle.specs.Service.{IsCalm};
ghost use Rattle.vs_settle.specs.Stopped.{Goes, IsStopped};
ghost use Rattle.vs_settle.specs.Weight.{weight};

use crate::fault::{SettleFault, cause_of};
use crate::laws::finished_is_quiet;
use crate::reads::{is_up, know, set_count};
use crate::steps::Steps;
use std::sync::ledger::Ledger;
use vs_base::SetNo;
use vs_disk::Disk;
use vs_event::RestartBy;
use vs_world::World;

/// Starts a set that is down again, as its journal shows, and counts that.
fn restart<D: Disk + Drop, L: Ledger>(
    world: &mut World<D>,
    steps: &mut Steps<L>,
    set: SetNo,
) -> Result<(), SettleFault>
    requires calm { IsCalm (state_of world.old.played) }
    requires set { has_set (state_of world.old.played) set ≡ true }
    requires down { (state_of world.old.played).up set ≡ false }
    ensures raised { OnOk result (IsRaised D.told world.old steps.old world.new steps.new set) }
    ensures stops { IfErr result (IsStopped D.told world.old steps.old world.new steps.new) }
    ensures none { OnErr result (steps.new ≡ steps.old) }
{
    finished_is_quiet();
    know(world);
    match world.restart(set, RestartBy::Service) {
        Ok(_) => {
            steps.tick();
            Ok(())
        }
        Err(fault) => Err(cause_of(fault)),
    }
}

/// Starts a set again where it is down.
fn raise<D: Disk + Drop, L: Ledger>(
    world: &mut World<D>,
    steps: &mut Steps<L>,
    set: SetNo,
) -> Result<(), SettleFault>
    requires calm { IsCalm (state_of world.old.played) }
    requires set { has_set (state_of world.old.played) set ≡ true }
    ensures raised { OnOk result (IsRaised D.told world.old steps.old world.new steps.new set) }
    ensures stops { IfErr result (IsStopped D.told world.old steps.old world.new steps.new) }
    ensures none { OnErr result (steps.new ≡ steps.old) }
{
    if is_up(world, set) {
        return Ok(());
    }
    restart(world, steps, set)
}

/// All sets that are down are started again, in the order of their numbers.
pub(crate) fn raise_sets<D: Disk + Drop, L: Ledger>(
    world: &mut World<D>,
    steps: &mut Steps<L>,
) -> Result<(), SettleFault>
    requires { IsCalm (state_of world.old.played) }
    ensures goes { OnOk result (Goes D.told world.old steps.old world.new steps.new) }
    ensures stops { IfErr result (IsStopped D.told world.old steps.old world.new steps.new) }
    ensures paid { OnOk result (steps.new + weight (state_of world.new.played) ≤ steps.old + settle_bound (state_of world.old.played)) }
    ensures spent { steps.new ≤ steps.old + settle_bound (state_of world.old.played) }
{
    for index in 0..set_count(world) {
        let Some(set) = SetNo::new(index + 1) else {
            unreachable!()
        };
        raise(world, steps, set)?;
    }
    Ok(())
}
