//! All messages are taken, and all replies heard.

ghost use Rattle.std.specs.Prelude.{◌≡◌, ◌≤◌, ◌+◌, true, IfErr, OnOk};
ghost use Rattle.vs_machine.specs.State.{has_set, sets_of};
ghost use Rattle.vs_machine.specs.Settling.{IsSilent};
ghost use Rattle.vs_world.specs.Played.{state_of};
ghost use Rattle.vs_settle.specs.Messages.{AreDrained, IsDrained};
ghost use Rattle.vs_settle.specs.Service.{IsPaid, IsResting};
ghost use Rattle.vs_settle.specs.Stopped.{Goes, IsStopped};
ghost use Rattle.vs_settle.specs.Weight.{weight};

use crate::carrying::carry_out;
use crate::fault::SettleFault;
use crate::reads::{know, next_message, set_count};
use crate::steps::Steps;
use std::sync::ledger::Ledger;
use vs_base::SetNo;
use vs_disk::Disk;
use vs_world::World;

/// The messages from a set to another are taken, and the replies heard. No message comes of them.
fn drain<D: Disk + Drop, L: Ledger>(
    world: &mut World<D>,
    steps: &mut Steps<L>,
    from: SetNo,
    to: SetNo,
) -> Result<(), SettleFault>
    requires rests { IsResting (state_of world.old.played) }
    requires from { has_set (state_of world.old.played) from ≡ true }
    requires to { has_set (state_of world.old.played) to ≡ true }
    ensures goes { OnOk result (Goes D.told world.old steps.old world.new steps.new) }
    ensures stops { IfErr result (IsStopped D.told world.old steps.old world.new steps.new) }
    ensures spent { steps.new ≤ steps.old + weight (state_of world.old.played) }
    ensures drained { OnOk result (IsDrained world.old.played steps.old world.new.played steps.new from to) }
{
    while let Some(event) = next_message(world, from, to) {
        carry_out(world, steps, event)?;
    }
    Ok(())
}

/// The same for all connections from a set of a cluster of so many.
fn drain_from<D: Disk + Drop, L: Ledger>(
    world: &mut World<D>,
    steps: &mut Steps<L>,
    from: SetNo,
    count: u8,
) -> Result<(), SettleFault>
    requires rests { IsResting (state_of world.old.played) }
    requires from { has_set (state_of world.old.played) from ≡ true }
    requires count { sets_of (state_of world.old.played) ≡ count }
    requires few { count ≤ 32 }
    ensures goes { OnOk result (Goes D.told world.old steps.old world.new steps.new) }
    ensures stops { IfErr result (IsStopped D.told world.old steps.old world.new steps.new) }
    ensures spent { steps.new ≤ steps.old + weight (state_of world.old.played) }
    ensures drained { OnOk result (AreDrained world.old.played steps.old world.new.played steps.new from) }
{
    for index in 0..count {
        let Some(to) = SetNo::new(index + 1) else {
            unreachable!()
        };
        drain(world, steps, from, to)?;
    }
    Ok(())
}

/// All messages are taken, and all replies heard. A reply may still decide where a bucket is.
pub(crate) fn settle_messages<D: Disk + Drop, L: Ledger>(
    world: &mut World<D>,
    steps: &mut Steps<L>,
) -> Result<(), SettleFault>
    requires rests { IsResting (state_of world.old.played) }
    ensures goes { OnOk result (Goes D.told world.old steps.old world.new steps.new) }
    ensures stops { IfErr result (IsStopped D.told world.old steps.old world.new steps.new) }
    ensures spent { steps.new ≤ steps.old + weight (state_of world.old.played) }
    ensures paid { OnOk result (IsPaid world.old.played steps.old world.new.played steps.new) }
    ensures silent { OnOk result (IsSilent (state_of world.new.played)) }
{
    let count = set_count(world);
    for index in 0..count {
        let Some(from) = SetNo::new(index + 1) else {
            unreachable!()
        };
        drain_from(world, steps, from, count)?;
    }
    know(world);
    Ok(())
}
