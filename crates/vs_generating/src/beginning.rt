//! What is run: scripts on the cluster of one configuration, over what the cluster of another left.

ghost use Rattle.std.specs.Prelude.{◌≡◌, [], IfOk};
ghost use Rattle.vs_config.specs.Configuration.{configuration};
ghost use Rattle.vs_gen.specs.Generated.{first_configuration};
ghost use Rattle.vs_machine.specs.Laws.{BegunInputs};
ghost use Rattle.vs_generating.specs.Disks.{AreOfNewCluster};
ghost use Rattle.vs_generating.specs.Faults.{IsOfMemory};
ghost use Rattle.vs_generating.specs.Running.{IsBeginning};
ghost use Rattle.vs_world.specs.Played.{began, state_of};
ghost use Rattle.vs_world.specs.World.{IsKept};

use crate::disks::new_disks;
use std::alloc::Global;
use vs_base::NoMemory;
use vs_config::Config;
use vs_disk::{Disk, PlainDisk};
use vs_gen::generate;
use vs_script::{ClientCalls, OperatorCommands, Scripts};
use vs_store::StoreFault;
use vs_world::{World, WorldFault};

/// A cluster over disks in memory.
pub(crate) type PlainWorld = World<PlainDisk>;

/// The greatest length that a journal may have, in bytes, which is more than any may come to.
const LIMIT: u64 = u64::MAX;

/// Want of memory. No other fault comes from disks in memory that are new or that a cluster left.
fn of_opening(fault: WorldFault) -> NoMemory
    requires { IsOfMemory fault }
{
    match fault {
        WorldFault::NoMemory => NoMemory,
        WorldFault::OfSet(_, StoreFault::Full(_)) => unreachable!(),
        WorldFault::Incoherent { .. } | WorldFault::OfSet { .. } => unreachable!(),
    }
}

/// The disks that a new cluster of a configuration leaves, in which nothing happens.
fn first_disks(alloc: Global, config: Config) -> Result<Vec<PlainDisk>, NoMemory>
    requires { configuration config ≡ first_configuration }
    ensures { IfOk result (λ disks.
        AreOfNewCluster ⟦<PlainDisk as Disk>⟧.told first_configuration disks.items) }
{
    let none = Scripts {
        clients: ClientCalls::new(alloc),
        operators: OperatorCommands::new(alloc),
    };
    let disks = new_disks(alloc)?;
    match World::open(alloc, config, none, disks, LIMIT) {
        Ok(world) => Ok(world.close()),
        Err((fault, _disks)) => Err(of_opening(fault)),
    }
}

/// The cluster on which the scripts of a number are run, before that.
pub(crate) fn begin(alloc: Global, number: u32) -> Result<PlainWorld, NoMemory>
    ensures beginning { IfOk result (λ w. IsBeginning number (began w.played)) }
    ensures events { IfOk result (λ w. w.played.events ≡ []) }
{
    let generated = generate(alloc, number)?;
    let disks = first_disks(alloc, generated.first)?;
    match World::open(alloc, generated.second, generated.scripts, disks, LIMIT) {
        Ok(world) => Ok(world),
        Err((fault, _disks)) => Err(of_opening(fault)),
    }
}
