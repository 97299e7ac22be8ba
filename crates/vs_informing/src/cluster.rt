//! The cluster that journals stand for is opened, and told.

ghost use Rattle.std.specs.Prelude.{◌≡◌, [], length, IfOk, IfErr};
ghost use Rattle.vs_config.specs.Configuration.{configuration};
ghost use Rattle.vs_config.specs.Lawful.{IsLawful};
ghost use Rattle.vs_info.specs.Info.{info_text};
ghost use Rattle.vs_informing.specs.Cluster.{IsInfoOf, IsRefusal, no_scripts, opened_on};
ghost use Rattle.vs_script.specs.Scripts.{scripts};
ghost use Rattle.vs_top.specs.Faults.{IsOfSets};
ghost use Rattle.vs_world.specs.Played.{state_of};

use std::alloc::Global;
use vs_base::{Items, NoMemory};
use vs_config::Config;
use vs_disk::Disk;
use vs_info::info;
use vs_machine::given_inputs;
use vs_script::Scripts;
use vs_top::JOURNAL_LIMIT;
use vs_world::{World, WorldFault};

/// No clients and no operators.
fn no_scripts(alloc: Global) -> Scripts
    ensures { scripts result ≡ no_scripts }
{
    Scripts {
        clients: Items::new(alloc),
        operators: Items::new(alloc),
    }
}

/// What is told of a world of this configuration.
fn info_of<D: Disk + Drop>(
    alloc: Global,
    config: &Config,
    world: &World<D>,
) -> Result<Vec<u8>, NoMemory>
    requires { configuration config.now ≡ (state_of world.now.played).config }
    ensures { IfOk result (λ text. text.items ≡ info_text (state_of world.now.played)) }
{
    info(alloc, world.core(), config)
}

/// What is told of the cluster of this configuration and these disks, which come back.
pub fn opened_info<D: Disk + Drop>(
    alloc: Global,
    config: &Config,
    disks: Vec<D>,
) -> Result<(Vec<u8>, Vec<D>), (WorldFault, Vec<D>)>
    requires lawful { IsLawful (configuration config.now) }
    requires disks { length disks.items ≡ 32 }
    ensures ok_count { IfOk result (λ r. length r.1.items ≡ 32) }
    ensures err_count { IfErr result (λ e. length e.1.items ≡ 32) }
    ensures ok { IfOk result (λ r. IsInfoOf (opened_on D.told (configuration config.now)
        disks.items r.1.items) r.0.items) }
    ensures err { IfErr result (λ e.
        IsRefusal D.told (configuration config.now) disks.items e.0 e.1.items) }
    ensures named { IfErr result (λ e. IsOfSets e.0 (length config.now.sets.items)) }
{
    given_inputs();
    let copy = match config.try_clone() {
        Ok(copy) => copy,
        Err(NoMemory) => return Err((WorldFault::NoMemory, disks)),
    };
    let world = match World::open(alloc, copy, no_scripts(alloc), disks, JOURNAL_LIMIT) {
        Ok(world) => world,
        Err((fault, disks)) => return Err((fault, disks)),
    };
    match info_of(alloc, config, &world) {
        Ok(text) => Ok((text, world.close())),
        Err(NoMemory) => Err((WorldFault::NoMemory, world.close())),
    }
}
