//! A cluster is driven until all is answered, and brought to rest.

ghost use Rattle.std.specs.Prelude.{◌≡◌, ℕ, [], true, Some, IfErr, IfOk, OnErr, OnOk};
ghost use Rattle.vs_drive.specs.Ends.{EndsRun, IsDriveCause};
ghost use Rattle.vs_machine.specs.Kinds.Stops.{is_finished};
ghost use Rattle.vs_machine.specs.Settling.{IsSettled};
ghost use Rattle.vs_settle.specs.Service.{AddsServices};
ghost use Rattle.vs_settle.specs.Stopped.{AddsAndFails, IsSettleCause, KeepsFaults};
ghost use Rattle.vs_run.specs.Worlds.{IsDrivenFrom, IsSteered};
ghost use Rattle.vs_world.specs.Played.{began, state_of};
ghost use Rattle.vs_world.specs.World.{IsKept, IsLengthAt};

use std::alloc::Global;
use std::marker::Brand;
use std::sync::Wait;
use std::sync::ledger::{Blank, Ledger};
use std::thread::Threads;
use vs_base::NoMemory;
use vs_cluster::Cluster;
use vs_disk::Disk;
use vs_drive::{DriveFault, drive, drivers};
use vs_gate::Gate;
use vs_machine::{given_inputs, steered_posts};
use vs_settle::{SettleFault, Steps, settle};
use vs_world::World;

/// What every world keeps is kept by this one.
fn know<D: Disk + Drop>(world: &World<D>)
    ensures { IsKept D.told world.now }
{
    let _core = world.core();
}

/// The fault. The length of a journal that the drivers found full is that of what its disk reads as.
fn with_length<D: Disk + Drop>(world: &World<D>, fault: DriveFault) -> DriveFault
    requires { EndsRun world.now (Some fault) }
    ensures same { result ≡ fault }
    ensures length { (x : ℕ) → fault ≡ DriveFault.Full x → IsLengthAt D.told world.now x }
{
    match fault {
        DriveFault::Full(set) => {
            let _length = world.journal_len(set);
            DriveFault::Full(set)
        }
        DriveFault::NoMemory => DriveFault::NoMemory,
    }
}

/// Drives a cluster in which nothing has happened, until every call and every command is answered.
pub fn driven<D: Disk + Drop + Send, G: Gate + Sync, R: Threads + Wait + Sync>(
    rt: &R,
    alloc: Global,
    world: World<D>,
    gate: &G,
) -> Result<World<D>, (DriveFault, World<D>)>
    requires { world.played.events ≡ [] }
    ensures driven { IfOk result (λ w. IsDrivenFrom D.told world w) }
    ensures kept { IfOk result (λ w. IsKept D.told w) }
    ensures cause { IfErr result (λ r. IsDriveCause world r.1 r.0) }
    ensures length { IfErr result (λ r.
        (x : ℕ) → r.0 ≡ DriveFault.Full x → IsLengthAt D.told r.1 x) }
{
    let cluster = Cluster::new(world);
    let drivers = match drivers(alloc, cluster.world().core()) {
        Ok(drivers) => drivers,
        Err(NoMemory) => return Err((DriveFault::NoMemory, cluster.into_world())),
    };
    match drive(rt, alloc, cluster, gate, drivers) {
        Ok(cluster) => {
            let world = cluster.into_world();
            know(&world);
            Ok(world)
        }
        Err((fault, cluster)) => {
            let world = cluster.into_world();
            let fault = with_length(&world, fault);
            Err((fault, world))
        }
    }
}

/// Brings it to rest, in a new ledger of steps.
fn settle_in<D: Disk + Drop, L: Ledger>(
    world: &mut World<D>,
    blank: Blank,
) -> Result<(), SettleFault>
    requires name { blank.name ≡ L.name }
    requires parts { blank.parts ≡ L.parts }
    requires some { blank.parts ≡ 1 }
    requires finished { is_finished (state_of world.old.played) ≡ true }
    ensures settled { OnOk result (IsSettled (state_of world.new.played)) }
    ensures done { OnOk result (is_finished (state_of world.new.played) ≡ true) }
    ensures opening { world.new.played.opening ≡ world.old.played.opening }
    ensures added { OnOk result (AddsServices world.old.played.events world.new.played.events) }
    ensures adds { OnErr result (AddsAndFails world.old.played.events world.new.played.events) }
    ensures cause { IfErr result (IsSettleCause D.told world.old world.new) }
    ensures faults { KeepsFaults D.told world.old world.new }
    ensures kept { IsKept D.told world.new }
{
    let mut steps = Steps::<L>::new(blank);
    settle(world, &mut steps)
}

/// Brings a cluster to rest that was driven to its end.
pub fn rest<D: Disk + Drop>(world: &mut World<D>) -> Result<(), SettleFault>
    requires { is_finished (state_of world.old.played) ≡ true }
    ensures settled { OnOk result (IsSettled (state_of world.new.played)) }
    ensures done { OnOk result (is_finished (state_of world.new.played) ≡ true) }
    ensures began { began world.new.played ≡ began world.old.played }
    ensures steered { IsSteered D.told world.old → IsSteered D.told world.new }
    ensures cause { IfErr result (IsSettleCause D.told world.old world.new) }
    ensures kept { IsKept D.told world.new }
{
    steered_posts();
    given_inputs();
    know(world);
    settle_in::<D, Brand>(world, Blank::new(1))
}
