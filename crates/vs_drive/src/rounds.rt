//! A cluster is driven until every call and every command is answered.

ghost use Rattle.std.specs.Prelude.{◌≡◌, ◌↔◌, true, All, Any, IfErr, IfOk, IfNone, IsSome, IsTrue};
ghost use Rattle.vs_machine.specs.Kinds.Stops.{is_finished};
ghost use Rattle.vs_world.specs.Began.{begun};
ghost use Rattle.vs_world.specs.Played.{began, state_of};
ghost use Rattle.vs_drive.specs.Drivers.{actor, actor_of};
ghost use Rattle.vs_drive.specs.Ends.{EndsRun, IsDriveCause, IsNearlyFull};

use crate::driver::{Actor, DriveFault, Driver};
use crate::standing::{core_in, state_in};
use crate::turn::Turn;
use crate::turns::turn;
use std::alloc::Global;
use std::sync::{Mutex, Wait};
use std::thread;
use std::thread::Threads;
use vs_base::{NoMemory, SetNo};
use vs_cluster::Cluster;
use vs_disk::Disk;
use vs_gate::Gate;
use vs_survey::finished;
use vs_world::Opening;

/// After so many turns without an event a driver waits for the next round. So the drivers of a round may run one after another.
const IDLE_TURNS: u32 = 1_024;

/// The length of the longest entry of a journal, in bytes.
const LONGEST_ENTRY: u64 = 1_048_581;

/// One turn, in one hold of the lock.
fn turn_in_lock<D: Disk + Drop>(
    rt: &impl Wait,
    alloc: Global,
    shared: &Mutex<Cluster<D>>,
    whose: &mut Actor,
) -> Turn
    ensures { actor whose.new ≡ actor whose.old }
{
    let mut cluster = shared.lock(rt);
    turn(alloc, &mut cluster, whose)
}

/// A driver's part of a round: its turns, until it has finished, can't go on, or had 1,024 turns without an event. After each
/// event it passes the gate, when it has given the lock back.
fn burst<D: Disk + Drop, G: Gate>(
    rt: &impl Wait,
    alloc: Global,
    shared: &Mutex<Cluster<D>>,
    gate: &G,
    driver: &mut Driver,
)
    ensures { actor_of driver.new ≡ actor_of driver.old }
{
    driver.fault = None;
    let mut idle = 0;
    for _ in rt.forever() {
        match turn_in_lock(rt, alloc, shared, &mut driver.actor) {
            Turn::Done(place) => gate.pass(place.who, place.call, place.stage),
            Turn::Idle | Turn::Learned | Turn::Failed => {
                idle += 1;
                if idle == IDLE_TURNS {
                    return;
                }
                thread::yield_now();
            }
            Turn::Stopped(fault) => {
                driver.fault = Some(fault);
                return;
            }
            Turn::Finished => return,
        }
    }
}

/// One round: the part of each driver, each in a thread of its own where there are threads.
fn round<D: Disk + Drop + Send, G: Gate + Sync, R: Threads + Wait + Sync>(
    rt: &R,
    alloc: Global,
    cluster: Cluster<D>,
    gate: &G,
    drivers: &mut [Driver],
) -> Cluster<D> {
    let threads = drivers.len().max(1);
    let shared = Mutex::new(cluster);
    let lock = &shared;
    thread::for_each_mut(
        rt,
        drivers,
        threads,
        &|_, driver| burst(rt, alloc, lock, gate, driver),
    );
    shared.into_inner()
}

/// Whether a set is up, and the longest entry would carry its journal past the limit.
fn is_nearly_full<D: Disk + Drop>(cluster: &Cluster<D>, set: SetNo) -> bool
    ensures { IsTrue result ↔ IsNearlyFull cluster.now.world set }
{
    let state = state_in(cluster);
    if !state.has_set(set) {
        return false;
    }
    if !state.up(set) {
        return false;
    }
    let world = cluster.world();
    world.limit().saturating_sub(LONGEST_ENTRY) < world.journal_len(set)
}

/// Whether there is a fault that ends the run: want of memory does, and the journal of a set that is up without room for the longest
/// entry.
fn ends_run<D: Disk + Drop>(cluster: &Cluster<D>, fault: &Option<DriveFault>) -> bool
    ensures { IsTrue result ↔ EndsRun cluster.now.world fault.now }
{
    match fault {
        Some(DriveFault::Full(set)) => is_nearly_full(cluster, *set),
        Some(DriveFault::NoMemory) => true,
        None => false,
    }
}

/// The first driver's fault that ends the run.
fn ending_fault<D: Disk + Drop>(cluster: &Cluster<D>, drivers: &[Driver]) -> Option<DriveFault>
    ensures ends { IsSome result → EndsRun cluster.now.world result }
    ensures driver { IsSome result → Any (λ d. d.fault ≡ result) drivers.now }
    ensures none { IfNone result (All (λ d. ¬ (EndsRun cluster.now.world d.fault)) drivers.now) }
{
    for driver in drivers {
        if ends_run(cluster, &driver.fault) {
            return driver.fault;
        }
    }
    None
}

/// Whether the cluster is driven to its end: every call and every command is answered.
fn is_driven<D: Disk + Drop>(cluster: &Cluster<D>) -> bool
    ensures { IsTrue result ↔ (is_finished (state_of cluster.now.world.played) ≡ true) }
{
    finished(core_in(cluster))
}

/// Whether the cluster began with this.
fn began_with<D: Disk + Drop>(cluster: &Cluster<D>, opening: &Opening) -> bool
    ensures { IsTrue result ↔ (begun opening.now ≡ began cluster.now.world.played) }
{
    opening.equals(cluster.world().opening())
}

/// A copy of what the cluster began with.
fn beginning<D: Disk + Drop>(cluster: &Cluster<D>) -> Result<Opening, NoMemory>
    ensures { IfOk result (λ copy. begun copy ≡ began cluster.now.world.played) }
{
    cluster.world().opening().try_clone()
}

/// Drives a cluster until every call and every command is answered: in rounds, in which each driver has a thread, and holds the lock
/// for one event at most.
///
/// What the drivers did is known by the type of the cluster: its list of events is a run from what it began with, its posts are
/// steered, and no disk's fault was made up. That a run ends is promised nowhere: a disk may fail again and again. Of threads that
/// two of them ran isn't proved either.
pub fn drive<D: Disk + Drop + Send, G: Gate + Sync, R: Threads + Wait + Sync>(
    rt: &R,
    alloc: Global,
    cluster: Cluster<D>,
    gate: &G,
    drivers: Vec<Driver>,
) -> Result<Cluster<D>, (DriveFault, Cluster<D>)>
    // Every call and every command is answered, in the cluster that began as the one that was handed in.
    ensures finished { IfOk result (λ driven. is_finished (state_of driven.world.played) ≡ true) }
    ensures began { IfOk result (λ driven. began driven.world.played ≡ began cluster.world.played) }

    // A journal is called full only where the longest entry would carry it past the limit.
    ensures cause { IfErr result (λ r. IsDriveCause cluster.world r.1.world r.0) }
{
    let opening = match beginning(&cluster) {
        Ok(opening) => opening,
        Err(NoMemory) => return Err((DriveFault::NoMemory, cluster)),
    };
    let mut drivers = drivers;
    let mut cluster = cluster;
    for _ in rt.forever() {
        cluster = round(rt, alloc, cluster, gate, &mut drivers);
        if !began_with(&cluster, &opening) {
            continue;
        }
        if is_driven(&cluster) {
            return Ok(cluster);
        }
        if let Some(fault) = ending_fault(&cluster, &drivers) {
            return Err((fault, cluster));
        }
    }
    unreachable!()
}
