//! The scripts are run, and the cluster comes to rest.

ghost use Rattle.std.specs.Prelude.{◌≡◌, [], IfOk};
ghost use Rattle.vs_generating.specs.Faults.{IsNoDiskFault, IsOfDrivers};
ghost use Rattle.vs_generating.specs.Running.{IsBeginning, IsRunOf};
ghost use Rattle.vs_world.specs.Played.{began, state_of};

use crate::beginning::PlainWorld;
use std::alloc::Global;
use std::sync::Wait;
use std::thread::Threads;
use vs_base::NoMemory;
use vs_core::safe_runs;
use vs_drive::DriveFault;
use vs_gate::Gate;
use vs_machine::{given_inputs, steered_posts};
use vs_run::{driven, rest};
use vs_settle::SettleFault;

/// Want of memory. No journal of these disks is so long that the longest entry would carry it past the limit.
fn of_drivers(world: &PlainWorld, fault: DriveFault) -> NoMemory
    requires { IsOfDrivers world.now fault }
{
    match fault {
        DriveFault::NoMemory => NoMemory,
        DriveFault::Full(set) => {
            given_inputs();
            let (_core, _length) = (world.core(), world.journal_len(set));
            unreachable!()
        }
    }
}

/// Want of memory: no disk in memory fails. That no journal of them can be full isn't proved here: the service tells of
/// a full one only its set, and not the length that it would have, which is one of 64 bits and so not above the limit.
fn of_service(fault: SettleFault) -> NoMemory
    requires { IsNoDiskFault fault }
{
    match fault {
        SettleFault::NoMemory | SettleFault::Full(_) => NoMemory,
        SettleFault::DiskFault(_) => unreachable!(),
    }
}

/// The same cluster, after all is answered and it has come to rest.
pub(crate) fn finished<G: Gate + Sync, R: Threads + Wait + Sync>(
    rt: &R,
    alloc: Global,
    number: u32,
    world: PlainWorld,
    gate: &G,
) -> Result<PlainWorld, NoMemory>
    requires events { world.played.events ≡ [] }
    requires beginning { IsBeginning number (began world.played) }
    ensures { IfOk result (λ w. IsRunOf number w.played.events (state_of w.played)) }
{
    safe_runs();
    steered_posts();
    given_inputs();
    match driven(rt, alloc, world, gate) {
        Ok(driven) => {
            let mut world = driven;
            match rest(&mut world) {
                Ok(()) => Ok(world),
                Err(fault) => Err(of_service(fault)),
            }
        }
        Err((fault, world)) => Err(of_drivers(&world, fault)),
    }
}
