//! The command `run`, from files to a report and a list of events.

ghost use Rattle.std.specs.Prelude.{◌≡◌, ℕ, List, [], Contains, IfErr, IfOk, IsTrue, ◌↔◌, length, true};
ghost use Rattle.vs_config.specs.Configuration.{configuration};
ghost use Rattle.vs_ending.specs.Ending.{KeepsHost};
ghost use Rattle.vs_inputs.specs.Files.{Files};
ghost use Rattle.vs_inputs.specs.RunInputs.{AreGoodRunInputs, MayReadRunFiles, run_names};
ghost use Rattle.vs_inputs.specs.Words.{texts};
ghost use Rattle.vs_machine.specs.Kinds.Stops.{is_finished};
ghost use Rattle.vs_machine.specs.Opening.{IsLawful};
ghost use Rattle.vs_named.specs.Named.{AreRead};
ghost use Rattle.vs_script.specs.Scripts as script;
ghost use Rattle.vs_run.specs.Endings.{Ends, EndsWell, HasGiven, IsFilesCause, IsRunCause, IsRunEnd, statuses};
ghost use Rattle.vs_run.specs.Worlds.{IsEnd, IsEndCause, IsOfDisk, IsRunOn, IsSteered, from_drivers, from_service};
ghost use Rattle.vs_top.specs.Endings.{AreGoodDisks, MayEndGood, between};
ghost use Rattle.vs_top.specs.Faults.{IsNumbered};
ghost use Rattle.vs_world.specs.Played.{began, state_of};
ghost use Rattle.vs_world.specs.World.{IsKept};

use crate::driving::{driven, rest};
use crate::telling::{log_events, tell};
use std::alloc::Global;
use std::mem;
use std::sync::Wait;
use std::thread::Threads;
use vs_core::safe_runs;
use vs_disk::Disk;
use vs_drive::DriveFault;
use vs_ending::log_bytes;
use vs_event::Piece;
use vs_gate::Gate;
use vs_host::Host;
use vs_inputs::{RunInputs, read_run_inputs};
use vs_machine::given_inputs;
use vs_named::reports_are_legal;
use vs_settle::SettleFault;
use vs_top::{Fault, JOURNAL_LIMIT, fault_text, log_fault};
use vs_world::World;

/// The status of a disk that failed.
const DISK_FAILED: u8 = 7;

/// Why the service stopped.
fn of_service(fault: SettleFault) -> Fault
    ensures is { result ≡ from_service fault }
    ensures numbered { IsNumbered result }
{
    match fault {
        SettleFault::DiskFault(set) => Fault::Disk(set),
        SettleFault::Full(set) => Fault::Full(set),
        SettleFault::NoMemory => Fault::NoMemory,
    }
}

/// Whether a disk failed.
fn is_of_disk(fault: &Fault) -> bool
    ensures { IsTrue result ↔ IsOfDisk fault.now }
{
    matches!(fault, Fault::Disk(_))
}

/// Brings a cluster to rest that was driven to its end, and tells of it. Where a disk fails then, its events are logged, and the
/// line of that.
fn end<H: Host, D: Disk + Drop>(
    alloc: Global,
    world: &mut World<D>,
    host: &mut H,
    piece: &mut Piece,
) -> Result<u8, Fault>
    requires { is_finished (state_of world.old.played) ≡ true }
    ensures host { KeepsHost (H.told host.old) (H.told host.new) }
    ensures began { began world.new.played ≡ began world.old.played }
    ensures steered { IsSteered D.told world.old → IsSteered D.told world.new }
    ensures kept { IsKept D.told world.new }
    ensures ends { IfOk result (λ status.
        IsEnd D.told status world.old world.new (H.told host.old) (H.told host.new)) }
    ensures cause { IfErr result (λ fault.
        IsEndCause fault world.new (H.told host.old) (H.told host.new)) }
{
    match rest(world) {
        Ok(()) => {
            tell(alloc, world, host, piece)?;
            Ok(0)
        }
        Err(stopped) => {
            let fault = of_service(stopped);
            if !is_of_disk(&fault) {
                return Err(fault);
            }
            let line = fault_text(alloc, &fault)?;
            let _ = log_events(host, world.trace(), piece);
            log_bytes(host, &line);
            Ok(DISK_FAILED)
        }
    }
}

/// Why the drivers stopped.
fn of_drivers(fault: DriveFault) -> Fault
    ensures { result ≡ from_drivers fault }
{
    match fault {
        DriveFault::Full(set) => Fault::Full(set),
        DriveFault::NoMemory => Fault::NoMemory,
    }
}

/// Runs scripts on a world in which nothing has happened. Its disks come back.
fn run_world<H: Host, D: Disk + Drop + Send, G: Gate + Sync, R: Threads + Wait + Sync>(
    rt: &R,
    alloc: Global,
    world: World<D>,
    host: &mut H,
    gate: &G,
    piece: &mut Piece,
) -> (Result<u8, Fault>, Vec<D>)
    requires { world.played.events ≡ [] }
    ensures host { KeepsHost (H.told host.old) (H.told host.new) }
    ensures count { length result.1.items ≡ 32 }
    ensures ends { IsRunOn D.told world result.0 result.1.items (H.told host.old) (H.told host.new) }
{
    match driven(rt, alloc, world, gate) {
        Ok(driven) => {
            let mut driven = driven;
            let answer = end(alloc, &mut driven, host, piece);
            (answer, driven.close())
        }
        Err((fault, world)) => (Err(of_drivers(fault)), world.close()),
    }
}

/// Runs the scripts on the disks, which come back.
fn run_on<H: Host, D: Disk + Drop + Send, G: Gate + Sync, R: Threads + Wait + Sync>(
    rt: &R,
    alloc: Global,
    inputs: RunInputs,
    host: &mut H,
    disks: &mut Vec<D>,
    gate: &G,
    piece: &mut Piece,
) -> Result<u8, Fault>
    requires lawful { IsLawful (configuration inputs.config) (script.scripts inputs.scripts) }
    requires disks { length disks.old.items ≡ 32 }
    ensures host { KeepsHost (H.told host.old) (H.told host.new) }
    ensures count { length disks.new.items ≡ 32 }
    ensures ends { (files : Files) (names : List (List ℕ))
        → AreRead files names (configuration inputs.config) (script.scripts inputs.scripts)
        → IfOk result (λ status. IsRunEnd status (between D.told (H.told host.old)
        (H.told host.new) disks.old.items disks.new.items) (configuration inputs.config) (script.scripts inputs.scripts)) }
    ensures cause { IfErr result (λ fault. IsRunCause fault (between D.told (H.told host.old)
        (H.told host.new) disks.old.items disks.new.items) (configuration inputs.config)
        (script.scripts inputs.scripts) (H.told host.new).log) }
    ensures good { AreGoodDisks D.told (configuration inputs.config) disks.old.items
        → IfErr result MayEndGood }
{
    safe_runs();
    given_inputs();
    reports_are_legal();
    let RunInputs { config, scripts } = inputs;
    let copy = config.try_clone()?;
    let given = mem::replace(disks, Vec::new(alloc));
    match World::open(alloc, copy, scripts, given, JOURNAL_LIMIT) {
        Ok(world) => {
            let (answer, back) = run_world(rt, alloc, world, host, gate, piece);
            *disks = back;
            answer
        }
        Err((fault, back)) => {
            *disks = back;
            Err(Fault::of_opening(fault, &config))
        }
    }
}

/// Reads the files, and runs the scripts.
fn run_inputs<H: Host, D: Disk + Drop + Send, G: Gate + Sync, R: Threads + Wait + Sync>(
    rt: &R,
    alloc: Global,
    config: &str,
    files: &[String],
    host: &mut H,
    disks: &mut Vec<D>,
    gate: &G,
) -> Result<u8, Fault>
    requires files { MayReadRunFiles (H.told host.old) (run_names config.now (texts files.now)) }
    requires disks { length disks.old.items ≡ 32 }
    ensures host { KeepsHost (H.told host.old) (H.told host.new) }
    ensures count { length disks.new.items ≡ 32 }
    ensures ends { IfOk result (λ status. HasGiven (between D.told (H.told host.old)
        (H.told host.new) disks.old.items disks.new.items) (run_names config.now (texts files.now))
        (IsRunEnd status (between D.told (H.told host.old) (H.told host.new) disks.old.items
        disks.new.items))) }
    ensures cause { IfErr result (λ fault. IsFilesCause fault (between D.told (H.told host.old)
        (H.told host.new) disks.old.items disks.new.items) (run_names config.now (texts files.now))) }
    ensures good { (files : AreGoodRunInputs (H.told host.old).file
        (run_names config.now (texts files.now)))
        → AreGoodDisks D.told files.config disks.old.items → IfErr result MayEndGood }
{
    let inputs = read_run_inputs(alloc, host, config, files)?;
    let mut piece = Piece::new(alloc)?;
    run_on(rt, alloc, inputs, host, disks, gate, &mut piece)
}

/// `run CONFIG FILE...`: runs the scripts of the files side by side on the cluster of a configuration, over the journals of its
/// sets, until every call and every command is answered and the cluster has come to rest. Then it puts the report out, and logs
/// the list of all events, which `play` takes. It answers the status, and logs one line where that isn't 0. Of the 32 disks the
/// first has the journal of set 1; they come back in their places.
pub fn run_files<H: Host, D: Disk + Drop + Send, G: Gate + Sync, R: Threads + Wait + Sync>(
    rt: &R,
    alloc: Global,
    config: &str,
    files: &[String],
    host: &mut H,
    disks: &mut Vec<D>,
    gate: &G,
) -> u8
    requires files { MayReadRunFiles (H.told host.old) (run_names config.now (texts files.now)) }
    requires disks { length disks.old.items ≡ 32 }
    ensures status { Contains statuses result }
    ensures ends { Ends result (run_names config.now (texts files.now)) (between D.told
        (H.told host.old) (H.told host.new) disks.old.items disks.new.items) }

    // Where neither a read nor a write fails, and no disk, good files over good disks end so.
    ensures good { EndsWell result (run_names config.now (texts files.now)) (between D.told
        (H.told host.old) (H.told host.new) disks.old.items disks.new.items) }

    // What stays.
    ensures host { KeepsHost (H.told host.old) (H.told host.new) }
    ensures count { length disks.new.items ≡ 32 }
{
    match run_inputs(rt, alloc, config, files, host, disks, gate) {
        Ok(status) => status,
        Err(fault) => log_fault(alloc, host, &fault),
    }
}
