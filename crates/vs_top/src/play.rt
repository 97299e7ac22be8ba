//! Events are played.

ghost use Rattle.std.specs.Prelude.{◌≡◌, ◌⊎◌, length, Ok, Err, IfOk, IfErr};
ghost use Rattle.vs_config.specs.Configuration.{configuration};
ghost use Rattle.vs_legal.specs.Laws.{AreBasesNamed};
ghost use Rattle.vs_machine.specs.Opening.{IsLawful};
ghost use Rattle.vs_machine.specs.Report as machine_report;
ghost use Rattle.vs_script.specs.Scripts as script;
ghost use Rattle.vs_world.specs.Played.{state_of};
ghost use Rattle.vs_top.specs.Faults.{IsOfPlay};
ghost use Rattle.vs_top.specs.Plays.{IsPlayCause, IsReportOf, fault_at, played_on};
ghost use Rattle.vs_top.specs.Stops.{Goes, IsFresh};

use std::alloc::Global;
use vs_base::{NoMemory, SetNo};
use vs_config::Config;
use vs_core::safe_runs;
use vs_disk::Disk;
use vs_event::{Reason, Trace};
use vs_machine::{every_event, given_inputs};
use vs_named::bases_are_named;
use vs_report::report;
use vs_script::Scripts;
use vs_world::{StepFault, World, WorldFault};

/// The greatest length of a journal, in bytes: 1 GiB.
pub const JOURNAL_LIMIT: u64 = 1 << 30;

/// Why events were not all played.
#[derive(Drop)]
pub enum PlayFault {
    /// The journals were not opened, or don't fit together.
    Opening(WorldFault),
    /// The event of this number, counted from 1, is impossible after those before it.
    Event(u64, Reason),
    /// At the event of this number the disk of this set failed.
    Disk(u64, SetNo),
    /// The entry of the event of this number would carry the journal of this set past the limit.
    Full(u64, SetNo),
    NoMemory,
}

impl From<NoMemory> for PlayFault {
    ghost use Rattle.std.specs.Prelude.{◌≡◌};
    ghost use Rattle.vs_top.specs.declared.play.PlayFault.TheVariants as faults;

    ghost from_gives = { λ _ fault. fault ≡ faults.NoMemory };

    fn from(_e: NoMemory) -> Self {
        PlayFault::NoMemory
    }
}

/// Why the event of this number isn't carried out.
fn fault_at(number: u64, fault: StepFault) -> PlayFault
    ensures { result ≡ fault_at number fault }
{
    match fault {
        StepFault::NotNow(reason) => PlayFault::Event(number, reason),
        StepFault::Full(set) => PlayFault::Full(number, set),
        StepFault::WentDown(set) | StepFault::OpenFault(set) => PlayFault::Disk(number, set),
        StepFault::NoMemory => PlayFault::NoMemory,
    }
}

/// Plays events on a cluster.
fn play<D: Disk + Drop>(world: &mut World<D>, trace: &Trace) -> Result<(), PlayFault>
    requires { IsFresh world.old }
    ensures { Goes D.told world.old world.new trace.now.items result }
{
    for (i, event) in trace.as_slice().iter().enumerate() {
        match world.step(*event) {
            Ok(()) => {}
            Err(fault) => return Err(fault_at(i as u64 + 1, fault)),
        }
    }
    Ok(())
}

/// The report of a cluster.
fn report_of<D: Disk + Drop>(alloc: Global, world: &World<D>) -> Result<Vec<u8>, NoMemory>
    ensures text { IfOk result (λ text.
        text.items ≡ machine_report.report (state_of world.now.played)) }
    ensures named { AreBasesNamed (state_of world.now.played) }
{
    every_event();
    let state = world.core().state();
    bases_are_named(state);
    report(alloc, state)
}

/// Plays events on a cluster, and gives its report.
fn report_after<D: Disk + Drop>(
    alloc: Global,
    world: &mut World<D>,
    trace: &Trace,
) -> Result<Vec<u8>, PlayFault>
    requires { IsFresh world.old }
    ensures goes { IfOk result (λ _. Goes D.told world.old world.new trace.now.items (Ok tt)) }
    ensures text { IfOk result (λ text.
        text.items ≡ machine_report.report (state_of world.new.played)) }
    ensures named { IfOk result (λ _. AreBasesNamed (state_of world.new.played)) }
    ensures stops { IfErr result (λ fault. fault ≡ PlayFault.NoMemory
        ⊎ Goes D.told world.old world.new trace.now.items (Err fault)) }
{
    play(world, trace)?;
    let text = report_of(alloc, world)?;
    Ok(text)
}

/// The report of the cluster of this configuration, these scripts and these disks, after these events. The disks come back.
pub fn played_report<D: Disk + Drop>(
    alloc: Global,
    config: &Config,
    scripts: Scripts,
    trace: &Trace,
    disks: Vec<D>,
) -> Result<(Vec<u8>, Vec<D>), (PlayFault, Vec<D>)>
    requires lawful { IsLawful (configuration config.now) (script.scripts scripts) }
    requires disks { length disks.items ≡ 32 }
    ensures ok_count { IfOk result (λ r. length r.1.items ≡ 32) }
    ensures err_count { IfErr result (λ e. length e.1.items ≡ 32) }
    ensures ok { IfOk result (λ r. IsReportOf (played_on D.told (configuration config.now)
        (script.scripts scripts) trace.now.items disks.items r.1.items) r.0.items) }
    ensures err { IfErr result (λ e. IsPlayCause e.0 (played_on D.told
        (configuration config.now) (script.scripts scripts) trace.now.items disks.items e.1.items)) }
    ensures named { IfErr result (λ e. IsOfPlay e.0 (length config.now.sets.items)) }
{
    safe_runs();
    given_inputs();
    let config = match config.try_clone() {
        Ok(config) => config,
        Err(NoMemory) => return Err((PlayFault::NoMemory, disks)),
    };
    let mut world = match World::open(alloc, config, scripts, disks, JOURNAL_LIMIT) {
        Ok(world) => world,
        Err((fault, disks)) => return Err((PlayFault::Opening(fault), disks)),
    };
    match report_after(alloc, &mut world, trace) {
        Ok(text) => Ok((text, world.close())),
        Err(fault) => Err((fault, world.close())),
    }
}
