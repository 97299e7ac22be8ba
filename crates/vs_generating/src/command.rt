//! The command: from a number to a summary and a list of events.

ghost use Rattle.std.specs.Prelude.{◌≡◌, ◌∷◌, [], Contains, IfErr, IfOk, OnOk};
ghost use Rattle.vs_base.specs.Faults.{Rose};
ghost use Rattle.vs_ending.specs.Ending.{KeepsHost};
ghost use Rattle.vs_generating.specs.Endings.{Ends, IsCause, IsTold, ReadsNothing, statuses};
ghost use Rattle.vs_generating.specs.Running.{IsRunOf};
ghost use Rattle.vs_generating.specs.Summary.{summary_text};
ghost use Rattle.vs_world.specs.Played.{state_of};

use crate::beginning::{PlainWorld, begin};
use crate::fault::Fault;
use crate::running::finished;
use crate::summary::summary;
use std::alloc::Global;
use std::sync::Wait;
use std::thread::Threads;
use vs_base::NoMemory;
use vs_ending::{log_memory, log_write};
use vs_event::Piece;
use vs_gate::Gate;
use vs_host::Host;
use vs_machine::{due_answers, every_event, given_inputs};
use vs_run::log_events;

/// The summary of a cluster.
fn summary_of(alloc: Global, number: u32, world: &PlainWorld) -> Result<Vec<u8>, NoMemory>
    ensures { IfOk result (λ text.
        text.items ≡ summary_text number (state_of world.now.played) world.now.played.events) }
{
    every_event();
    given_inputs();
    due_answers();
    summary(
        alloc,
        number,
        world.core().state(),
        world.trace().as_slice(),
    )
}

/// Puts the summary of a cluster out, and logs the text of its events.
fn tell<H: Host>(alloc: Global, number: u32, world: &PlainWorld, host: &mut H) -> Result<(), Fault>
    requires { IsRunOf number world.now.played.events (state_of world.now.played) }
    ensures told { OnOk result (IsTold number (H.told host.old) (H.told host.new)) }
    ensures cause { IfErr result (λ fault. IsCause number fault (H.told host.old) (H.told host.new)) }
    ensures host { KeepsHost (H.told host.old) (H.told host.new) }
    ensures unread { ReadsNothing (H.told host.old) (H.told host.new) }
{
    let mut piece = Piece::new(alloc)?;
    let text = summary_of(alloc, number, world)?;
    host.out(&text)?;
    log_events(host, world.trace(), &mut piece)?;
    Ok(())
}

/// Runs what a number generates, and tells of it.
fn run_number<H: Host, G: Gate + Sync, R: Threads + Wait + Sync>(
    rt: &R,
    alloc: Global,
    number: u32,
    host: &mut H,
    gate: &G,
) -> Result<(), Fault>
    ensures told { OnOk result (IsTold number (H.told host.old) (H.told host.new)) }
    ensures cause { IfErr result (λ fault. IsCause number fault (H.told host.old) (H.told host.new)) }
    ensures host { KeepsHost (H.told host.old) (H.told host.new) }
    ensures unread { ReadsNothing (H.told host.old) (H.told host.new) }
{
    let world = begin(alloc, number)?;
    let world = finished(rt, alloc, number, world, gate)?;
    tell(alloc, number, &world, host)
}

/// `gen NUMBER`: makes work of a number, and runs it on a cluster of disks in memory. A new cluster of four sets of the same weight
/// is left at once; over its journals, with twice the weight for the first set, an operator balances while eight clients make
/// 2,500 calls each, and the cluster comes to rest. The summary is put out, and the list of all events is logged. It answers the
/// status, and logs one line where that isn't 0. The same number makes the same work; how its actors take turns may differ.
pub fn run_generated<H: Host, G: Gate + Sync, R: Threads + Wait + Sync>(
    rt: &R,
    alloc: Global,
    number: u32,
    host: &mut H,
    gate: &G,
) -> u8
    ensures status { Contains statuses result }
    ensures ends { Ends result number (H.told host.old) (H.told host.new) }

    // Where no write fails it ends so.
    ensures good { ¬ (Rose (H.told host.old).write_faults (H.told host.new).write_faults)
        → Contains (0 ∷ 9 ∷ []) result }

    // What stays.
    ensures host { KeepsHost (H.told host.old) (H.told host.new) }
    ensures unread { ReadsNothing (H.told host.old) (H.told host.new) }
{
    match run_number(rt, alloc, number, host, gate) {
        Ok(()) => 0,
        Err(Fault::Write) => log_write(host),
        Err(Fault::NoMemory) => log_memory(host),
    }
}
