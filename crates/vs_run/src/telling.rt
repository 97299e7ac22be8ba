//! What is told of a cluster that came to rest.

ghost use Rattle.std.specs.Prelude.{◌≡◌, IfErr, IfOk, OnOk};
ghost use Rattle.vs_ending.specs.Ending.{KeepsHost};
ghost use Rattle.vs_event.specs.Event.{events_text};
ghost use Rattle.vs_host.specs.Calls.{Logs};
ghost use Rattle.vs_legal.specs.Laws.{AreBasesNamed};
ghost use Rattle.vs_machine.specs.Report as machine;
ghost use Rattle.vs_run.specs.Worlds.{IsTellingCause, IsTold};
ghost use Rattle.vs_world.specs.Played.{state_of};

use std::alloc::Global;
use vs_base::NoMemory;
use vs_disk::Disk;
use vs_event::{Piece, Trace, write_piece};
use vs_host::{Host, HostFailed};
use vs_machine::every_event;
use vs_named::{bases_are_named, is_short};
use vs_report::report;
use vs_top::Fault;
use vs_world::World;

/// Logs the text of events piece by piece, until a write fails. It takes no memory.
pub fn log_events<H: Host>(host: &mut H, trace: &Trace, piece: &mut Piece) -> Result<(), HostFailed>
    ensures { Logs (events_text trace.now.items) (H.told host.old) (H.told host.new) result }
{
    let mut next = 0;
    while next < trace.len() {
        next = write_piece(trace, next, piece);
        host.log(piece.bytes())?;
    }
    Ok(())
}

/// The report of a cluster.
fn report_of<D: Disk + Drop>(alloc: Global, world: &World<D>) -> Result<Vec<u8>, NoMemory>
    ensures text { IfOk result (λ text. text.items ≡ machine.report (state_of world.now.played)) }
    ensures named { AreBasesNamed (state_of world.now.played) }
{
    every_event();
    let state = world.core().state();
    bases_are_named(state);
    report(alloc, state)
}

/// Puts the report of a cluster out, and logs the text of its events.
pub fn tell<H: Host, D: Disk + Drop>(
    alloc: Global,
    world: &World<D>,
    host: &mut H,
    piece: &mut Piece,
) -> Result<(), Fault>
    ensures host { KeepsHost (H.told host.old) (H.told host.new) }
    ensures told { OnOk result (IsTold world.now (H.told host.old) (H.told host.new)) }
    ensures cause { IfErr result (λ fault.
        IsTellingCause world.now fault (H.told host.old) (H.told host.new)) }
{
    let text = report_of(alloc, world)?;
    is_short(&text);
    host.out(&text)?;
    log_events(host, world.trace(), piece)?;
    Ok(())
}
