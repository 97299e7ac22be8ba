//! The command that words are is carried out.

ghost use Rattle.std.specs.Prelude.{◌≡◌, Contains, None, Some, length};
ghost use Rattle.vs_command.specs.Command.{command, command_in};
ghost use Rattle.vs_ending.specs.Ending.{KeepsHost};
ghost use Rattle.vs_inputs.specs.Words.{MayRead, texts};
ghost use Rattle.vs_main.specs.Endings.{Ends, EndsBy, statuses};
ghost use Rattle.vs_main.specs.Good.{EndsWell, EndsWellBy};
ghost use Rattle.vs_top.specs.Endings.{between};

use crate::usage::log_usage;
use std::alloc::Global;
use std::sync::Wait;
use std::thread::Threads;
use vs_auditing::audit_report;
use vs_base::NoMemory;
use vs_command::{BUILT, Command, command_of};
use vs_disk::Disk;
use vs_ending::log_memory;
use vs_gate::Gate;
use vs_generating::run_generated;
use vs_host::Host;
use vs_informing::inform;
use vs_plan::plan;
use vs_reads::reads;
use vs_run::run_files;
use vs_top::play_main;

/// Carries out the command that the words are.
fn carry_out<H: Host, D: Disk + Drop + Send, G: Gate + Sync, R: Threads + Wait + Sync>(
    rt: &R,
    alloc: Global,
    asked: Command,
    words: &[String],
    host: &mut H,
    disks: &mut Vec<D>,
    gate: &G,
) -> u8
    requires asks { command_in BUILT (texts words.now) ≡ Some (command asked) }
    requires words { MayRead (H.told host.old) (texts words.now) }
    requires disks { length disks.old.items ≡ 32 }
    ensures ends { EndsBy (command asked.entry) result (between D.told (H.told host.old)
        (H.told host.new) disks.old.items disks.new.items) }
    ensures good { EndsWellBy (command asked.entry) result (between D.told (H.told host.old)
        (H.told host.new) disks.old.items disks.new.items) }
    ensures host { KeepsHost (H.told host.old) (H.told host.new) }
    ensures count { length disks.new.items ≡ 32 }
{
    match asked {
        Command::Run { config, files } => { run_files(rt, alloc, config, files, host, disks, gate) }
        Command::Play { .. } => play_main(words, host, disks),
        Command::Reads {
            config,
            rows,
            files,
        } => reads(rt, alloc, config, rows, files, host, gate),
        Command::Plan { config, counts } => plan(alloc, config, counts, host),
        Command::Audit { report } => audit_report(alloc, report, host),
        Command::Info { config } => inform(alloc, config, host, disks),
        Command::Gen(number) => run_generated(rt, alloc, number, host, gate),
    }
}

/// The program: carries out the command that the words after its name are, and answers the status with which it ends. It puts
/// out what the command says, and logs one line where the status isn't 0. Words that are no command are answered by a line that
/// names the commands. Of the 32 disks the first has the journal of set 1; they come back in their places. At the gate threads may be
/// held up.
pub fn vshard_main<H: Host, D: Disk + Drop + Send, G: Gate + Sync, R: Threads + Wait + Sync>(
    rt: &R,
    alloc: Global,
    words: &[String],
    host: &mut H,
    disks: &mut Vec<D>,
    gate: &G,
) -> u8
    requires words { MayRead (H.told host.old) (texts words.now) }
    requires disks { length disks.old.items ≡ 32 }

    // Each status is one of eleven, and 2 comes only where the words are no command.
    ensures status { Contains statuses result }
    ensures usage { result ≡ 2 → command_in BUILT (texts words.now) ≡ None }

    // How each command ends, and words that are none.
    ensures ends { Ends (command_in BUILT (texts words.now)) result (between D.told
        (H.told host.old) (H.told host.new) disks.old.items disks.new.items) }

    // Where nothing of the outside fails, good inputs end so.
    ensures good { EndsWell (command_in BUILT (texts words.now)) result (between D.told
        (H.told host.old) (H.told host.new) disks.old.items disks.new.items) }

    // What stays.
    ensures host { KeepsHost (H.told host.old) (H.told host.new) }
    ensures count { length disks.new.items ≡ 32 }
{
    let found = match command_of(alloc, BUILT, words) {
        Ok(found) => found,
        Err(NoMemory) => return log_memory(host),
    };
    match found {
        Some(asked) => carry_out(rt, alloc, asked, words, host, disks, gate),
        None => log_usage(alloc, host),
    }
}
