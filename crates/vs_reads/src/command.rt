//! The command: from the files to the answers, and how it ends.

ghost use Rattle.std.specs.Prelude.{◌≡◌, ◌≤◌, ◌∷◌, [], Contains, All, IsTrue, IfOk, IfErr, OnOk, map, length};
ghost use Rattle.vs_ending.specs.Ending.{KeepsHost, NoneRose};
ghost use Rattle.vs_script.specs.Calls.{calls};
ghost use Rattle.vs_script.specs.Lawful.{IsLawfulCall};
ghost use Rattle.vs_reads.specs.Endings.{Ends, AreAnswered, IsCause, IsOfOutside};
ghost use Rattle.vs_reads.specs.Given.{AreGood};
ghost use Rattle.vs_reads.specs.Names.{names, MayRead};
ghost use Rattle.vs_reads.specs.Reads.{reads_of, reads_text, rows_in};

use crate::answers::results_of;
use crate::fault::ReadsFault;
use crate::fault_line::log_fault;
use crate::given::{Given, read_files};
use crate::jobs::jobs_of;
use crate::rows::rows_after;
use crate::text::text_of;
use std::alloc::Global;
use std::sync::Wait;
use std::thread::Threads;
use vs_base::NoMemory;
use vs_gate::Gate;
use vs_host::Host;

/// What the reads answer on the rows that the writes leave.
fn answers_for<R: Threads + Wait + Sync, G: Gate + Sync>(
    rt: &R,
    alloc: Global,
    given: Given,
    gate: &G,
) -> Result<Vec<u8>, NoMemory>
    requires buckets { (1 ≤ given.buckets) × (given.buckets ≤ 30000) }
    requires writes { All (IsLawfulCall given.buckets) (calls given.writes.items) }
    requires clients { All (All (IsLawfulCall given.buckets))
        (map (λ c. calls c.items) given.clients.items) }
    requires few { (length given.clients.items ≤ 64)
        × All (λ c. length c.items ≤ 200000) given.clients.items }
    ensures { IfOk result (λ text. text.items ≡ reads_text (rows_in (calls given.writes.items))
        (reads_of (map (λ c. calls c.items) given.clients.items))) }
{
    let Given {
        buckets,
        writes,
        clients,
    } = given;
    let maps = rows_after(alloc, buckets, writes.as_slice())?;
    let jobs = jobs_of(alloc, clients)?;
    let results = results_of(rt, alloc, &maps, &jobs, gate)?;
    text_of(alloc, maps.as_slice(), jobs.as_slice(), results.as_slice())
}

/// Answers the reads of the files, and puts the answers out.
fn read_and_answer<R: Threads + Wait + Sync, H: Host, G: Gate + Sync>(
    rt: &R,
    alloc: Global,
    config: &str,
    rows: &str,
    files: &[String],
    host: &mut H,
    gate: &G,
) -> Result<(), ReadsFault>
    requires { MayRead (H.told host.old) (names config.now rows.now files.now) }
    ensures host { KeepsHost (H.told host.old) (H.told host.new) }
    ensures log { (H.told host.new).log ≡ (H.told host.old).log }
    ensures ok { OnOk result
        (AreAnswered (H.told host.old) (H.told host.new) (names config.now rows.now files.now)) }
    ensures err { IfErr result (λ fault.
        IsCause fault (H.told host.old) (H.told host.new) (names config.now rows.now files.now)) }
    ensures good { AreGood (H.told host.old).file (names config.now rows.now files.now)
        → IfErr result IsOfOutside }
{
    let given = read_files(alloc, host, config, rows, files)?;
    let text = answers_for(rt, alloc, given, gate)?;
    host.out(&text)?;
    Ok(())
}

/// `reads CONFIG ROWS FILE...`: applies the writes of the client's script `rows`, and puts out what the reads of the other
/// scripts answer then, as a pool of four workers serves them. It answers the status, and logs one line where that isn't 0.
///
/// A worker passes the gate after it has taken a read and before it answers it: it is 401 to 404, and the call is the place of
/// the read among all, from 1.
pub fn reads<R: Threads + Wait + Sync, H: Host, G: Gate + Sync>(
    rt: &R,
    alloc: Global,
    config: &str,
    rows: &str,
    files: &[String],
    host: &mut H,
    gate: &G,
) -> u8
    requires files { MayRead (H.told host.old) (names config.now rows.now files.now) }

    // Each status is one of five.
    ensures status { Contains (0 ∷ 3 ∷ 5 ∷ 6 ∷ 9 ∷ []) result }

    // What each of them says.
    ensures ends { Ends result (H.told host.old) (H.told host.new)
        (names config.now rows.now files.now) }

    // Where neither a read nor a write fails, good files end so.
    ensures good { AreGood (H.told host.old).file (names config.now rows.now files.now)
        → NoneRose (H.told host.old) (H.told host.new) → Contains (0 ∷ 9 ∷ []) result }

    // What stays.
    ensures host { KeepsHost (H.told host.old) (H.told host.new) }
{
    match read_and_answer(rt, alloc, config, rows, files, host, gate) {
        Ok(()) => 0,
        Err(fault) => log_fault(alloc, host, fault),
    }
}
