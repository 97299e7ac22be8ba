//! What the files give.

ghost use Rattle.std.specs.Prelude.{◌≡◌, ◌≤◌, [], ◌∷◌, All, IfOk, IfErr, map, length};
ghost use Rattle.vs_config.specs.Configuration.{configuration};
ghost use Rattle.vs_inputs.specs.Reading.{OnlyReads};
ghost use Rattle.vs_script.specs.Calls.{calls};
ghost use Rattle.vs_script.specs.Lawful.{IsLawfulCall};
ghost use Rattle.vs_script.specs.Scripts.{Client, script};
ghost use Rattle.vs_reads.specs.Causes.{IsGatherCause, IsInputCause};
ghost use Rattle.vs_reads.specs.Endings.{IsOfOutside};
ghost use Rattle.vs_reads.specs.Given.{AreGiven, AreGood, MayGather};
ghost use Rattle.vs_reads.specs.Names.{names, MayRead};

use crate::fault::ReadsFault;
use crate::scripts::{read_calls_file, read_calls_files};
use std::alloc::Global;
use vs_base::{Items, Mode, NoMemory};
use vs_host::Host;
use vs_inputs::{TextFault, read_config_file};
use vs_script::{Calls, ClientCalls, GatherFault, Script, Scripts, gather};

/// The place of the writes among the words after the command, from 1.
const ROWS_PLACE: u64 = 2;

/// What the files give: the number of buckets, the writes, and the reads of each client.
#[derive(Drop)]
pub struct Given {
    pub buckets: u32,
    pub writes: Calls,
    pub clients: ClientCalls,
}

/// A script for each client.
fn scripts_of(alloc: Global, clients: ClientCalls) -> Result<Vec<Script>, NoMemory>
    ensures { IfOk result (λ scripts.
        map script scripts.items ≡ map Client (map (λ c. calls c.items) clients.items)) }
{
    let mut scripts = Vec::new(alloc);
    for calls in clients.into_vec() {
        scripts.push(Script::Client(calls))?;
    }
    Ok(scripts)
}

fn clients_of(gathered: Scripts) -> ClientCalls
    ensures { result ≡ gathered.clients }
{
    gathered.clients
}

/// The same clients, where they may run together. The first script has the place after `before`.
fn gathered(alloc: Global, clients: ClientCalls, before: u64) -> Result<ClientCalls, ReadsFault>
    requires { before ≤ 2 }
    ensures ok { IfOk result (λ c.
        map (λ c. calls c.items) c.items ≡ map (λ c. calls c.items) clients.items) }
    ensures gather { IfOk result (λ _. MayGather (map (λ c. calls c.items) clients.items)) }
    ensures few { IfOk result (λ c. (length c.items ≤ 64) × All (λ c. length c.items ≤ 200000) c.items) }
    ensures err { IfErr result (λ fault.
        IsGatherCause fault before (map (λ c. calls c.items) clients.items)) }
{
    let scripts = scripts_of(alloc, clients)?;
    match gather(alloc, scripts) {
        Ok(scripts) => Ok(clients_of(scripts)),
        Err(GatherFault::Bad { kind, script, item }) => Err(ReadsFault::Text(
            before + u64::from(script),
            TextFault::Gather(kind, item),
        )),
        Err(GatherFault::NoMemory) => Err(ReadsFault::NoMemory),
    }
}

/// The writes, where one client may run them.
fn gathered_writes(alloc: Global, writes: Calls) -> Result<Calls, ReadsFault>
    ensures ok { IfOk result (λ c. calls c.items ≡ calls writes.items) }
    ensures gather { IfOk result (λ _. MayGather (calls writes.items ∷ [])) }
    ensures err { IfErr result (λ fault. IsGatherCause fault 1 (calls writes.items ∷ [])) }
{
    let mut clients: ClientCalls = Items::new(alloc);
    clients.reserve()?;
    clients.push(writes);
    let mut clients = gathered(alloc, clients, 1)?.into_vec();
    match clients.pop() {
        Some(writes) => Ok(writes),
        None => unreachable!(),
    }
}

/// Reads the files in their order, each text as soon as its file was read; then the writes are gathered, and then the reads.
/// The first fault in this order is the one that is told.
pub fn read_files<H: Host>(
    alloc: Global,
    host: &mut H,
    config: &str,
    rows: &str,
    files: &[String],
) -> Result<Given, ReadsFault>
    requires { MayRead (H.told host.old) (names config.now rows.now files.now) }
    ensures host { OnlyReads (H.told host.old) (H.told host.new) }
    ensures ok { IfOk result (λ g. AreGiven (H.told host.old).file
        (names config.now rows.now files.now) (calls g.writes.items)
        (map (λ c. calls c.items) g.clients.items)) }
    ensures buckets { IfOk result (λ g. (1 ≤ g.buckets) × (g.buckets ≤ 30000)) }
    ensures writes { IfOk result (λ g. All (IsLawfulCall g.buckets) (calls g.writes.items)) }
    ensures clients { IfOk result (λ g.
        All (All (IsLawfulCall g.buckets)) (map (λ c. calls c.items) g.clients.items)) }
    ensures few { IfOk result (λ g. (length g.clients.items ≤ 64)
        × All (λ c. length c.items ≤ 200000) g.clients.items) }
    ensures err { IfErr result (λ fault. IsInputCause fault (names config.now rows.now files.now)
        (H.told host.old) (H.told host.new)) }
    ensures good { AreGood (H.told host.old).file (names config.now rows.now files.now)
        → IfErr result IsOfOutside }
{
    let config = read_config_file(alloc, host, config)?;
    let row_calls = read_calls_file(alloc, host, &config, rows, ROWS_PLACE, Mode::Rw)?;
    let file_calls = read_calls_files(alloc, host, &config, files)?;
    let writes = gathered_writes(alloc, row_calls)?;
    let clients = gathered(alloc, file_calls, 2)?;
    Ok(Given {
        buckets: config.bucket_count,
        writes,
        clients,
    })
}
