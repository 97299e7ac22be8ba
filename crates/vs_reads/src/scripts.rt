//! The scripts of clients.

ghost use Rattle.std.specs.Prelude.{◌≡◌, ◌↔◌, ◌+◌, All, IsTrue, IfOk, IfErr, map, length};
ghost use Rattle.vs_config.specs.Configuration.{configuration};
ghost use Rattle.vs_inputs.specs.Reading.{OnlyReads};
ghost use Rattle.vs_inputs.specs.Words.{texts};
ghost use Rattle.vs_script.specs.Calls as plain;
ghost use Rattle.vs_script.specs.Calls.{calls};
ghost use Rattle.vs_script.specs.Lawful.{IsLawfulCall};
ghost use Rattle.vs_script.specs.Scripts.{Client, script};
ghost use Rattle.vs_base.specs.declared.numbers.Mode.TheVariants.{Ro};
ghost use Rattle.vs_reads.specs.Causes.{IsCallsCause, IsFilesCause};
ghost use Rattle.vs_reads.specs.Given.{HasCalls, HaveCalls, IsClientOf, IsGoodCalls, AreGoodCalls};
ghost use Rattle.vs_reads.specs.Endings.{IsOfOutside};
ghost use Rattle.std.specs.Prelude.{List};

use crate::fault::ReadsFault;
use std::alloc::Global;
use vs_base::{Items, Mode};
use vs_config::Config;
use vs_host::Host;
use vs_inputs::read_script_file;
use vs_script::{Call, Calls, ClientCalls, Script};

/// The place of the first script of reads among the words after the command, from 1.
const FIRST_FILE_PLACE: u64 = 3;

fn have_mode(mode: Mode, given: &[Call]) -> bool
    ensures { IsTrue result ↔ All (λ k. k.mode ≡ mode) given.now }
{
    given.iter().all(|call| call.mode == mode)
}

fn are_of(mode: Mode, given: &[Call]) -> bool
    ensures { IsTrue result ↔ All (λ k. k.mode ≡ mode) (calls given.now) }
{
    have_mode(mode, given)
}

/// The calls of a client's script, where all have this mode.
fn calls_of(given: Script, mode: Mode, place: u64) -> Result<Calls, ReadsFault>
    ensures ok { IfOk result (λ c. script given ≡ Client (calls c.items)) }
    ensures all { IfOk result (λ _. IsClientOf mode (script given)) }
    ensures err { IfErr result (λ fault. (fault ≡ ReadsFault.NotReads place)
        × ¬ (IsClientOf mode (script given))) }
{
    match given {
        Script::Client(calls) => {
            if are_of(mode, calls.as_slice()) {
                Ok(calls)
            } else {
                Err(ReadsFault::NotReads(place))
            }
        }
        Script::Operator(_) => Err(ReadsFault::NotReads(place)),
    }
}

/// Reads the calls of a client's script from its file. All have this mode.
pub fn read_calls_file<H: Host>(
    alloc: Global,
    host: &mut H,
    config: &Config,
    name: &str,
    place: u64,
    mode: Mode,
) -> Result<Calls, ReadsFault>
    requires { IsTrue ((H.told host.old).may_read name.now) }
    ensures host { OnlyReads (H.told host.old) (H.told host.new) }
    ensures ok { IfOk result (λ c. HasCalls mode (configuration config.now)
        (H.told host.old).file name.now (calls c.items)) }
    ensures lawful { IfOk result (λ c.
        All (IsLawfulCall config.now.bucket_count) (calls c.items)) }
    ensures err { IfErr result (λ fault. IsCallsCause fault mode (configuration config.now) place
        name.now (H.told host.old) (H.told host.new)) }
    ensures good { (good : List plain.Call) → IsGoodCalls mode (configuration config.now)
        (H.told host.old).file name.now good → IfErr result IsOfOutside }
{
    let given = read_script_file(alloc, host, config, name, place)?;
    calls_of(given, mode, place)
}

/// Reads the reads of clients from their files, in their order.
pub fn read_calls_files<H: Host>(
    alloc: Global,
    host: &mut H,
    config: &Config,
    names: &[String],
) -> Result<ClientCalls, ReadsFault>
    requires { All (λ name. IsTrue ((H.told host.old).may_read name)) (texts names.now) }
    ensures host { OnlyReads (H.told host.old) (H.told host.new) }
    ensures ok { IfOk result (λ clients. HaveCalls (configuration config.now)
        (H.told host.old).file (texts names.now) (map (λ c. calls c.items) clients.items)) }
    ensures lawful { IfOk result (λ clients.
        All (All (IsLawfulCall config.now.bucket_count)) (map (λ c. calls c.items) clients.items)) }
    ensures err { IfErr result (λ fault. IsFilesCause fault (configuration config.now)
        (texts names.now) (H.told host.old) (H.told host.new)) }
    ensures good { (good : List (List plain.Call)) → AreGoodCalls (configuration config.now)
        (H.told host.old).file (texts names.now) good → IfErr result IsOfOutside }
{
    let mut clients: ClientCalls = Items::new(alloc);
    for (i, name) in names.iter().enumerate() {
        clients.reserve()?;
        let place = FIRST_FILE_PLACE + i as u64;
        let calls = read_calls_file(alloc, host, config, name.as_str(), place, Mode::Ro)?;
        clients.push(calls);
    }
    Ok(clients)
}
