//! The files of a command, and what they give.

ghost use Rattle.std.specs.Prelude.{ℕ, ◌≡◌, ◌≤◌, Ok, map, All, IfOk, IfErr};
ghost use Rattle.vs_config.specs.Configuration.{configuration};
ghost use Rattle.vs_script.specs.Gathering.{gathering_of};
ghost use Rattle.vs_script.specs.Lawful.{IsLawfulCall, IsLawfulCommand, IsLawfulScript, MayRunTogether};
ghost use Rattle.vs_script.specs.Scripts.{script, scripts};
ghost use Rattle.vs_inputs.specs.FileNames.{names_of};
ghost use Rattle.vs_inputs.specs.Inputs.{MayReadFiles, AreInputs, AreLawful, IsGatherFault, IsInputCause, AreGood};
ghost use Rattle.vs_inputs.specs.Reading.{OnlyReads, IsOutside};

use crate::config::read_config_file;
use crate::events::read_events_file;
use crate::fault::{InputFault, TextFault};
use crate::place::{EVENTS_PLACE, FIRST_SCRIPT_PLACE};
use crate::scripts::read_script_files;
use crate::words::FileNames;
use std::alloc::Global;
use vs_config::Config;
use vs_event::Trace;
use vs_host::Host;
use vs_script::{GatherFault, Script, Scripts, gather};

/// What the files of a command give.
#[derive(Drop)]
pub struct Inputs {
    pub config: Config,
    pub trace: Trace,
    pub scripts: Scripts,
}

/// Gathers the scripts, the first of which is the input after this place.
pub(crate) fn gather_scripts(
    alloc: Global,
    given: Vec<Script>,
    place: u64,
) -> Result<Scripts, InputFault>
    requires { place ≤ 2 }
    ensures ok { IfOk result (λ s. gathering_of (map script given.items) ≡ Ok (scripts s)) }
    ensures err { IfErr result (λ fault. IsGatherFault place fault (map script given.items)) }
    ensures together { IfOk result (λ s. MayRunTogether (scripts s)) }
    ensures lawful { IfOk result (λ s. (m n : ℕ) → All (IsLawfulScript m n) (map script given.items)
        → All (All (IsLawfulCall m)) (scripts s).clients
        × All (All (IsLawfulCommand m n)) (scripts s).operators) }
{
    match gather(alloc, given) {
        Ok(scripts) => Ok(scripts),
        Err(GatherFault::Bad { kind, script, item }) => Err(InputFault::Text(
            place + u64::from(script),
            TextFault::Gather(kind, item),
        )),
        Err(GatherFault::NoMemory) => Err(InputFault::NoMemory),
    }
}

/// Reads the files of a command in their order: the configuration, the events, and each script; then
/// the scripts are gathered. Each text is read as soon as its file was. The first fault in this order is the one that is told.
pub fn read_inputs<H: Host>(
    alloc: Global,
    host: &mut H,
    names: &FileNames,
) -> Result<Inputs, InputFault>
    requires { MayReadFiles (H.told host.old) (names_of names.now) }

    // Files are read, and nothing else is done.
    ensures host { OnlyReads (H.told host.old) (H.told host.new) }

    // The inputs are those that the files give.
    ensures ok { IfOk result (λ i. AreInputs (H.told host.old).file (names_of names.now)
        (configuration i.config) i.trace.items (scripts i.scripts)) }

    // A cluster may run them.
    ensures lawful { IfOk result (λ i. AreLawful (configuration i.config) (scripts i.scripts)) }

    // The fault is the first.
    ensures err { IfErr result (λ fault.
        IsInputCause (names_of names.now) fault (H.told host.old) (H.told host.new)) }

    // Good files are taken.
    ensures good { AreGood (H.told host.old).file (names_of names.now)
        → IfErr result IsOutside }

    // And what is read of them is what they give.
    ensures same { (good : AreGood (H.told host.old).file (names_of names.now))
        → IfOk result (λ i. (configuration i.config ≡ good.config)
        × (i.trace.items ≡ good.events) × (scripts i.scripts ≡ good.scripts)) }
{
    let config = read_config_file(alloc, host, names.config)?;
    let trace = read_events_file(alloc, host, names.events)?;
    let given = read_script_files(alloc, host, &config, names.scripts, FIRST_SCRIPT_PLACE)?;
    let scripts = gather_scripts(alloc, given, EVENTS_PLACE)?;
    Ok(Inputs {
        config,
        trace,
        scripts,
    })
}
