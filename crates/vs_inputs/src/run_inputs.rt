//! The files of a command without events, and what they give.

ghost use Rattle.std.specs.Prelude.{◌≡◌, IfOk, IfErr};
ghost use Rattle.vs_config.specs.Configuration.{configuration};
ghost use Rattle.vs_script.specs.Scripts.{scripts};
ghost use Rattle.vs_inputs.specs.Inputs.{AreLawful};
ghost use Rattle.vs_inputs.specs.Reading.{OnlyReads, IsOutside};
ghost use Rattle.vs_inputs.specs.RunInputs.{MayReadRunFiles, AreRunInputs, IsRunInputCause, AreGoodRunInputs, run_names};
ghost use Rattle.vs_inputs.specs.Words.{texts};

use crate::config::read_config_file;
use crate::fault::InputFault;
use crate::inputs::gather_scripts;
use crate::place::{CONFIG_PLACE, FIRST_RUN_SCRIPT_PLACE};
use crate::scripts::read_script_files;
use std::alloc::Global;
use vs_config::Config;
use vs_host::Host;
use vs_script::Scripts;

/// What the files of a command without events give.
#[derive(Drop)]
pub struct RunInputs {
    pub config: Config,
    pub scripts: Scripts,
}

/// Reads a configuration and then each script; then the scripts are gathered. Each text is read as soon as its file was.
/// The first fault in this order is the one that is told.
pub fn read_run_inputs<H: Host>(
    alloc: Global,
    host: &mut H,
    config: &str,
    files: &[String],
) -> Result<RunInputs, InputFault>
    requires { MayReadRunFiles (H.told host.old) (run_names config.now (texts files.now)) }

    // Files are read, and nothing else is done.
    ensures host { OnlyReads (H.told host.old) (H.told host.new) }

    // The inputs are those that the files give.
    ensures ok { IfOk result (λ i. AreRunInputs (H.told host.old).file
        (run_names config.now (texts files.now)) (configuration i.config) (scripts i.scripts)) }

    // A cluster may run them.
    ensures lawful { IfOk result (λ i. AreLawful (configuration i.config) (scripts i.scripts)) }

    // The fault is the first.
    ensures err { IfErr result (λ fault. IsRunInputCause
        (run_names config.now (texts files.now)) fault (H.told host.old) (H.told host.new)) }

    // Good files are taken.
    ensures good { AreGoodRunInputs (H.told host.old).file
        (run_names config.now (texts files.now)) → IfErr result IsOutside }

    // And what is read of them is what they give.
    ensures same { (good : AreGoodRunInputs (H.told host.old).file
        (run_names config.now (texts files.now))) → IfOk result (λ i.
        (configuration i.config ≡ good.config) × (scripts i.scripts ≡ good.scripts)) }
{
    let config = read_config_file(alloc, host, config)?;
    let given = read_script_files(alloc, host, &config, files, FIRST_RUN_SCRIPT_PLACE)?;
    let scripts = gather_scripts(alloc, given, CONFIG_PLACE)?;
    Ok(RunInputs { config, scripts })
}
