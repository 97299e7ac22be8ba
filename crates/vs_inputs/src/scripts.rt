//! The scripts.

ghost use Rattle.std.specs.Prelude.{List, ◌≡◌, ◌≤◌, map, length, IsTrue, All, IfOk, IfErr};
ghost use Rattle.vs_config.specs.Configuration.{configuration};
ghost use Rattle.vs_script.specs.Lawful.{IsLawfulScript};
ghost use Rattle.vs_script.specs.Scripts as plain;
ghost use Rattle.vs_script.specs.Scripts.{script};
ghost use Rattle.vs_inputs.specs.Gives.{GivesScript};
ghost use Rattle.vs_inputs.specs.Inputs.{AreGoodScripts, HaveScripts, IsScriptCause};
ghost use Rattle.vs_inputs.specs.Reading.{MayGive, OnlyReads, ReadsFile, IsOutside};
ghost use Rattle.vs_inputs.specs.Words.{texts};

use crate::fault::{InputFault, TextFault};
use crate::read::read_text;
use std::alloc::Global;
use vs_base::Items;
use vs_config::Config;
use vs_host::Host;
use vs_script::{Script, ScriptFault, read_script};

/// The script of a text, at this place.
fn script_of(alloc: Global, config: &Config, text: &[u8], place: u64) -> Result<Script, InputFault>
    ensures gives { MayGive script place (GivesScript (configuration config.now) text.now) result }
    ensures lawful { IfOk result (λ s.
        IsLawfulScript config.now.bucket_count (length config.now.sets.items) (script s)) }
{
    match read_script(alloc, text, config) {
        Ok(script) => Ok(script),
        Err(ScriptFault::Bad { kind, line }) => {
            Err(InputFault::Text(place, TextFault::Script(kind, line)))
        }
        Err(ScriptFault::NoMemory) => Err(InputFault::NoMemory),
    }
}

/// Reads a script from its file.
pub fn read_script_file<H: Host>(
    alloc: Global,
    host: &mut H,
    config: &Config,
    name: &str,
    place: u64,
) -> Result<Script, InputFault>
    requires { IsTrue ((H.told host.old).may_read name.now) }
    ensures reads { ReadsFile script place name.now (GivesScript (configuration config.now))
        (H.told host.old) (H.told host.new) result }
    ensures lawful { IfOk result (λ s.
        IsLawfulScript config.now.bucket_count (length config.now.sets.items) (script s)) }
{
    let text = read_text(host, name, place)?;
    script_of(alloc, config, &text, place)
}

/// Reads the scripts from their files, in their order. The first is the input of the place `first`.
pub fn read_script_files<H: Host>(
    alloc: Global,
    host: &mut H,
    config: &Config,
    names: &[String],
    first: u64,
) -> Result<Vec<Script>, InputFault>
    requires first { first ≤ 3 }
    requires names { All (λ name. IsTrue ((H.told host.old).may_read name)) (texts names.now) }
    ensures host { OnlyReads (H.told host.old) (H.told host.new) }
    ensures ok { IfOk result (λ given. HaveScripts (configuration config.now)
        (H.told host.old).file (texts names.now) (map script given.items)) }
    ensures lawful { IfOk result (λ given. All
        (IsLawfulScript config.now.bucket_count (length config.now.sets.items))
        (map script given.items)) }
    ensures err { IfErr result (λ fault. IsScriptCause (configuration config.now)
        first (texts names.now) fault (H.told host.old) (H.told host.new)) }
    ensures good { (scripts : List plain.Script) → AreGoodScripts (configuration config.now)
        (H.told host.old).file (texts names.now) scripts → IfErr result IsOutside }
{
    let mut given = Items::new(alloc);
    for (i, name) in names.iter().enumerate() {
        given.reserve()?;
        let place = first + i as u64;
        let script = read_script_file(alloc, host, config, name.as_str(), place)?;
        given.push(script);
    }
    Ok(given.into_vec())
}
