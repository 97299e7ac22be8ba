//! The configuration.

ghost use Rattle.std.specs.Prelude.{IsTrue, IfOk};
ghost use Rattle.vs_config.specs.Configuration.{configuration};
ghost use Rattle.vs_config.specs.Lawful.{IsLawful};
ghost use Rattle.vs_inputs.specs.Gives.{GivesConfig};
ghost use Rattle.vs_inputs.specs.Places.{config_place};
ghost use Rattle.vs_inputs.specs.Reading.{MayGive, ReadsFile};

use crate::fault::{InputFault, TextFault};
use crate::place::CONFIG_PLACE;
use crate::read::read_text;
use std::alloc::Global;
use vs_config::{Config, ConfigFault, read_config};
use vs_host::Host;

/// The configuration of a text.
fn config_of(alloc: Global, text: &[u8]) -> Result<Config, InputFault>
    ensures gives { MayGive configuration config_place (GivesConfig text.now) result }
    ensures lawful { IfOk result (λ config. IsLawful (configuration config)) }
{
    match read_config(alloc, text) {
        Ok(config) => Ok(config),
        Err(ConfigFault::Bad { kind, set, key }) => Err(InputFault::Text(
            CONFIG_PLACE,
            TextFault::Config(kind, set, key),
        )),
        Err(ConfigFault::NoMemory) => Err(InputFault::NoMemory),
    }
}

/// Reads the configuration from its file.
pub fn read_config_file<H: Host>(
    alloc: Global,
    host: &mut H,
    name: &str,
) -> Result<Config, InputFault>
    requires { IsTrue ((H.told host.old).may_read name.now) }
    ensures reads { ReadsFile configuration config_place name.now GivesConfig
        (H.told host.old) (H.told host.new) result }
    ensures lawful { IfOk result (λ config. IsLawful (configuration config)) }
{
    let text = read_text(host, name, CONFIG_PLACE)?;
    config_of(alloc, &text)
}
