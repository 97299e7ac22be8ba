//! Why inputs are not taken.

use vs_base::NoMemory;
use vs_config::{ConfigKey, ConfigKind};
use vs_script::{GatherKind, ScriptKind};

/// What is wrong with the text of an input.
#[derive(Clone, Copy, Debug)]
pub enum TextFault {
    /// The file is longer than a text may be.
    TooLong,
    /// Of a configuration: the kind, the set's number or 0, and the key.
    Config(ConfigKind, u8, ConfigKey),
    /// Of events: the number of the first bad line, from 1.
    Event(u64),
    /// Of a script: the kind, and the number of the first bad line, from 1.
    Script(ScriptKind, u32),
    /// Of a script among the others: the kind, and the number of the command in its script, from 1,
    /// or 0 where it is about no command.
    Gather(GatherKind, u32),
}

/// Why inputs are not taken. An input is named by the place of its file among the words after the
/// command, from 1.
#[derive(Clone, Copy, Debug)]
pub enum InputFault {
    /// This is wrong with the text of the input.
    Text(u64, TextFault),
    /// Reading the file of the input failed.
    Read(u64),
    /// Memory was refused.
    NoMemory,
}

impl From<NoMemory> for InputFault {
    ghost use Rattle.std.specs.Prelude.{◌≡◌};
    ghost use Rattle.vs_inputs.specs.declared.fault.InputFault.TheVariants.{NoMemory};

    ghost from_gives = { λ _ fault. fault ≡ NoMemory };

    fn from(_e: NoMemory) -> Self {
        InputFault::NoMemory
    }
}
