//! Why a line isn't read.

ghost use Rattle.std.specs.Prelude.{◌≡◌};
ghost use Rattle.vs_script.specs.declared.line_fault.LineFault.TheVariants.{Bad, NoMemory};

use crate::fault::{ScriptFault, ScriptKind};
use vs_base::NoMemory;

/// Why a line isn't read.
#[derive(Clone, Copy)]
pub(crate) enum LineFault {
    /// The first thing that is wrong with it.
    Bad(ScriptKind),
    NoMemory,
}

impl LineFault {
    ghost use Rattle.vs_script.specs.Given.{at_number};

    /// The fault of the text whose line of this number it is.
    pub(crate) fn at(self, line: u32) -> ScriptFault
        ensures { result ≡ at_number line self }
    {
        match self {
            LineFault::Bad(kind) => kind.at(line),
            LineFault::NoMemory => ScriptFault::NoMemory,
        }
    }
}

impl From<ScriptKind> for LineFault {
    ghost from_gives = { λ kind fault. fault ≡ Bad kind };

    fn from(kind: ScriptKind) -> Self {
        LineFault::Bad(kind)
    }
}

impl From<NoMemory> for LineFault {
    ghost from_gives = { λ _ fault. fault ≡ NoMemory };

    fn from(_e: NoMemory) -> Self {
        LineFault::NoMemory
    }
}
