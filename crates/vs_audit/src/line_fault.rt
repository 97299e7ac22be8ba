//! Why a line of a report isn't read.

ghost use Rattle.std.specs.Prelude.{◌≡◌};
ghost use Rattle.vs_audit.specs.Given.{at_line, told_at};

use crate::audit_text::AuditText;
use vs_base::NoMemory;

/// Why a line isn't read.
#[derive(Clone, Copy)]
pub(crate) enum LineFault {
    /// It isn't in the grammar.
    Bad,
    NoMemory,
}

impl LineFault {
    /// The fault of the text whose line of this number it is.
    pub(crate) fn at(self, line: u32) -> AuditText
        ensures { result ≡ at_line line self }
    {
        match self {
            LineFault::Bad => AuditText::Bad(line),
            LineFault::NoMemory => AuditText::NoMemory,
        }
    }
}

impl From<NoMemory> for LineFault {
    ghost use Rattle.vs_audit.specs.declared.line_fault.LineFault.TheVariants.{NoMemory};

    ghost from_gives = { λ _ fault. fault ≡ NoMemory };

    fn from(_e: NoMemory) -> Self {
        LineFault::NoMemory
    }
}

/// What the line of this number tells.
pub(crate) fn told<X: Drop>(line: u32, read: Result<X, LineFault>) -> Result<X, AuditText>
    ensures { result ≡ told_at line read }
{
    match read {
        Ok(x) => Ok(x),
        Err(fault) => Err(fault.at(line)),
    }
}
