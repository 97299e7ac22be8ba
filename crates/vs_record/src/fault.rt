//! Why a body is not read.

ghost use Rattle.std.specs.Prelude.{◌≡◌};
ghost use Rattle.vs_record.specs.declared.fault.RecordFault.TheVariants.{NoMemory as NoRoom};

use vs_base::NoMemory;

/// Why a body is not read.
#[derive(Clone, Copy, Debug, PartialEq, Eq)]
pub enum RecordFault {
    /// It is no change's.
    BadBody,
    NoMemory,
}

impl From<NoMemory> for RecordFault {
    ghost from_gives = { λ _ fault. fault ≡ NoRoom };

    fn from(_e: NoMemory) -> RecordFault {
        RecordFault::NoMemory
    }
}
