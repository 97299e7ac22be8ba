//! Why a number's work was not told of.

use vs_base::NoMemory;
use vs_host::HostFailed;

/// Why nothing was told, or not all.
#[derive(Clone, Copy, Debug, PartialEq, Eq)]
pub enum Fault {
    /// Putting the summary out or logging the events failed.
    Write,
    /// Memory was refused.
    NoMemory,
}

impl From<NoMemory> for Fault {
    ghost use Rattle.std.specs.Prelude.{◌≡◌};
    ghost use Rattle.vs_generating.specs.declared.fault.Fault.TheVariants as faults;

    ghost from_gives = { λ _ fault. fault ≡ faults.NoMemory };

    fn from(_e: NoMemory) -> Self {
        Fault::NoMemory
    }
}

impl From<HostFailed> for Fault {
    ghost use Rattle.std.specs.Prelude.{◌≡◌};
    ghost use Rattle.vs_generating.specs.declared.fault.Fault.TheVariants as faults;

    ghost from_gives = { λ _ fault. fault ≡ faults.Write };

    fn from(_e: HostFailed) -> Self {
        Fault::Write
    }
}
