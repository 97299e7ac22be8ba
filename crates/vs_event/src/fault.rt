//! Why a text of events is not read.

use vs_base::NoMemory;

/// Why a text of events is not read.
#[derive(Clone, Copy, Debug)]
pub enum EventFault {
    /// The line of this number, from 1, is the first that is no event's.
    BadEvent(u64),
    /// Memory was wanted.
    NoMemory,
}

impl From<NoMemory> for EventFault {
    ghost use Rattle.std.specs.Prelude.{◌≡◌};
    ghost use Rattle.vs_event.specs.declared.fault.EventFault.TheVariants.{NoMemory};

    ghost from_gives = { λ _ fault. fault ≡ NoMemory };

    fn from(_e: NoMemory) -> Self {
        EventFault::NoMemory
    }
}
