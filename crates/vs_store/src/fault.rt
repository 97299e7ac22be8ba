//! Why a call of a store was refused.

ghost use Rattle.std.specs.Prelude.{◌≡◌};
ghost use Rattle.vs_store.specs.declared.fault.StoreFault.TheVariants.{NoMemory as NoRoom};
ghost use Rattle.vs_store.specs.Faults.{fault_of};

use uuid::Uuid;
use vs_base::NoMemory;
use vs_frame::FrameFault;

/// Why a call of a store was refused.
#[derive(Clone, Copy, Debug, PartialEq, Eq)]
pub enum StoreFault {
    /// The journal would have this length, in bytes, which is above the limit.
    Full(u64),
    /// The disk failed.
    DiskFault,
    /// The bytes are no journal: the place that is wrong, which is 0 for the head, and else that of
    /// a gate.
    NotAJournal(u64),
    /// The journal is that of the set with this uuid.
    OtherSet(Uuid),
    /// The journal is that of a cluster of so many buckets.
    OtherCount(u32),
    NoMemory,
}

impl From<NoMemory> for StoreFault {
    ghost from_gives = { λ _ fault. fault ≡ NoRoom };

    fn from(_e: NoMemory) -> StoreFault {
        StoreFault::NoMemory
    }
}

impl From<FrameFault> for StoreFault {
    ghost from_gives = { λ e fault. fault ≡ fault_of e };

    fn from(e: FrameFault) -> StoreFault {
        match e {
            FrameFault::DiskFault => StoreFault::DiskFault,
            FrameFault::NotAJournal(place) => StoreFault::NotAJournal(place),
            FrameFault::NoMemory => StoreFault::NoMemory,
        }
    }
}
