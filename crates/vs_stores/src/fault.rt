//! Why a call of the stores was refused.

ghost use Rattle.std.specs.Prelude.{◌≡◌};
ghost use Rattle.vs_store.specs.Faults.{IsOfAppend};

use vs_base::SetNo;
use vs_store::StoreFault;

/// Why the journals weren't opened.
#[derive(Clone, Copy, Debug, PartialEq, Eq)]
pub enum OpenFault {
    /// That of this set, for this reason, which isn't want of memory.
    OfSet(SetNo, StoreFault),
    NoMemory,
}

/// Why a change wasn't added to the journal of a set.
#[derive(Clone, Copy, Debug, PartialEq, Eq)]
pub enum AppendFault {
    /// The journal would have this length, in bytes, which is above the limit.
    Full(u64),
    /// The set's disk failed.
    DiskFault,
    NoMemory,
}

impl AppendFault {
    ghost use Rattle.vs_stores.specs.Refusals.{store_fault};

    // The refusal of an append of a store.
    pub(crate) fn of_store(fault: StoreFault) -> AppendFault
        requires { IsOfAppend fault }
        ensures { store_fault result ≡ fault }
    {
        match fault {
            StoreFault::Full(len) => AppendFault::Full(len),
            StoreFault::DiskFault => AppendFault::DiskFault,
            StoreFault::NoMemory => AppendFault::NoMemory,
            StoreFault::NotAJournal(_) | StoreFault::OtherSet(_) | StoreFault::OtherCount(_) => {
                unreachable!()
            }
        }
    }
}

impl OpenFault {
    ghost use Rattle.vs_stores.specs.Refusals.{open_fault};

    // The refusal of opening the store of a set.
    pub(crate) fn of_store(set: SetNo, fault: StoreFault) -> OpenFault
        ensures { result ≡ open_fault set fault }
    {
        match fault {
            StoreFault::NoMemory => OpenFault::NoMemory,
            fault => OpenFault::OfSet(set, fault),
        }
    }
}
