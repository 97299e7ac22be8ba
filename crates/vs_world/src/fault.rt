//! Why a world isn't opened, and why an event isn't carried out.

use vs_base::{BucketId, NoMemory, SetNo};
use vs_core::{CoreFault, Placement};
use vs_event::Reason;
use vs_store::StoreFault;
use vs_stores::OpenFault;

/// Why a world isn't opened.
#[derive(Drop)]
pub enum WorldFault {
    /// The journal of this set was refused, or its disk failed.
    OfSet(SetNo, StoreFault),
    /// The sets' entries of this bucket don't fit together, or a set has rows of it without an entry. No bucket of a lower id
    /// is so.
    Incoherent {
        bucket: BucketId,
        entries: Placement,
    },
    NoMemory,
}

impl From<NoMemory> for WorldFault {
    ghost use Rattle.std.specs.Prelude.{◌≡◌};
    ghost use Rattle.vs_world.specs.declared.fault.WorldFault.TheVariants as faults;

    ghost from_gives = { λ _ fault. fault ≡ faults.NoMemory };

    fn from(_e: NoMemory) -> Self {
        WorldFault::NoMemory
    }
}

impl From<OpenFault> for WorldFault {
    ghost use Rattle.std.specs.Prelude.{◌≡◌};
    ghost use Rattle.vs_world.specs.Beginning.{of_journals};

    ghost from_gives = { λ e fault. fault ≡ of_journals e };

    fn from(e: OpenFault) -> Self {
        match e {
            OpenFault::OfSet(set, fault) => WorldFault::OfSet(set, fault),
            OpenFault::NoMemory => WorldFault::NoMemory,
        }
    }
}

impl From<CoreFault> for WorldFault {
    ghost use Rattle.std.specs.Prelude.{◌≡◌};
    ghost use Rattle.vs_world.specs.Beginning.{of_cluster};

    ghost from_gives = { λ e fault. fault ≡ of_cluster e };

    fn from(e: CoreFault) -> Self {
        match e {
            CoreFault::Incoherent { bucket, entries } => WorldFault::Incoherent { bucket, entries },
            CoreFault::NoMemory => WorldFault::NoMemory,
        }
    }
}

/// Why an event isn't carried out.
#[derive(Clone, Copy, Debug)]
pub enum StepFault {
    /// It can't happen now, for this reason.
    NotNow(Reason),
    /// Its entry would carry the journal of this set past the limit.
    Full(SetNo),
    /// The disk of this set failed while its entry was written. The set is down.
    WentDown(SetNo),
    /// The disk of this set failed while its journal was opened again. The set stays down.
    OpenFault(SetNo),
    NoMemory,
}

impl From<NoMemory> for StepFault {
    ghost use Rattle.std.specs.Prelude.{◌≡◌};
    ghost use Rattle.vs_world.specs.declared.fault.StepFault.TheVariants as faults;

    ghost from_gives = { λ _ fault. fault ≡ faults.NoMemory };

    fn from(_e: NoMemory) -> Self {
        StepFault::NoMemory
    }
}
