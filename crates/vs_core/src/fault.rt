//! Why there is no core of what the sets hold.

ghost use Rattle.std.specs.Prelude.{◌≡◌};
ghost use Rattle.vs_core.specs.declared.fault.CoreFault.TheVariants as faults;

use vs_base::{BucketId, Items, NoMemory, SetNo};
use vs_space::Status;

/// Which sets have an entry of a bucket, in the order of their numbers, and the status that each has.
pub type Placement = Items<(SetNo, Status)>;

/// Why there is no core of what the sets hold.
#[derive(Drop)]
pub enum CoreFault {
    /// The entries of a bucket don't fit together, or a set has rows of it without an entry. No bucket of a lower id is so.
    Incoherent {
        bucket: BucketId,
        entries: Placement,
    },
    /// Memory was refused.
    NoMemory,
}

impl From<NoMemory> for CoreFault {
    ghost from_gives = { λ _ fault. fault ≡ faults.NoMemory };

    fn from(_e: NoMemory) -> Self {
        CoreFault::NoMemory
    }
}
