//! What a set has in memory.

ghost use Rattle.std.specs.Prelude.{◌≡◌};
ghost use Rattle.vs_state.specs.Plain.{kept_in};

use vs_base::BucketId;
use vs_record::{Change, RowTable};
use vs_recover::Asks;
use vs_refs::Refs;
use vs_send::Transfer;
use vs_space::Space;
use vs_table::Table;

/// What a set has in memory. What it has of a bucket stands at the bucket's id in each table.
#[derive(Drop)]
pub struct SetTables {
    pub is_up: bool,
    /// The statuses of its buckets.
    pub space: Space,
    pub rows: RowTable,
    /// The places of the rows of the buckets that it sent.
    pub kept: Table<BucketId, u64>,
    pub refs: Refs,
    /// The transfers that it is the source of.
    pub transfers: Table<BucketId, Transfer>,
    /// How many of them a round of a `balance` command began.
    pub hauls: u32,
    pub asks: Asks,
    /// The number of its last fault, and 0 before the first.
    pub last_fault: u64,
    /// The change that its journal may have, where a fault took it down.
    pub pending: Option<Change>,
}

impl SetTables {
    /// The place of the rows of a bucket that the set sent.
    pub fn kept_place(&self, bucket: BucketId) -> u64
        ensures { result ≡ kept_in self.now bucket }
    {
        self.kept.get(&bucket).copied().unwrap_or(0)
    }
}
