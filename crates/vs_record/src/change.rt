//! Changes.

ghost use Rattle.std.specs.Prelude.{◌≡◌, IfOk};

use vs_base::{BucketId, CallId, NoMemory, SetNo};
use vs_rows::{Ops, Page};
use vs_space::Status;

/// A change of a set's entries and rows, as its journal has it.
#[derive(Drop)]
pub enum Change {
    /// The bucket has this status.
    Status(BucketId, Status),
    /// The bucket is being received from this set, and these rows are set.
    RowsPage(BucketId, SetNo, Page),
    /// The call ran these operations on the bucket.
    Write(CallId, BucketId, Ops),
    /// The first so many rows of the bucket are gone.
    Wipe(BucketId, u16),
    /// The entry of the bucket is gone.
    Forget(BucketId),
}

impl Change {
    ghost use Rattle.vs_record.specs.Change.{change, bucket_of};

    /// The greatest number of a call.
    pub const MAX_CALL: u32 = 200_000;

    /// The bucket that it is of.
    pub fn bucket(&self) -> BucketId
        ensures { result ≡ bucket_of (change self.now) }
    {
        match self {
            Change::Status(bucket, _) => *bucket,
            Change::RowsPage(bucket, _, _) => *bucket,
            Change::Write(_, bucket, _) => *bucket,
            Change::Wipe(bucket, _) => *bucket,
            Change::Forget(bucket) => *bucket,
        }
    }

    pub fn try_clone(&self) -> Result<Change, NoMemory>
        ensures { IfOk result (λ copy. change copy ≡ change self.now) }
    {
        match self {
            Change::Status(bucket, status) => Ok(Change::Status(*bucket, *status)),
            Change::RowsPage(bucket, source, page) => {
                let page = page.try_clone()?;
                Ok(Change::RowsPage(*bucket, *source, page))
            }
            Change::Write(id, bucket, ops) => {
                let ops = ops.try_clone()?;
                Ok(Change::Write(*id, *bucket, ops))
            }
            Change::Wipe(bucket, count) => Ok(Change::Wipe(*bucket, *count)),
            Change::Forget(bucket) => Ok(Change::Forget(*bucket)),
        }
    }
}
