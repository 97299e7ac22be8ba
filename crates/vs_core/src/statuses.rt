//! How statuses of buckets at a set, and the places that it keeps, are written. No call takes memory.

ghost use Rattle.std.specs.Prelude.{◌≡◌, ◌≤◌, ◌==◌, ℕ, if◌then◌else◌, unwrap_or, IsNone, Some, None};
ghost use Rattle.std.specs.Ordering.{nat_cmp};
ghost use Rattle.vs_table.specs.Entries.{value_of};
ghost use Rattle.vs_space.specs.Entries.{status_of};
ghost use Rattle.vs_space.specs.Status.{MayChange};
ghost use Rattle.vs_space.specs.declared.status.Status.TheVariants.{Garbage};

use vs_base::BucketId;
use vs_space::{Space, Status};
use vs_table::Table;

/// Gives a bucket another status.
#[tactic(auto, using(crate::proofs::Updated::status_changed))]
pub(crate) fn set_status(space: &mut Space, bucket: BucketId, status: Status)
    requires allowed { MayChange (status_of space.old.entries bucket) (Some status) }
    requires room { IsNone (status_of space.old.entries bucket) → 1 ≤ space.old.room }
    ensures { (q : ℕ) → status_of space.new.entries q ≡
        (if q == bucket then Some status else status_of space.old.entries q) }
{
    let _ = space.change(bucket, Some(status));
}

/// Removes the entry of a bucket that was given up.
#[tactic(auto, using(crate::proofs::Updated::status_changed))]
pub(crate) fn remove_entry(space: &mut Space, bucket: BucketId)
    requires { status_of space.old.entries bucket ≡ Some Garbage }
    ensures { (q : ℕ) → status_of space.new.entries q ≡
        (if q == bucket then None else status_of space.old.entries q) }
{
    let _ = space.change(bucket, None);
}

/// Keeps a place for a bucket.
#[tactic(auto, using(crate::proofs::Updated::updated))]
pub(crate) fn keep(table: &mut Table<BucketId, u64>, bucket: BucketId, place: u64)
    requires { value_of nat_cmp table.old.items bucket ≡ None → 1 ≤ table.old.room }
    ensures { (q : ℕ) → value_of nat_cmp table.new.items q ≡
        (if q == bucket then Some place else value_of nat_cmp table.old.items q) }
{
    table.insert(bucket, place);
}
