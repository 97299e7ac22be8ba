//! How a pending change takes effect in the tables of a set that is down, and how the set is up again. No call takes
//! memory.

ghost use Rattle.std.specs.Prelude.{◌≡◌, ◌≤◌, ◌==◌, ℕ, if◌then◌else◌, drop, true, IsNone, Some, None};
ghost use Rattle.vs_record.specs.RowTable.{row_map_at};
ghost use Rattle.vs_space.specs.Entries.{status_of};
ghost use Rattle.vs_space.specs.Status.{MayChange};
ghost use Rattle.vs_space.specs.declared.status.Status.TheVariants.{Garbage, Sending, Sent};
ghost use Rattle.vs_state.specs.Plain.{entry_in};
ghost use Rattle.vs_core.specs.Cells.{cell, HasCell, SameRefs};
ghost use Rattle.vs_core.specs.Restarting.{without_pending};
ghost use Rattle.vs_core.specs.Sending.{HasKeptRoom};

use crate::statuses::{keep, set_status};
use vs_base::{BucketId, SetNo};
use vs_record::{Change, RowTable};
use vs_refs::Refs;
use vs_space::{Space, Status};
use vs_state::SetTables;

/// Gives a bucket another status.
pub(crate) fn change_status(tables: &mut SetTables, bucket: BucketId, status: Status)
    requires allowed { MayChange (entry_in tables.old bucket) (Some status) }
    requires room { IsNone (entry_in tables.old bucket) → 1 ≤ tables.old.space.room }
    ensures changed { HasCell tables.old tables.new bucket (record (cell tables.old bucket) { entry = Some status }) }
    ensures refs { SameRefs tables.old tables.new }
{
    set_status(&mut tables.space, bucket, status);
}

/// A bucket is sent to `dest`, with the rows of this place.
pub(crate) fn hand_over(tables: &mut SetTables, bucket: BucketId, dest: SetNo, place: u64)
    requires allowed { MayChange (entry_in tables.old bucket) (Some (Sent dest)) }
    requires there { IsNone (entry_in tables.old bucket) → 1 ≤ tables.old.space.room }
    requires room { HasKeptRoom tables.old bucket }
    ensures sent { HasCell tables.old tables.new bucket
        (record (cell tables.old bucket) { entry = Some (Sent dest); kept = place }) }
    ensures refs { SameRefs tables.old tables.new }
{
    set_status(&mut tables.space, bucket, Status::Sent(dest));
    keep(&mut tables.kept, bucket, place);
}

/// Deletes the first rows of a bucket.
fn wipe(table: &mut RowTable, bucket: BucketId, count: u16)
    ensures { (q : ℕ) → row_map_at table.new q ≡
        (if q == bucket then drop count (row_map_at table.old bucket) else row_map_at table.old q) }
{
    if let Some(mut rows) = table.take_out(bucket) {
        rows.wipe(count);
        table.put(bucket, rows);
    }
}

/// Deletes the first rows of a bucket.
pub(crate) fn wipe_rows(tables: &mut SetTables, bucket: BucketId, count: u16)
    ensures wiped { HasCell tables.old tables.new bucket
        (record (cell tables.old bucket) { rows = drop count (row_map_at tables.old.rows bucket) }) }
    ensures refs { SameRefs tables.old tables.new }
{
    wipe(&mut tables.rows, bucket, count);
}

/// Removes the entry of a bucket that is garbage.
fn remove_entry(space: &mut Space, bucket: BucketId)
    requires { status_of space.old.entries bucket ≡ Some Garbage }
    ensures { (q : ℕ) → status_of space.new.entries q ≡ (if q == bucket then None else status_of space.old.entries q) }
{
    let _ = space.change(bucket, None);
}

/// Forgets a bucket that is garbage.
pub(crate) fn forget(tables: &mut SetTables, bucket: BucketId)
    requires { entry_in tables.old bucket ≡ Some Garbage }
    ensures forgotten { HasCell tables.old tables.new bucket (record (cell tables.old bucket) { entry = None }) }
    ensures refs { SameRefs tables.old tables.new }
{
    remove_entry(&mut tables.space, bucket);
}

/// Takes the pending change out.
pub(crate) fn take_pending(tables: &mut SetTables) -> Option<Change>
    ensures taken { result ≡ tables.old.pending }
    ensures rest { tables.new ≡ without_pending tables.old }
{
    tables.pending.take()
}

/// The set is up, with these references.
pub(crate) fn raise(tables: &mut SetTables, refs: Refs)
    ensures { tables.new ≡ record tables.old { is_up = true; refs = refs } }
{
    tables.is_up = true;
    tables.refs = refs;
}
