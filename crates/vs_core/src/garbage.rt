//! How a set gives up a bucket and collects what it has of it, in its tables. No call takes memory.

ghost use Rattle.std.specs.Prelude.{◌≡◌, ◌≤◌, ◌==◌, ℕ, if◌then◌else◌, true, drop, Some, None};
ghost use Rattle.vs_record.specs.RowTable.{row_map_at};
ghost use Rattle.vs_space.specs.declared.status.Status.TheVariants.{Garbage};
ghost use Rattle.vs_machine.specs.Kinds.Collection.{is_sent};
ghost use Rattle.vs_state.specs.Plain.{entry_in};
ghost use Rattle.vs_core.specs.Cells.{cell, HasCell, SameRefs, FollowEntry};

use crate::statuses::{remove_entry, set_status};
use vs_base::{BucketId, Mode};
use vs_record::RowTable;
use vs_space::Status;
use vs_state::SetTables;

/// The most rows that are deleted at once.
const MAX_ROWS: u16 = 1_000;

/// A bucket that was sent is given up, and no further read may begin.
#[tactic(auto, using(crate::proofs::Collected::may_condemn))]
pub(crate) fn condemn(tables: &mut SetTables, bucket: BucketId)
    requires room { 1 ≤ tables.old.refs.room }
    requires sent { is_sent (entry_in tables.old bucket) ≡ true }
    ensures condemned { HasCell tables.old tables.new bucket (record (cell tables.old bucket) { entry = Some Garbage }) }
    ensures refs { FollowEntry tables.old tables.new bucket }
{
    set_status(&mut tables.space, bucket, Status::Garbage);
    tables.refs.lock(bucket, Mode::Ro);
}

/// Deletes the first rows of a bucket.
fn wipe_rows(table: &mut RowTable, bucket: BucketId)
    ensures { (q : ℕ) → row_map_at table.new q ≡
        (if q == bucket then drop 1000 (row_map_at table.old bucket) else row_map_at table.old q) }
{
    if let Some(mut rows) = table.take_out(bucket) {
        let _ = rows.wipe(MAX_ROWS);
        table.put(bucket, rows);
    }
}

/// The first 1,000 rows of a bucket are deleted, or all.
pub(crate) fn wipe(tables: &mut SetTables, bucket: BucketId)
    ensures rows { HasCell tables.old tables.new bucket
        (record (cell tables.old bucket) { rows = drop 1000 (row_map_at tables.old.rows bucket) }) }
    ensures refs { SameRefs tables.old tables.new }
{
    wipe_rows(&mut tables.rows, bucket);
}

/// A bucket that was given up has no entry any more, and its lock is lifted.
pub(crate) fn forget(tables: &mut SetTables, bucket: BucketId)
    requires { entry_in tables.old bucket ≡ Some Garbage }
    ensures forgotten { HasCell tables.old tables.new bucket (record (cell tables.old bucket) { entry = None }) }
    ensures refs { FollowEntry tables.old tables.new bucket }
{
    remove_entry(&mut tables.space, bucket);
    tables.refs.unlock(bucket, Mode::Ro);
}
