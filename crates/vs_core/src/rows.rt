//! How rows are changed.

ghost use Rattle.std.specs.Prelude.{◌≡◌, ◌≤◌, ◌==◌, ℕ, if◌then◌else◌, length};
ghost use Rattle.vs_rows.specs.Changes.{with_changes};
ghost use Rattle.vs_record.specs.RowTable.{row_map_at};
ghost use Rattle.vs_core.specs.Acting.{stored};
ghost use Rattle.vs_core.specs.Cells.{cell, HasCell, SameRefs};

use vs_base::BucketId;
use vs_record::RowTable;
use vs_rows::Changes;
use vs_state::SetTables;

/// Makes changes of a bucket's rows. It takes no memory.
pub(crate) fn commit(table: &mut RowTable, bucket: BucketId, changes: Changes)
    requires { length changes.items ≤ (stored table.old bucket).room }
    ensures { (q : ℕ) → row_map_at table.new q ≡
        (if q == bucket then with_changes (row_map_at table.old bucket) changes.items else row_map_at table.old q) }
{
    if let Some(mut rows) = table.take_out(bucket) {
        rows.commit(changes);
        table.put(bucket, rows);
    }
}

/// Changes rows of a bucket. It takes no memory.
pub(crate) fn change_rows(tables: &mut SetTables, bucket: BucketId, changes: Changes)
    requires { length changes.items ≤ (stored tables.old.rows bucket).room }
    ensures rows { HasCell tables.old tables.new bucket
        (record (cell tables.old bucket) { rows = with_changes (row_map_at tables.old.rows bucket) changes.items }) }
    ensures refs { SameRefs tables.old tables.new }
{
    commit(&mut tables.rows, bucket, changes);
}
