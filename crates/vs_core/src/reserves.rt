//! How room is made in single tables of the state, for what acts on a bucket.

ghost use Rattle.std.specs.Prelude.{◌≡◌, ℕ, true, IfOk, OnOk};
ghost use Rattle.vs_record.specs.RowTable.{row_map_at};
ghost use Rattle.vs_machine.specs.State as machine;
ghost use Rattle.vs_state.specs.Plain.{plain};
ghost use Rattle.vs_core.specs.Acting.{stored, stored_at, IsStaged, HasHistoryRoom};
ghost use Rattle.vs_core.specs.Keeps.{IsSound};

use std::alloc::Global;
use vs_base::{BucketId, NoMemory, SetNo};
use vs_record::RowTable;
use vs_rows::{Ops, Rows, Staged};
use vs_state::{SetTables, State};

/// What operations on the rows of a bucket would change and answer, with room for the changes.
fn stage(
    alloc: Global,
    table: &mut RowTable,
    bucket: BucketId,
    ops: &Ops,
) -> Result<Staged, NoMemory>
    ensures staged { IfOk result (λ staged. IsStaged (stored table.new bucket) ops.now.items staged) }
    ensures same { (q : ℕ) → row_map_at table.new q ≡ row_map_at table.old q }
{
    table.reserve()?;
    let mut rows = match table.take_out(bucket) {
        Some(rows) => rows,
        None => Rows::new(alloc),
    };
    let staged = rows.stage(ops);
    table.put(bucket, rows);
    staged
}

/// The same, in the tables of a set.
fn stage_in(
    alloc: Global,
    tables: &mut SetTables,
    bucket: BucketId,
    ops: &Ops,
) -> Result<Staged, NoMemory>
    ensures staged { IfOk result (λ staged. IsStaged (stored tables.new.rows bucket) ops.now.items staged) }
    ensures same { (q : ℕ) → row_map_at tables.new.rows q ≡ row_map_at tables.old.rows q }
    ensures rest { tables.new ≡ record tables.old { rows = tables.new.rows } }
{
    stage(alloc, &mut tables.rows, bucket, ops)
}

/// What operations on the rows of a bucket at a set would change and answer, with room for the changes.
pub(crate) fn stage_rows(
    state: &mut State,
    set: SetNo,
    bucket: BucketId,
    ops: &Ops,
) -> Result<Staged, NoMemory>
    requires set { machine.has_set (plain state.old) set ≡ true }
    requires sound { IsSound state.old }
    ensures staged { IfOk result (λ staged. IsStaged (stored_at state.new set bucket) ops.now.items staged) }
    ensures same { plain state.new ≡ plain state.old }
    ensures histories { state.new.histories ≡ state.old.histories }
    ensures sound { IsSound state.new }
{
    let alloc = *state.sets.allocator();
    let tables = &mut state.sets[usize::from(set.get()) - 1];
    stage_in(alloc, tables, bucket, ops)
}

/// Makes room for one more entry in the history of a bucket.
pub(crate) fn reserve_entry(state: &mut State, bucket: BucketId) -> Result<(), NoMemory>
    requires bucket { machine.has_bucket (plain state.old) bucket ≡ true }
    requires sound { IsSound state.old }
    ensures room { OnOk result (HasHistoryRoom state.new bucket) }
    ensures same { plain state.new ≡ plain state.old }
    ensures sound { IsSound state.new }
{
    state.histories[bucket.get() as usize - 1].reserve()
}
