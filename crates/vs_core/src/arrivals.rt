//! How the tables of a set take what arrives of a bucket. No call takes memory but those that make room.

ghost use Rattle.std.specs.Prelude.{◌≡◌, ◌≤◌, ◌==◌, ℕ, if◌then◌else◌, length, true, IsNone, OnOk, Some, None};
ghost use Rattle.vs_rows.specs.RowMap.{with_rows};
ghost use Rattle.vs_record.specs.RowTable.{row_map_at};
ghost use Rattle.vs_recover.specs.Asks.{ask_of};
ghost use Rattle.vs_space.specs.Entries.{status_of};
ghost use Rattle.vs_space.specs.declared.status.Status.TheVariants.{Active, Receiving};
ghost use Rattle.vs_machine.specs.Kinds.Connections.{is_receiving};
ghost use Rattle.vs_state.specs.Plain.{entry_in};
ghost use Rattle.vs_core.specs.Acting.{stored};
ghost use Rattle.vs_core.specs.Cells.{cell, HasCell, SameRefs, SameTables};
ghost use Rattle.vs_core.specs.Delivering.{HasPageRoom, IsOpenTo};

use crate::statuses::set_status;
use std::alloc::Global;
use vs_base::{BucketId, NoMemory, SetNo};
use vs_record::RowTable;
use vs_recover::Asks;
use vs_rows::{Page, Rows};
use vs_space::{Space, Status};
use vs_state::SetTables;

/// Makes room for so many rows of a bucket more.
fn reserve_places(
    alloc: Global,
    table: &mut RowTable,
    bucket: BucketId,
    count: u16,
) -> Result<(), NoMemory>
    ensures room { OnOk result (count ≤ (stored table.new bucket).room) }
    ensures same { (q : ℕ) → row_map_at table.new q ≡ row_map_at table.old q }
{
    table.reserve()?;
    let mut rows = match table.take_out(bucket) {
        Some(rows) => rows,
        None => Rows::new(alloc),
    };
    let made = rows.reserve(count);
    table.put(bucket, rows);
    made
}

/// Makes room for an entry of a bucket, and for so many rows of it more.
pub(crate) fn reserve_rows(
    alloc: Global,
    tables: &mut SetTables,
    bucket: BucketId,
    count: u16,
) -> Result<(), NoMemory>
    ensures room { OnOk result (HasPageRoom tables.new bucket count) }
    ensures same { SameTables tables.old tables.new }
{
    tables.space.reserve()?;
    reserve_places(alloc, &mut tables.rows, bucket, count)
}

/// A bucket is being received from `source`, now or already.
fn mark_receiving(space: &mut Space, bucket: BucketId, source: SetNo)
    requires open { IsOpenTo (status_of space.old.entries bucket) source }
    requires room { IsNone (status_of space.old.entries bucket) → 1 ≤ space.old.room }
    ensures { (q : ℕ) → status_of space.new.entries q ≡
        (if q == bucket then Some (Receiving source) else status_of space.old.entries q) }
{
    match space.get(bucket) {
        // A status doesn't change to itself.
        Some(_) => {}
        None => set_status(space, bucket, Status::Receiving(source)),
    }
}

/// Sets the rows of a page.
fn add_page(table: &mut RowTable, bucket: BucketId, page: Page)
    requires { length page.items ≤ (stored table.old bucket).room }
    ensures { (q : ℕ) → row_map_at table.new q ≡
        (if q == bucket then with_rows (row_map_at table.old bucket) page.items else row_map_at table.old q) }
{
    if let Some(mut rows) = table.take_out(bucket) {
        rows.put_page(page);
        table.put(bucket, rows);
    }
}

/// Rows of a bucket arrive from `source`.
pub(crate) fn add_rows(tables: &mut SetTables, bucket: BucketId, source: SetNo, page: Page)
    requires open { IsOpenTo (entry_in tables.old bucket) source }
    requires room { HasPageRoom tables.old bucket (length page.items) }
    ensures added { HasCell tables.old tables.new bucket
        (record (cell tables.old bucket) {
          entry = Some (Receiving source);
          rows = with_rows (row_map_at tables.old.rows bucket) page.items;
        }) }
    ensures refs { SameRefs tables.old tables.new }
{
    mark_receiving(&mut tables.space, bucket, source);
    add_page(&mut tables.rows, bucket, page);
}

/// Nothing is asked about a bucket any more.
fn end_ask(asks: &mut Asks, bucket: BucketId)
    ensures { (q : ℕ) → ask_of asks.new.items q ≡ (if q == bucket then None else ask_of asks.old.items q) }
{
    asks.drop_ask(bucket);
}

/// All rows of a bucket that was being received are here, and it is active.
#[tactic(auto, using(crate::proofs::Arriving::may_activate))]
pub(crate) fn activate(tables: &mut SetTables, bucket: BucketId)
    requires { is_receiving (entry_in tables.old bucket) ≡ true }
    ensures active { HasCell tables.old tables.new bucket
        (record (cell tables.old bucket) { entry = Some Active; ask = None }) }
    ensures refs { SameRefs tables.old tables.new }
{
    set_status(&mut tables.space, bucket, Status::Active);
    end_ask(&mut tables.asks, bucket);
}
