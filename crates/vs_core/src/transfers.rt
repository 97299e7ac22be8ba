//! How the transfers of a set are written. No call takes memory but those that make room.

ghost use Rattle.std.specs.Prelude.{◌≡◌, ◌≤◌, ◌<◌, ◌+◌, ◌^◌, ◌==◌, ℕ, not, if◌then◌else◌, IfSome, OnOk, Some, None};
ghost use Rattle.std.specs.Option.{option_copied, option_map};
ghost use Rattle.std.specs.Ordering.{nat_cmp};
ghost use Rattle.vs_table.specs.Entries.{value_of};
ghost use Rattle.vs_record.specs.RowTable.{row_map_at};
ghost use Rattle.vs_rows.specs.RowMap.{rows_above};
ghost use Rattle.vs_send.specs.Phases.{IsReady, IsDraining, MayWait, waited};
ghost use Rattle.vs_send.specs.declared.transfer.Phase.TheVariants.{Draining, Ready, Waiting, Copied, Sealed, WaitingLast};
ghost use Rattle.vs_space.specs.declared.status.Status.TheVariants.{Active, Sending, Sent};
ghost use Rattle.vs_machine.specs.Kinds.Connections as connections;
ghost use Rattle.vs_machine.specs.Kinds.Connections.{heard_by, is_null};
ghost use Rattle.vs_machine.specs.Kinds.Rebalancing.{is_haul};
ghost use Rattle.vs_machine.specs.Kinds.Sender.{in_phase};
ghost use Rattle.vs_state.specs.Plain.{entry_in, transfer_in};
ghost use Rattle.vs_core.specs.Cells.{cell, HasCell, SameRefs, SameTables, FollowTransfer};
ghost use Rattle.vs_core.specs.Sending.{HasKeptRoom, HasTransferRoom, counted_by};

use crate::statuses::{keep, set_status};
use vs_base::{BucketId, Mode, NoMemory, SetNo};
use vs_link::Heard;
use vs_record::RowTable;
use vs_rows::Key;
use vs_send::{By, Phase, Transfer};
use vs_space::Status;
use vs_state::SetTables;
use vs_table::Table;

/// Takes the transfer of a bucket out, and leaves its place free.
#[tactic(auto, using(crate::proofs::Updated::updated))]
fn take_out(table: &mut Table<BucketId, Transfer>, bucket: BucketId) -> Option<Transfer>
    ensures taken { result ≡ value_of nat_cmp table.old.items bucket }
    ensures others { (q : ℕ) → value_of nat_cmp table.new.items q ≡
        (if q == bucket then None else value_of nat_cmp table.old.items q) }
    ensures room { IfSome result (λ _. 1 ≤ table.new.room) }
{
    table.remove(&bucket)
}

/// Puts a transfer at a free place.
#[tactic(auto, using(crate::proofs::Updated::updated))]
fn put(table: &mut Table<BucketId, Transfer>, bucket: BucketId, transfer: Transfer)
    requires { 1 ≤ table.old.room }
    ensures { (q : ℕ) → value_of nat_cmp table.new.items q ≡
        (if q == bucket then Some transfer else value_of nat_cmp table.old.items q) }
{
    table.insert(bucket, transfer);
}

/// The transfer of a bucket waits for the reply to a message with rows, of which `last` is the last key.
pub(crate) fn wait_for_rows(
    tables: &mut SetTables,
    bucket: BucketId,
    epoch: u64,
    sync: u64,
    last: Option<Key>,
)
    requires { IfSome (transfer_in tables.old bucket) (λ t. IsReady t.phase) }
    ensures transfer { HasCell tables.old tables.new bucket
        (record (cell tables.old bucket) {
          transfer = option_map (λ t. in_phase t (Waiting epoch sync last)) (transfer_in tables.old bucket);
        }) }
    ensures refs { SameRefs tables.old tables.new }
{
    if let Some(mut transfer) = take_out(&mut tables.transfers, bucket) {
        transfer.posted(epoch, sync, last);
        put(&mut tables.transfers, bucket, transfer);
    }
}

/// The transfer of a bucket waits for the reply to the last message.
pub(crate) fn wait_for_last(tables: &mut SetTables, bucket: BucketId, epoch: u64, sync: u64)
    requires { IfSome (transfer_in tables.old bucket) (λ t. t.phase ≡ Sealed) }
    ensures transfer { HasCell tables.old tables.new bucket
        (record (cell tables.old bucket) {
          transfer = option_map (λ t. in_phase t (WaitingLast epoch sync)) (transfer_in tables.old bucket);
        }) }
    ensures refs { SameRefs tables.old tables.new }
{
    if let Some(mut transfer) = take_out(&mut tables.transfers, bucket) {
        transfer.posted_last(epoch, sync);
        put(&mut tables.transfers, bucket, transfer);
    }
}

/// Whether a bucket has rows above a key, or any where none is given.
fn has_rows_above(table: &RowTable, bucket: BucketId, key: Option<&Key>) -> bool
    ensures { result ≡ not (is_null (rows_above (row_map_at table.now bucket) (option_copied key.entry))) }
{
    match table.get(bucket) {
        Some(rows) => rows.more(key),
        None => false,
    }
}

/// Whether rows stand above the last key that was sent.
fn has_more(table: &RowTable, bucket: BucketId, phase: &Phase) -> bool
    ensures { result ≡ connections.has_more (row_map_at table.now bucket) phase.now }
{
    match phase {
        Phase::Waiting(_, _, last) => has_rows_above(table, bucket, last.as_ref()),
        _ => false,
    }
}

/// A transfer, once a reply was heard from this set: it goes on where it leads there and waits for that reply.
fn hear_from(transfer: &mut Transfer, table: &RowTable, from: SetNo, heard: &Heard)
    ensures { Some transfer.new ≡
        heard_by (Some transfer.old) (row_map_at table.now heard.now.bucket) from heard.now }
{
    if transfer.dest != from {
        return;
    }
    let more = has_more(table, heard.bucket, &transfer.phase);
    let _waited = transfer.heard(heard.sync, &heard.reply, more);
}

/// A reply was heard from this set, which the transfer of its bucket may wait for.
pub(crate) fn hear(tables: &mut SetTables, from: SetNo, heard: &Heard)
    ensures transfer { HasCell tables.old tables.new heard.now.bucket
        (record (cell tables.old heard.now.bucket) {
          transfer =
              heard_by (transfer_in tables.old heard.now.bucket) (row_map_at tables.old.rows heard.now.bucket) from heard.now;
        }) }
    ensures refs { SameRefs tables.old tables.new }
{
    if let Some(mut transfer) = take_out(&mut tables.transfers, heard.bucket) {
        hear_from(&mut transfer, &tables.rows, from, heard);
        put(&mut tables.transfers, heard.bucket, transfer);
    }
}

/// The transfer of a bucket waits one more turn for the running writes.
pub(crate) fn wait_turn(tables: &mut SetTables, bucket: BucketId)
    requires { IfSome (transfer_in tables.old bucket) (λ t. MayWait t.phase) }
    ensures transfer { HasCell tables.old tables.new bucket
        (record (cell tables.old bucket) {
          transfer = option_map (λ t. in_phase t (waited t.phase)) (transfer_in tables.old bucket);
        }) }
    ensures refs { SameRefs tables.old tables.new }
{
    if let Some(mut transfer) = take_out(&mut tables.transfers, bucket) {
        transfer.turn();
        put(&mut tables.transfers, bucket, transfer);
    }
}

/// A bucket is being sent to `dest`: its rows can be copied. Writes are refused by its status now, and its lock is lifted.
pub(crate) fn freeze(tables: &mut SetTables, bucket: BucketId, dest: SetNo)
    requires active { entry_in tables.old bucket ≡ Some Active }
    requires draining { IfSome (transfer_in tables.old bucket) (λ t. IsDraining t.phase) }
    ensures frozen { HasCell tables.old tables.new bucket
        (record (cell tables.old bucket) {
          entry = Some (Sending dest);
          transfer = option_map (λ t. in_phase t (Ready None)) (transfer_in tables.old bucket);
        }) }
    ensures refs { FollowTransfer tables.old tables.new bucket }
{
    set_status(&mut tables.space, bucket, Status::Sending(dest));
    if let Some(mut transfer) = take_out(&mut tables.transfers, bucket) {
        transfer.freeze();
        put(&mut tables.transfers, bucket, transfer);
    }
    tables.refs.unlock(bucket, Mode::Rw);
}

/// A bucket is sent to `dest`, with the rows of this place.
pub(crate) fn seal(tables: &mut SetTables, bucket: BucketId, dest: SetNo, place: u64)
    requires sending { entry_in tables.old bucket ≡ Some (Sending dest) }
    requires copied { IfSome (transfer_in tables.old bucket) (λ t. t.phase ≡ Copied) }
    requires room { HasKeptRoom tables.old bucket }
    ensures sealed { HasCell tables.old tables.new bucket
        (record (cell tables.old bucket) {
          entry = Some (Sent dest);
          kept = place;
          transfer = option_map (λ t. in_phase t Sealed) (transfer_in tables.old bucket);
        }) }
    ensures refs { SameRefs tables.old tables.new }
{
    set_status(&mut tables.space, bucket, Status::Sent(dest));
    keep(&mut tables.kept, bucket, place);
    if let Some(mut transfer) = take_out(&mut tables.transfers, bucket) {
        transfer.seal();
        put(&mut tables.transfers, bucket, transfer);
    }
}

/// Makes room to keep a place for a bucket.
pub(crate) fn reserve_kept(tables: &mut SetTables, bucket: BucketId) -> Result<(), NoMemory>
    ensures ready { OnOk result (HasKeptRoom tables.new bucket) }
    ensures same { SameTables tables.old tables.new }
{
    if tables.kept.contains(&bucket) {
        return Ok(());
    }
    tables.kept.reserve()
}

/// Makes room for one more transfer, and for its lock.
pub(crate) fn reserve_begin(tables: &mut SetTables) -> Result<(), NoMemory>
    ensures ready { OnOk result (HasTransferRoom tables.new) }
    ensures same { SameTables tables.old tables.new }
{
    tables.transfers.reserve()?;
    tables.refs.reserve()
}

/// 1 for a haul, and else 0.
fn haul_count(by: &By) -> u32
    ensures { result ≡ counted_by by.now }
{
    match by {
        By::Command(_) => 0,
        By::Haul(_) => 1,
    }
}

/// A transfer of a bucket to `dest` begins: it waits for the running writes, and no further one may begin.
pub(crate) fn begin(tables: &mut SetTables, bucket: BucketId, dest: SetNo, by: By)
    requires room { HasTransferRoom tables.old }
    requires none { transfer_in tables.old bucket ≡ None }
    requires hauls { tables.old.hauls + counted_by by < 2 ^ 32 }
    ensures begun { HasCell tables.old tables.new bucket
        (record (cell tables.old bucket) {
          transfer = Some (record { dest = dest; by = by; phase = Draining 0 });
        }) }
    ensures refs { FollowTransfer tables.old tables.new bucket }
{
    let transfer = Transfer::start(dest, by);
    tables.hauls += haul_count(&transfer.by);
    tables.refs.lock(bucket, Mode::Rw);
    put(&mut tables.transfers, bucket, transfer);
}

/// The transfer of a bucket is gone, and its lock with it.
pub(crate) fn end(tables: &mut SetTables, bucket: BucketId)
    requires { (if is_haul (transfer_in tables.old bucket) then 1 else 0) ≤ tables.old.hauls }
    ensures gone { HasCell tables.old tables.new bucket (record (cell tables.old bucket) { transfer = None }) }
    ensures refs { FollowTransfer tables.old tables.new bucket }
{
    if let Some(transfer) = take_out(&mut tables.transfers, bucket) {
        tables.hauls -= haul_count(&transfer.by);
    }
    tables.refs.unlock(bucket, Mode::Rw);
}
