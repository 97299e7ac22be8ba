//! Changes as bodies.

ghost use Rattle.std.specs.Prelude.{◌≡◌, ◌≤◌, ◌^◌, ◌∷◌, [], ◌++◌, length, Some, OnOk, IfOk};
ghost use Rattle.std.specs.Int.{w16, w32, w64};
ghost use Rattle.std.specs.List.{AllByRecursion};
ghost use Rattle.vs_base.specs.Numbers.{IsBucketId};
ghost use Rattle.vs_rows.specs.Names.{IsKey};
ghost use Rattle.vs_record.specs.Body.{number_text, key_text, value_text, row_text, status_text, op_text, ops_text, rows_text, change_text, body_of, body_limit, IsStatus, IsValueIn, IsRow, IsModest, IsOp, AreOps, AreRows, HasCounts, HasText, IsRecordable};
ghost use Rattle.vs_record.specs.declared.version.Version.TheVariants.{Two};
ghost use Rattle.vs_record.specs.Change.{change as plain};
ghost use Rattle.vs_record.specs.Reading.{change_of};

use crate::change::Change;
use std::alloc::Global;
use vs_base::{BucketId, NoMemory};
use vs_rows::{Key, Op, Ops, Page, Val};
use vs_space::Status;

#[tactic(auto, unfolding(crate::specs::Body::number_text))]
fn put_two(out: &mut Vec<u8>, n: u16) -> Result<(), NoMemory>
    ensures { OnOk result (out.new.items ≡ out.old.items ++ number_text w16 n) }
{
    out.extend_from_slice(&n.to_le_bytes())?;
    Ok(())
}

#[tactic(auto, unfolding(crate::specs::Body::number_text))]
fn put_four(out: &mut Vec<u8>, n: u32) -> Result<(), NoMemory>
    ensures { OnOk result (out.new.items ≡ out.old.items ++ number_text w32 n) }
{
    out.extend_from_slice(&n.to_le_bytes())?;
    Ok(())
}

#[tactic(auto, unfolding(crate::specs::Body::number_text))]
fn put_eight(out: &mut Vec<u8>, n: u64) -> Result<(), NoMemory>
    ensures { OnOk result (out.new.items ≡ out.old.items ++ number_text w64 n) }
{
    out.extend_from_slice(&n.to_le_bytes())?;
    Ok(())
}

fn put_key(out: &mut Vec<u8>, key: &Key) -> Result<(), NoMemory>
    ensures text { OnOk result (out.new.items ≡ out.old.items ++ key_text key.now) }
    ensures key { IsKey key.now }
{
    let bytes = key.as_bytes();
    out.push(bytes.len() as u8)?;
    out.extend_from_slice(bytes)?;
    Ok(())
}

fn put_value(out: &mut Vec<u8>, value: &Val) -> Result<(), NoMemory>
    ensures text { OnOk result (out.new.items ≡ out.old.items ++ value_text Two value.now) }
    ensures value { IsValueIn Two value.now }
{
    let bytes = value.as_bytes();
    put_two(out, bytes.len() as u16)?;
    out.extend_from_slice(bytes)?;
    Ok(())
}

fn put_row(out: &mut Vec<u8>, key: &Key, value: &Val) -> Result<(), NoMemory>
    ensures text { OnOk result (out.new.items ≡ out.old.items ++ row_text Two (key.now, value.now)) }
    ensures row { OnOk result (IsRow Two (key.now, value.now)) }
{
    put_key(out, key)?;
    put_value(out, value)
}

fn put_values(out: &mut Vec<u8>, first: &Val, second: &Val) -> Result<(), NoMemory>
    ensures text { OnOk result (out.new.items
        ≡ out.old.items ++ (value_text Two first.now ++ value_text Two second.now)) }
    ensures values { OnOk result (IsValueIn Two first.now × IsValueIn Two second.now) }
{
    put_value(out, first)?;
    put_value(out, second)
}

fn put_status(out: &mut Vec<u8>, status: Status) -> Result<(), NoMemory>
    ensures text { OnOk result (out.new.items ≡ out.old.items ++ status_text status) }
    ensures status { IsStatus status }
{
    let text = match status {
        Status::Active => [1, 0],
        Status::Pinned => [2, 0],
        Status::Sending(to) => [3, to.get()],
        Status::Receiving(from) => [4, from.get()],
        Status::Sent(to) => [5, to.get()],
        Status::Garbage => [6, 0],
    };
    out.extend_from_slice(&text)?;
    Ok(())
}

fn put_op(out: &mut Vec<u8>, op: &Op) -> Result<(), NoMemory>
    requires { IsModest op.now }
    ensures text { OnOk result (out.new.items ≡ out.old.items ++ op_text Two op.now) }
    ensures op { OnOk result (IsOp Two op.now) }
{
    match op {
        Op::Get(key) => {
            out.push(1)?;
            put_key(out, key)
        }
        Op::Put(key, value) => {
            out.push(2)?;
            put_row(out, key, value)
        }
        Op::Insert(key, value) => {
            out.push(3)?;
            put_row(out, key, value)
        }
        Op::Delete(key) => {
            out.push(4)?;
            put_key(out, key)
        }
        Op::Swap(key, old, new) => {
            out.push(5)?;
            put_key(out, key)?;
            put_values(out, old, new)
        }
        Op::Count => {
            out.push(6)?;
            Ok(())
        }
        Op::Scan(key, n) => {
            out.push(7)?;
            put_key(out, key)?;
            out.push(*n)?;
            Ok(())
        }
    }
}

fn put_ops(out: &mut Vec<u8>, ops: &Ops) -> Result<(), NoMemory>
    requires { AllByRecursion IsModest ops.now.items }
    ensures text { OnOk result (out.new.items ≡ out.old.items ++ ops_text Two ops.now.items) }
    ensures ops { OnOk result (AreOps Two ops.now.items) }
{
    out.push(ops.len() as u8)?;
    for op in ops.as_slice() {
        put_op(out, op)?;
    }
    Ok(())
}

fn put_page(out: &mut Vec<u8>, page: &Page) -> Result<(), NoMemory>
    ensures text { OnOk result (out.new.items ≡ out.old.items ++ rows_text Two page.now.items) }
    ensures rows { OnOk result (AreRows Two page.now.items) }
{
    put_two(out, page.len() as u16)?;
    for (key, value) in page.as_slice() {
        put_row(out, key, value)?;
    }
    Ok(())
}

fn put_bucket(out: &mut Vec<u8>, tag: u8, bucket: BucketId) -> Result<(), NoMemory>
    ensures text { OnOk result (out.new.items
        ≡ out.old.items ++ (tag ∷ number_text w32 bucket)) }
    ensures bucket { IsBucketId bucket }
{
    out.push(tag)?;
    put_four(out, bucket.get())
}

fn put_change(out: &mut Vec<u8>, change: &Change) -> Result<(), NoMemory>
    requires { HasCounts (plain change.now) }
    ensures text { OnOk result (out.new.items ≡ out.old.items ++ change_text Two (plain change.now)) }
    ensures spelled { OnOk result (HasText Two (plain change.now)) }
{
    match change {
        Change::Status(bucket, status) => {
            put_bucket(out, 1, *bucket)?;
            put_status(out, *status)
        }
        Change::RowsPage(bucket, source, page) => {
            put_bucket(out, 2, *bucket)?;
            out.push(source.get())?;
            put_page(out, page)
        }
        Change::Write(id, bucket, ops) => {
            out.push(3)?;
            out.push(id.client.get())?;
            put_four(out, id.call)?;
            put_four(out, bucket.get())?;
            put_ops(out, ops)
        }
        Change::Wipe(bucket, count) => {
            put_bucket(out, 4, *bucket)?;
            put_two(out, *count)
        }
        Change::Forget(bucket) => put_bucket(out, 5, *bucket),
    }
}

/// The body of a change behind its number, as it stands in the second part of a journal.
pub fn write_change(alloc: Global, change: &Change, seq: u64) -> Result<Vec<u8>, NoMemory>
    requires { HasCounts (plain change.now) }
    ensures text { IfOk result (λ body. body.items ≡ body_of (Some seq) (plain change.now)) }

    // So it is read again, as that change with that number.
    ensures recordable { OnOk result (IsRecordable (Some seq) (plain change.now)) }
    ensures again { IfOk result (λ body. change_of 2 body.items
        ≡ Some (Some seq, plain change.now)) }

    // It has 1 to 1,048,576 bytes, as an entry of a journal may have, and not near as many.
    ensures some { IfOk result (λ body. 1 ≤ length body.items) }
    ensures most { IfOk result (λ body. length body.items ≤ 2 ^ 20) }
    ensures limit { IfOk result (λ body. length body.items ≤ body_limit) }
{
    let mut body = Vec::new(alloc);
    put_eight(&mut body, seq)?;
    put_change(&mut body, change)?;
    Ok(body)
}
