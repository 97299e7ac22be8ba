//! Changes from their bodies.

ghost use Rattle.std.specs.Prelude.{◌≡◌, ◌≢◌, ◌≤◌, ℕ, [], Option, Some, Err, OnOk, IfOk, IfErr};
ghost use Rattle.vs_record.specs.Body.{IsBodyOf, IsOfVersion};
ghost use Rattle.vs_record.specs.Change as plain;
ghost use Rattle.vs_record.specs.Change.{change, entry_of};
ghost use Rattle.vs_record.specs.Reading.{Gives, rows_at, op_by, op_at, ops_at, set_status_at, add_rows_at, write_at, wipe_at, forget_at, whole, text_of, change_of};

use crate::change::Change;
use crate::fault::RecordFault;
use crate::fields::{
    bucket_at, byte_at, client_at, eight_at, few_at, four_at, key_at, many_at, row_at, set_at,
    status_at, two_at, values_at,
};
use crate::version::Version;
use std::alloc::Global;
use vs_base::CallId;
use vs_rows::{Op, Ops, Page};

#[tactic(auto, unfolding(crate::specs::Reading::op_by))]
fn op_by(alloc: Global, version: Version, tag: u8, bytes: &[u8]) -> Result<(Op, &[u8]), RecordFault>
    ensures { Gives (λ x. (x.0, x.1.now)) result (op_by version tag bytes.now) }
{
    match tag {
        1 => {
            let (key, rest) = key_at(alloc, bytes)?;
            Ok((Op::Get(key), rest))
        }
        2 => {
            let ((key, value), rest) = row_at(alloc, version, bytes)?;
            Ok((Op::Put(key, value), rest))
        }
        3 => {
            let ((key, value), rest) = row_at(alloc, version, bytes)?;
            Ok((Op::Insert(key, value), rest))
        }
        4 => {
            let (key, rest) = key_at(alloc, bytes)?;
            Ok((Op::Delete(key), rest))
        }
        5 => {
            let (key, rest) = key_at(alloc, bytes)?;
            let ((old, new), rest) = values_at(alloc, version, rest)?;
            Ok((Op::Swap(key, old, new), rest))
        }
        6 => Ok((Op::Count, bytes)),
        7 => {
            let (key, rest) = key_at(alloc, bytes)?;
            let Some((n, rest)) = few_at(rest) else {
                return Err(RecordFault::BadBody);
            };
            Ok((Op::Scan(key, n), rest))
        }
        _ => Err(RecordFault::BadBody),
    }
}

#[tactic(auto, unfolding(crate::specs::Reading::op_at))]
fn op_at(alloc: Global, version: Version, bytes: &[u8]) -> Result<(Op, &[u8]), RecordFault>
    ensures { Gives (λ x. (x.0, x.1.now)) result (op_at version bytes.now) }
{
    let Some((tag, rest)) = byte_at(bytes) else {
        return Err(RecordFault::BadBody);
    };
    op_by(alloc, version, tag, rest)
}

#[tactic(auto, using(crate::proofs::Loops::ops_on, crate::proofs::Loops::ops_stop, crate::proofs::Loops::ops_done), unfolding(crate::specs::Reading::ops_at))]
fn ops_at(alloc: Global, version: Version, bytes: &[u8]) -> Result<(Ops, &[u8]), RecordFault>
    ensures { Gives (λ x. (x.0.items, x.1.now)) result (ops_at version bytes.now) }
{
    let Some((count, rest)) = byte_at(bytes) else {
        return Err(RecordFault::BadBody);
    };
    if count < 1 || usize::from(count) > Ops::MAX {
        return Err(RecordFault::BadBody);
    }
    let (first, mut rest) = op_at(alloc, version, rest)?;
    let mut ops = Ops::one(alloc, first)?;
    for _ in 1..count {
        let (op, more) = op_at(alloc, version, rest)?;
        ops.reserve()?;
        ops.push(op);
        rest = more;
    }
    Ok((ops, rest))
}

#[tactic(auto, using(crate::proofs::Loops::rows_on, crate::proofs::Loops::rows_stop, crate::proofs::Loops::rows_done, crate::proofs::Loops::rows_fall), unfolding(crate::specs::Reading::rows_at))]
fn page_at(alloc: Global, version: Version, bytes: &[u8]) -> Result<(Page, &[u8]), RecordFault>
    ensures { Gives (λ x. (x.0.items, x.1.now)) result (rows_at version bytes.now) }
{
    let Some((count, mut rest)) = two_at(bytes) else {
        return Err(RecordFault::BadBody);
    };
    if usize::from(count) > Page::MAX {
        return Err(RecordFault::BadBody);
    }
    let mut page = Page::new(alloc);
    for _ in 0..count {
        let (row, more) = row_at(alloc, version, rest)?;
        if !page.can_push(&row.0) {
            return Err(RecordFault::BadBody);
        }
        page.reserve()?;
        page.push(row);
        rest = more;
    }
    Ok((page, rest))
}

#[tactic(auto, unfolding(crate::specs::Reading::id_at))]
fn write_of(alloc: Global, version: Version, bytes: &[u8]) -> Result<Change, RecordFault>
    ensures { Gives change result (whole (write_at version bytes.now)) }
{
    let Some((client, rest)) = client_at(bytes) else {
        return Err(RecordFault::BadBody);
    };
    let Some((call, rest)) = four_at(rest) else {
        return Err(RecordFault::BadBody);
    };
    let Some((bucket, rest)) = bucket_at(rest) else {
        return Err(RecordFault::BadBody);
    };
    let (ops, rest) = ops_at(alloc, version, rest)?;
    ended(rest)?;
    Ok(Change::Write(CallId { client, call }, bucket, ops))
}

fn ended(rest: &[u8]) -> Result<(), RecordFault>
    ensures ok { OnOk result (rest.now ≡ []) }
    ensures err { IfErr result (λ fault. (fault ≡ RecordFault.BadBody) × (rest.now ≢ [])) }
{
    if rest.is_empty() {
        Ok(())
    } else {
        Err(RecordFault::BadBody)
    }
}

fn status_of(bytes: &[u8]) -> Result<Change, RecordFault>
    ensures { Gives change result (whole (set_status_at bytes.now)) }
{
    let Some((bucket, rest)) = bucket_at(bytes) else {
        return Err(RecordFault::BadBody);
    };
    let Some((status, rest)) = status_at(rest) else {
        return Err(RecordFault::BadBody);
    };
    ended(rest)?;
    Ok(Change::Status(bucket, status))
}

fn page_of(alloc: Global, version: Version, bytes: &[u8]) -> Result<Change, RecordFault>
    ensures { Gives change result (whole (add_rows_at version bytes.now)) }
{
    let Some((bucket, rest)) = bucket_at(bytes) else {
        return Err(RecordFault::BadBody);
    };
    let Some((source, rest)) = set_at(rest) else {
        return Err(RecordFault::BadBody);
    };
    let (page, rest) = page_at(alloc, version, rest)?;
    ended(rest)?;
    Ok(Change::RowsPage(bucket, source, page))
}

fn wipe_of(bytes: &[u8]) -> Result<Change, RecordFault>
    ensures { Gives change result (whole (wipe_at bytes.now)) }
{
    let Some((bucket, rest)) = bucket_at(bytes) else {
        return Err(RecordFault::BadBody);
    };
    let Some((count, rest)) = many_at(rest) else {
        return Err(RecordFault::BadBody);
    };
    ended(rest)?;
    Ok(Change::Wipe(bucket, count))
}

fn forget_of(bytes: &[u8]) -> Result<Change, RecordFault>
    ensures { Gives change result (whole (forget_at bytes.now)) }
{
    let Some((bucket, rest)) = bucket_at(bytes) else {
        return Err(RecordFault::BadBody);
    };
    ended(rest)?;
    Ok(Change::Forget(bucket))
}

#[tactic(auto, unfolding(crate::specs::Reading::text_of, crate::specs::Reading::change_by))]
fn text_of(alloc: Global, version: Version, bytes: &[u8]) -> Result<Change, RecordFault>
    ensures { Gives change result (text_of version bytes.now) }
{
    let Some((tag, rest)) = byte_at(bytes) else {
        return Err(RecordFault::BadBody);
    };
    match tag {
        1 => status_of(rest),
        2 => page_of(alloc, version, rest),
        3 => write_of(alloc, version, rest),
        4 => wipe_of(rest),
        5 => forget_of(rest),
        _ => Err(RecordFault::BadBody),
    }
}

#[tactic(auto, unfolding(crate::specs::Reading::change_of))]
fn change_of(alloc: Global, body: &[u8], version: u8) -> Result<(Option<u64>, Change), RecordFault>
    ensures { Gives entry_of result (change_of version body.now) }
{
    if version == 1 {
        let change = text_of(alloc, Version::One, body)?;
        return Ok((None, change));
    }
    let Some((number, rest)) = eight_at(body) else {
        return Err(RecordFault::BadBody);
    };
    let change = text_of(alloc, Version::Two, rest)?;
    Ok((Some(number), change))
}

/// The change whose body these bytes are, in a journal's part of this version, and its number: one
/// of the first part, which is of version 1, has none.
pub fn read_change(
    alloc: Global,
    body: &[u8],
    version: u8,
) -> Result<(Option<u64>, Change), RecordFault>
    requires { (1 ≤ version) × (version ≤ 2) }
    ensures version { IfOk result (λ entry. IsOfVersion version entry.0) }

    // What is read may stand in a journal, and is spelled so and not otherwise.
    ensures found { IfOk result (λ entry. IsBodyOf body.now entry.0 (change entry.1)) }

    // What is spelled so is read, unless memory is wanted.
    ensures again { (number : Option ℕ) (c : plain.Change) → IsOfVersion version number
        → IsBodyOf body.now number c → Gives entry_of result (Some (number, c)) }

    // It is refused as no body exactly where no change is spelled so.
    ensures bad { result ≡ Err RecordFault.BadBody → (number : Option ℕ) (c : plain.Change)
        → IsOfVersion version number → ¬ (IsBodyOf body.now number c) }

    ensures reading { Gives entry_of result (change_of version body.now) }
{
    change_of(alloc, body, version)
}
