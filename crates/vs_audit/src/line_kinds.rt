//! The lines of a report, each kind from its words.

ghost use Rattle.std.specs.Prelude.{◌≡◌, ◌≤◌, ◌<◌, ◌*◌, ◌+◌, ◌^◌, IfOk, true};
ghost use Rattle.vs_rows.specs.RowMap.{IsRising};
ghost use Rattle.vs_audit.specs.Account.{entry, call, outcome};
ghost use Rattle.vs_audit.specs.Given.{MayDrop, MayTake, MayTell};
ghost use Rattle.vs_audit.specs.Legal.{number_of};
ghost use Rattle.vs_audit.specs.Operations.{is_above};
ghost use Rattle.vs_audit.specs.Outcomes.{outcome_of};
ghost use Rattle.vs_audit.specs.ReportLines.{cluster_line, is_state, counts_at, set_line, entry_at, entries_at, bucket_line, history_line, row_line, entry_line, call_line, command_line, end_line};

use crate::account::{AuditEntry, CallLine, LineOutcome};
use crate::answers::{answers, pair};
use crate::doubles::number_of;
use crate::heads::{Head, Size};
use crate::line_fault::LineFault;
use crate::ops::ops;
use crate::outcome_word::OutcomeWord;
use crate::tail::{cause, ending, status};
use crate::words::Words;
use std::alloc::Global;
use vs_base::{BucketId, OpNo, SetNo};
use vs_rows::{Key, Val};

/// How many counts the line of a set has.
const COUNTS: u64 = 6;

/// `cluster N M`.
pub(crate) fn cluster_line(words: &mut Words) -> Result<Size, LineFault>
    ensures { MayTell (λ x. x) result (cluster_line words.old) }
{
    words.after(b"cluster")?;
    let sets = words.number(1, u64::from(SetNo::MAX))?;
    let buckets = words.number(1, u64::from(BucketId::MAX))?;
    words.end()?;
    Ok(Size {
        sets: sets as u32,
        buckets: buckets as u32,
    })
}

fn is_state(word: &[u8]) -> bool
    ensures { result ≡ is_state word.now }
{
    word == b"up".as_slice() || word == b"down".as_slice()
}

/// So many counts.
fn counts(words: &mut Words, count: u64) -> Result<(), LineFault>
    ensures { MayDrop result words.new (counts_at count words.old) }
{
    for n in 0..count {
        words.count()?;
    }
    Ok(())
}

/// The line of this set: its number, whether it is up, and its counts.
pub(crate) fn set_line(words: &mut Words, set: u32) -> Result<(), LineFault>
    ensures { MayTell (λ x. x) result (set_line set words.old) }
{
    words.after(b"set")?;
    words.number(u64::from(set), u64::from(set))?;
    let state = words.word()?;
    if !is_state(state) {
        return Err(LineFault::Bad);
    }
    counts(words, COUNTS)?;
    words.end()
}

/// The entry of this set, where it stands next.
fn bucket_entry(words: &mut Words, sets: u32, set: u32) -> Result<(), LineFault>
    ensures { MayTake (λ x. x) result words.new (entry_at sets set words.old) }
{
    if words.passes(u64::from(set)) {
        return status(words, sets);
    }
    Ok(())
}

/// The entries of a bucket, over so many sets.
fn bucket_entries(words: &mut Words, sets: u32) -> Result<(), LineFault>
    requires { sets ≤ 32 }
    ensures { MayDrop result words.new (entries_at sets words.old) }
{
    for set in 0..sets {
        bucket_entry(words, sets, set + 1)?;
    }
    Ok(())
}

/// The line of this bucket: its number, and the sets that have it.
pub(crate) fn bucket_line(words: &mut Words, sets: u32, bucket: u32) -> Result<(), LineFault>
    requires { sets ≤ 32 }
    ensures { MayTell (λ x. x) result (bucket_line sets bucket words.old) }
{
    words.after(b"bucket")?;
    words.number(u64::from(bucket), u64::from(bucket))?;
    bucket_entries(words, sets)?;
    words.end()
}

/// The first line of a history, of a bucket above the last.
pub(crate) fn history_line(words: &mut Words, buckets: u32, last: u32) -> Result<Head, LineFault>
    requires { buckets ≤ 30000 }
    ensures { MayTell (λ x. x) result (history_line buckets last words.old) }
{
    words.after(b"history")?;
    let bucket = words.number(u64::from(last) + 1, u64::from(buckets))?;
    let rows = words.any_number()?;
    let writes = words.any_number()?;
    let reads = words.any_number()?;
    words.end()?;
    if writes == 0 && reads == 0 {
        return Err(LineFault::Bad);
    }
    Ok(Head {
        bucket: bucket as u32,
        rows,
        writes,
        reads,
    })
}

/// `row K V`, above the rows before it.
pub(crate) fn row_line(
    alloc: Global,
    words: &mut Words,
    rows: &[(Key, Val)],
) -> Result<(Key, Val), LineFault>
    requires { IsRising rows.now }
    ensures read { MayTell (λ x. x) result (row_line rows.now words.old) }
    ensures above { IfOk result (λ row. is_above rows.now row.0 ≡ true) }
{
    words.after(b"row")?;
    let row = pair(alloc, rows, words)?;
    words.end()?;
    Ok(row)
}

/// `write PLACE C L OPS => ANSWERS`, or with another name.
pub(crate) fn entry_line(
    alloc: Global,
    words: &mut Words,
    name: &[u8],
    line: u32,
) -> Result<AuditEntry, LineFault>
    ensures { MayTell entry result (entry_line name.now line words.old) }
{
    words.after(name)?;
    let place = words.any_number()?;
    let id = words.id()?;
    let ops = ops(alloc, words)?;
    let answers = answers(alloc, words)?;
    Ok(AuditEntry {
        line,
        id,
        ops,
        answers,
        place,
    })
}

/// What became of a call, by this word and all that are left.
fn outcome_of(
    alloc: Global,
    name: OutcomeWord,
    words: &mut Words,
    sets: u32,
) -> Result<LineOutcome, LineFault>
    ensures { MayTell outcome result (outcome_of sets name words.old) }
{
    match name {
        OutcomeWord::Reply => {
            let place = words.any_number()?;
            Ok(LineOutcome::Reply(place, answers(alloc, words)?))
        }
        OutcomeWord::Lost => {
            words.end()?;
            Ok(LineOutcome::Lost)
        }
        OutcomeWord::Spent => {
            cause(words, sets)?;
            words.end()?;
            Ok(LineOutcome::Spent)
        }
        OutcomeWord::Open => {
            words.end()?;
            Ok(LineOutcome::Open)
        }
    }
}

/// `call C L` and what became of it, for a call above the last.
pub(crate) fn call_line(
    alloc: Global,
    words: &mut Words,
    sets: u32,
    last: u64,
    line: u32,
) -> Result<CallLine, LineFault>
    ensures read { MayTell call result (call_line sets last line words.old) }
    ensures above { IfOk result (λ c. last < number_of c.id) }
{
    words.after(b"call")?;
    let id = words.id()?;
    let word = words.word()?;
    let Some(name) = OutcomeWord::of(word) else {
        return Err(LineFault::Bad);
    };
    let outcome = outcome_of(alloc, name, words, sets)?;
    let call = CallLine { line, id, outcome };
    if number_of(call.id) > last {
        Ok(call)
    } else {
        Err(LineFault::Bad)
    }
}

/// `command O L` and what became of it, for a command above the last: its number.
pub(crate) fn command_line(words: &mut Words, sets: u32, last: u64) -> Result<u64, LineFault>
    ensures { MayTell (λ x. x) result (command_line sets last words.old) }
{
    words.after(b"command")?;
    let operator = words.number(1, u64::from(OpNo::MAX))?;
    let command = words.number(1, u64::from(u32::MAX))?;
    ending(words, sets)?;
    words.end()?;
    let number = operator * (1 << 32) + command;
    if number <= last {
        return Err(LineFault::Bad);
    }
    Ok(number)
}

/// `end`.
pub(crate) fn end_line(words: &mut Words) -> Result<(), LineFault>
    ensures { MayTell (λ x. x) result (end_line words.old) }
{
    words.after(b"end")?;
    words.end()
}
