//! The histories of the buckets that have a write or a read.

ghost use Rattle.std.specs.Prelude.{◌≡◌, ◌++◌, ◌&&◌, codes, OnOk};
ghost use Rattle.std.specs.List.{flat_map};
ghost use Rattle.vs_history.specs.History.{entry};
ghost use Rattle.vs_history.specs.Means.{means};
ghost use Rattle.vs_machine.specs.Kinds.Connections.{is_null};
ghost use Rattle.vs_machine.specs.Report.{number, lines, row_line, numbers_to};
ghost use Rattle.vs_machine.specs.Report.{history_head, history_entry, history_lines};
ghost use Rattle.vs_state.specs.Plain.{plain};
ghost use Rattle.vs_state.specs.Sized.{IsSized};
ghost use Rattle.vs_report.specs.Adds.{Adds};

use crate::answers::put_answers;
use crate::ops::put_ops;
use crate::words::{put_number, put_text, put_word};
use vs_base::{BucketId, NoMemory};
use vs_history::{Entry, History};
use vs_rows::{Key, Val};
use vs_state::State;

/// Appends the first line of a history: how many rows, writes and reads follow.
fn put_head(out: &mut Vec<u8>, bucket: u64, history: &History) -> Result<(), NoMemory>
    ensures { OnOk result (Adds out.old out.new (history_head bucket (means history.now))) }
{
    put_text(out, b"history")?;
    put_number(out, bucket)?;
    put_number(out, history.base().len() as u64)?;
    put_number(out, history.writes())?;
    put_number(out, history.reads())?;
    put_text(out, b"\n")
}

/// Appends the rows at opening.
fn put_rows(out: &mut Vec<u8>, rows: &[(Key, Val)]) -> Result<(), NoMemory>
    ensures { OnOk result (Adds out.old out.new (lines row_line rows.now)) }
{
    for (key, value) in rows {
        put_text(out, b"row")?;
        put_word(out, key.as_bytes())?;
        put_word(out, value.as_bytes())?;
        put_text(out, b"\n")?;
    }
    Ok(())
}

/// Appends the kind of an entry, its place, its client and the number of the call.
fn put_place(out: &mut Vec<u8>, kind: &[u8], call: &Entry) -> Result<(), NoMemory>
    ensures { OnOk result (Adds out.old out.new
        (kind.now ++ number call.now.place ++ number call.now.id.client ++ number call.now.id.call)) }
{
    put_text(out, kind)?;
    put_number(out, call.place)?;
    put_number(out, u64::from(call.id.client.get()))?;
    put_number(out, u64::from(call.id.call))
}

/// Appends a write or a read: its place, what was asked and what was answered.
fn put_entry(out: &mut Vec<u8>, kind: &[u8], call: &Entry) -> Result<(), NoMemory>
    ensures { OnOk result (Adds out.old out.new (history_entry kind.now (entry call.now) ++ codes "\n")) }
{
    put_place(out, kind, call)?;
    put_text(out, b" ")?;
    put_ops(out, call.ops.as_slice())?;
    put_text(out, b" => ")?;
    put_answers(out, call.answers.as_slice())?;
    put_text(out, b"\n")
}

fn put_writes(out: &mut Vec<u8>, history: &History) -> Result<(), NoMemory>
    ensures { OnOk result (Adds out.old out.new
        (lines (history_entry (codes "write")) (means history.now).writes)) }
{
    for n in 0..history.writes() {
        put_entry(out, b"write", history.write_entry(n + 1))?;
    }
    Ok(())
}

fn put_reads(out: &mut Vec<u8>, history: &History) -> Result<(), NoMemory>
    ensures { OnOk result (Adds out.old out.new
        (lines (history_entry (codes "read")) (means history.now).reads)) }
{
    for n in 0..history.reads() {
        put_entry(out, b"read", history.read_entry(n + 1))?;
    }
    Ok(())
}

/// Whether no call acted on the bucket.
fn is_unused(history: &History) -> bool
    ensures { result ≡ (is_null (means history.now).writes && is_null (means history.now).reads) }
{
    history.writes() == 0 && history.reads() == 0
}

fn put_history(out: &mut Vec<u8>, bucket: u64, history: &History) -> Result<(), NoMemory>
    ensures { OnOk result (Adds out.old out.new (history_lines bucket (means history.now))) }
{
    if is_unused(history) {
        return Ok(());
    }
    put_head(out, bucket, history)?;
    put_rows(out, history.base().as_slice())?;
    put_writes(out, history)?;
    put_reads(out, history)
}

/// Appends the history of each bucket that has a write or a read.
pub fn put_histories(out: &mut Vec<u8>, state: &State) -> Result<(), NoMemory>
    requires { IsSized state.now }
    ensures { OnOk result (Adds out.old out.new
        (flat_map
        (λ b. history_lines b ((plain state.now).bucket b).history)
        (numbers_to (plain state.now).config.bucket_count))) }
{
    for index in 0..state.config.bucket_count {
        let Some(bucket) = BucketId::new(index + 1) else {
            unreachable!()
        };
        put_history(out, u64::from(index) + 1, state.history(bucket))?;
    }
    Ok(())
}
