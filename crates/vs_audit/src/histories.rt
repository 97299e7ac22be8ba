//! The histories of a report.

ghost use Rattle.std.specs.Prelude.{ℕ, ◌≡◌, ◌≤◌, ◌∷◌, [], ◌++◌, OnOk, IfOk, true, map};
ghost use Rattle.vs_rows.specs.RowMap.{IsRising};
ghost use Rattle.vs_audit.specs.Account.{entry, entries, history};
ghost use Rattle.vs_audit.specs.Given.{MayRead};
ghost use Rattle.vs_audit.specs.Operations.{is_above};
ghost use Rattle.vs_audit.specs.Report.{row_at, rows_at, entry_at, entries_at, line_at, history_at, histories_at};
ghost use Rattle.vs_audit.specs.ReportLines.{history_line};

use crate::account::{AuditEntries, AuditEntry, AuditHistories, AuditHistory};
use crate::audit_text::AuditText;
use crate::heads::Head;
use crate::line_fault::told;
use crate::line_kinds::{entry_line, history_line, row_line};
use crate::lines::Lines;
use std::alloc::Global;
use vs_base::{BucketId, NoMemory};
use vs_rows::{Key, Page, Rows, Val};

/// A row above others, which rise.
fn row(alloc: Global, lines: &mut Lines, rows: &[(Key, Val)]) -> Result<(Key, Val), AuditText>
    requires { IsRising rows.now }
    ensures read { MayRead (λ x. x) result lines.new (row_at rows.now lines.old) }
    ensures above { IfOk result (λ row. is_above rows.now row.0 ≡ true) }
{
    let mut line = lines.next()?;
    let read = row_line(alloc, &mut line.words, rows);
    told(line.number, read)
}

/// Adds a row above all others.
fn add_row(alloc: Global, rows: &mut Rows, row: (Key, Val)) -> Result<(), NoMemory>
    requires { is_above rows.old.items row.0 ≡ true }
    ensures { OnOk result (rows.new.items ≡ rows.old.items ++ row ∷ []) }
{
    let mut page = Page::new(alloc);
    page.reserve()?;
    page.push(row);
    rows.reserve(1)?;
    rows.put_page(page);
    Ok(())
}

/// So many rows, by rising key.
fn rows(alloc: Global, lines: &mut Lines, count: u64) -> Result<Rows, AuditText>
    ensures { MayRead (λ rows. rows.items) result lines.new (rows_at count lines.old) }
{
    let mut rows = Rows::new(alloc);
    for n in 0..count {
        let row = row(alloc, lines, rows.as_slice())?;
        add_row(alloc, &mut rows, row)?;
    }
    Ok(rows)
}

fn entry(alloc: Global, lines: &mut Lines, name: &[u8]) -> Result<AuditEntry, AuditText>
    ensures { (n : ℕ) → MayRead entry result lines.new (entry_at name.now n lines.old) }
{
    let mut line = lines.next()?;
    let number = line.number;
    told(number, entry_line(alloc, &mut line.words, name, number))
}

/// So many writes, or reads.
fn entries(
    alloc: Global,
    lines: &mut Lines,
    name: &[u8],
    count: u64,
) -> Result<AuditEntries, AuditText>
    ensures { MayRead (λ items. entries items.items) result lines.new (entries_at name.now count lines.old) }
{
    let mut entries = AuditEntries::new(alloc);
    for n in 0..count {
        let entry = entry(alloc, lines, name)?;
        entries.reserve()?;
        entries.push(entry);
    }
    Ok(entries)
}

/// The first line of a history, of a bucket above the last.
fn head(lines: &mut Lines, buckets: u32, last: u32) -> Result<Head, AuditText>
    requires { buckets ≤ 30000 }
    ensures { MayRead (λ x. x) result lines.new (line_at (λ _ words. history_line buckets last words) lines.old) }
{
    let mut line = lines.next()?;
    let read = history_line(&mut line.words, buckets, last);
    told(line.number, read)
}

/// A history of one of so many buckets, above the last.
fn history(
    alloc: Global,
    lines: &mut Lines,
    buckets: u32,
    last: u32,
) -> Result<AuditHistory, AuditText>
    requires { buckets ≤ 30000 }
    ensures { MayRead history result lines.new (history_at buckets last lines.old) }
{
    let head = head(lines, buckets, last)?;
    let base = rows(alloc, lines, head.rows)?;
    let writes = entries(alloc, lines, b"write", head.writes)?;
    let reads = entries(alloc, lines, b"read", head.reads)?;
    let Some(bucket) = BucketId::new(head.bucket) else {
        unreachable!();
    };
    Ok(AuditHistory {
        bucket,
        base,
        writes,
        reads,
    })
}

/// The histories, by rising bucket.
pub(crate) fn histories(
    alloc: Global,
    lines: &mut Lines,
    buckets: u32,
) -> Result<AuditHistories, AuditText>
    requires { buckets ≤ 30000 }
    ensures { MayRead (λ hs. map history hs.items) result lines.new (histories_at buckets lines.old) }
{
    let mut histories = AuditHistories::new(alloc);
    let mut last = 0;
    for n in 0..buckets {
        if !lines.begin(b"history") {
            return Ok(histories);
        }
        let history = history(alloc, lines, buckets, last)?;
        last = history.bucket.get();
        histories.reserve()?;
        histories.push(history);
    }
    Ok(histories)
}
