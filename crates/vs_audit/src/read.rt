//! Reading a report.

ghost use Rattle.std.specs.Prelude.{◌≤◌, IfOk};
ghost use Rattle.vs_audit.specs.Account.{account};
ghost use Rattle.vs_audit.specs.Given.{MayGive, MayRead, MayPass};
ghost use Rattle.vs_audit.specs.Legal.{IsRising};
ghost use Rattle.vs_audit.specs.Report.{line_at, set_at, sets_at, bucket_at, buckets_at, report_of};
ghost use Rattle.vs_audit.specs.ReportLines.{cluster_line, end_line};

use crate::account::Account;
use crate::audit_text::AuditText;
use crate::call_lines::{calls, commands};
use crate::heads::Size;
use crate::histories::histories;
use crate::line_fault::told;
use crate::line_kinds::{bucket_line, cluster_line, end_line, set_line};
use crate::lines::Lines;
use std::alloc::Global;

fn cluster(lines: &mut Lines) -> Result<Size, AuditText>
    ensures { MayRead (λ x. x) result lines.new (line_at (λ _ words. cluster_line words) lines.old) }
{
    let mut line = lines.next()?;
    let read = cluster_line(&mut line.words);
    told(line.number, read)
}

fn set(lines: &mut Lines, number: u32) -> Result<(), AuditText>
    ensures { MayRead (λ x. x) result lines.new (set_at number lines.old) }
{
    let mut line = lines.next()?;
    let read = set_line(&mut line.words, number);
    told(line.number, read)
}

/// Passes over the lines of so many sets.
fn sets(lines: &mut Lines, count: u32) -> Result<(), AuditText>
    requires { count ≤ 32 }
    ensures { MayPass result lines.new (sets_at count lines.old) }
{
    for n in 0..count {
        set(lines, n + 1)?;
    }
    Ok(())
}

fn bucket(lines: &mut Lines, sets: u32, number: u32) -> Result<(), AuditText>
    requires { sets ≤ 32 }
    ensures { MayRead (λ x. x) result lines.new (bucket_at sets number lines.old) }
{
    let mut line = lines.next()?;
    let read = bucket_line(&mut line.words, sets, number);
    told(line.number, read)
}

/// Passes over the lines of so many buckets.
fn buckets(lines: &mut Lines, size: Size) -> Result<(), AuditText>
    requires sets { size.sets ≤ 32 }
    requires buckets { size.buckets ≤ 30000 }
    ensures { MayPass result lines.new (buckets_at size.sets size.buckets lines.old) }
{
    for n in 0..size.buckets {
        bucket(lines, size.sets, n + 1)?;
    }
    Ok(())
}

fn end(lines: &mut Lines) -> Result<(), AuditText>
    ensures { MayRead (λ x. x) result lines.new (line_at (λ _ words. end_line words) lines.old) }
{
    let mut line = lines.next()?;
    let read = end_line(&mut line.words);
    told(line.number, read)
}

/// The account that a report gives, whose form is that of docs/FORMATS.md.
///
/// It reads the text alone, and takes nothing of it on trust but the numbers of its lines: each
/// line is in the form of its place, the rows of a history rise by key, the histories by bucket,
/// the calls by client and number, and nothing stands behind the last line. The lines of sets,
/// buckets and commands are read and dropped.
pub fn read_report(alloc: Global, text: &[u8]) -> Result<Account, AuditText>
    // What the text gives, or its first line that isn't in the grammar.
    ensures account { MayGive account result (report_of text.now) }

    // So the account can be audited.
    ensures rising { IfOk result (λ a. IsRising (account a).calls) }
{
    let mut lines = Lines::of(text);
    let size = cluster(&mut lines)?;
    sets(&mut lines, size.sets)?;
    buckets(&mut lines, size)?;
    let histories = histories(alloc, &mut lines, size.buckets)?;
    let calls = calls(alloc, &mut lines, size.sets)?;
    commands(&mut lines, size.sets)?;
    end(&mut lines)?;
    lines.end()?;
    Ok(Account {
        buckets: size.buckets,
        histories,
        calls,
    })
}
