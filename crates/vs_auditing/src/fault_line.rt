//! The line that is logged with a fault.

ghost use Rattle.std.specs.Prelude.{◌≡◌, IfOk};
ghost use Rattle.vs_auditing.specs.Endings.{IsToldOr};
ghost use Rattle.vs_auditing.specs.Lines.{bad_line, illegal_line, kind_name};

use crate::fault::ReportFault;
use std::alloc::Global;
use vs_audit::Illegal;
use vs_base::NoMemory;
use vs_ending::{log_bytes, log_line, log_memory, log_write, read_line};
use vs_host::Host;
use vs_text::put_number;

const LONG: &[u8] = b"vshard: input 1: TooLong\n";

fn kind_name(kind: Illegal) -> &'static [u8]
    ensures { result.now ≡ kind_name kind }
{
    match kind {
        Illegal::DoubleCall => b"DoubleCall",
        Illegal::WrongPlace => b"WrongPlace",
        Illegal::WrongAnswers => b"WrongAnswers",
        Illegal::NoEntry => b"NoEntry",
        Illegal::WrongOrder => b"WrongOrder",
    }
}

/// The line of a report that isn't one.
fn bad_line(alloc: Global, number: u32) -> Result<Vec<u8>, NoMemory>
    ensures { IfOk result (λ line. line.items ≡ bad_line number) }
{
    let mut line = Vec::new(alloc);
    line.extend_from_slice(b"vshard: input 1 line ")?;
    put_number(&mut line, u64::from(number))?;
    line.extend_from_slice(b": BadReport\n")?;
    Ok(line)
}

/// The line of a report that isn't legal.
fn illegal_line(alloc: Global, number: u32, kind: Illegal) -> Result<Vec<u8>, NoMemory>
    ensures { IfOk result (λ line. line.items ≡ illegal_line number kind) }
{
    let mut line = Vec::new(alloc);
    line.extend_from_slice(b"vshard: audit line ")?;
    put_number(&mut line, u64::from(number))?;
    line.extend_from_slice(b": ")?;
    line.extend_from_slice(kind_name(kind))?;
    line.push(b'\n')?;
    Ok(line)
}

/// Logs that the file is longer than a text may be, and answers the status of that.
fn log_long<H: Host>(host: &mut H) -> u8
    ensures { IsToldOr ReportFault.TooLong result (H.told host.old) (H.told host.new) }
{
    log_bytes(host, LONG);
    3
}

/// Logs the line of a fault, and answers the status. Where there is no memory for the line, that is told in its place.
pub fn log_fault<H: Host>(alloc: Global, host: &mut H, fault: ReportFault) -> u8
    ensures { IsToldOr fault result (H.told host.old) (H.told host.new) }
{
    match fault {
        ReportFault::TooLong => log_long(host),
        ReportFault::BadReport(number) => {
            let line = bad_line(alloc, number);
            log_line(host, line, 3)
        }
        ReportFault::Read => {
            let line = read_line(alloc, 1);
            log_line(host, line, 5)
        }
        ReportFault::Write => log_write(host),
        ReportFault::Illegal(number, kind) => {
            let line = illegal_line(alloc, number, kind);
            log_line(host, line, 11)
        }
        ReportFault::NoMemory => log_memory(host),
    }
}
