//! The line that is logged with a fault.

ghost use Rattle.std.specs.Prelude.{◌≡◌, IfOk};
ghost use Rattle.vs_inputs.specs.FaultLine as inputs;
ghost use Rattle.vs_plan.specs.Endings.{IsToldOr};
ghost use Rattle.vs_plan.specs.Lines.{counts_line, line_kind};

use crate::fault::{CountsFault, LineKind, PlanFault};
use std::alloc::Global;
use vs_base::NoMemory;
use vs_ending::{log_line, log_memory, log_write, read_line};
use vs_host::Host;
use vs_inputs::{InputFault, fault_buffer, put_fault};
use vs_text::put_number;

fn line_kind(kind: LineKind) -> &'static [u8]
    ensures { result.now ≡ line_kind kind }
{
    match kind {
        LineKind::BadByte => b"BadByte",
        LineKind::LongWord => b"LongWord",
        LineKind::BadCounts => b"BadCounts",
    }
}

/// The line of a fault of the counts.
fn counts_line(alloc: Global, fault: CountsFault) -> Result<Vec<u8>, NoMemory>
    ensures { IfOk result (λ line. line.items ≡ counts_line fault) }
{
    let mut line = Vec::new(alloc);
    match fault {
        CountsFault::Line(number, kind) => {
            line.extend_from_slice(b"vshard: input 2 line ")?;
            put_number(&mut line, u64::from(number))?;
            line.extend_from_slice(b": ")?;
            line.extend_from_slice(line_kind(kind))?;
            line.push(b'\n')?;
        }
        CountsFault::MissingSet => line.extend_from_slice(b"vshard: input 2: MissingSet\n")?,
        CountsFault::TooMany => line.extend_from_slice(b"vshard: input 2: TooMany\n")?,
    }
    Ok(line)
}

/// The line of a fault of an input's file.
fn input_line(alloc: Global, fault: InputFault) -> Result<Vec<u8>, NoMemory>
    ensures { IfOk result (λ line. line.items ≡ inputs.fault_line fault) }
{
    let mut line = Vec::new(alloc);
    let mut buffer = fault_buffer(alloc)?;
    put_fault(&mut buffer, fault);
    line.extend_from_slice(buffer.as_slice())?;
    Ok(line)
}

/// Logs the line of a fault, and answers the status. Where there is no memory for the line, that is told in its place.
pub fn log_fault<H: Host>(alloc: Global, host: &mut H, fault: &PlanFault) -> u8
    ensures { IsToldOr fault.now result (H.told host.old) (H.told host.new) }
{
    match fault {
        PlanFault::Text(input, text) => {
            let line = input_line(alloc, InputFault::Text(*input, *text));
            log_line(host, line, 3)
        }
        PlanFault::Counts(counts) => {
            let line = counts_line(alloc, *counts);
            log_line(host, line, 3)
        }
        PlanFault::Read(input) => {
            let line = read_line(alloc, *input);
            log_line(host, line, 5)
        }
        PlanFault::Write => log_write(host),
        PlanFault::NoMemory => log_memory(host),
    }
}
