//! The line that is logged with a fault.

ghost use Rattle.std.specs.Prelude.{◌≡◌, IfOk};
ghost use Rattle.vs_inputs.specs.FaultLine as inputs;
ghost use Rattle.vs_reads.specs.Endings.{IsToldOr};
ghost use Rattle.vs_reads.specs.Lines.{not_reads_line};

use crate::fault::ReadsFault;
use std::alloc::Global;
use vs_base::NoMemory;
use vs_ending::{log_line, log_memory, log_write, read_line};
use vs_host::Host;
use vs_inputs::{InputFault, fault_buffer, put_fault};
use vs_text::put_number;

/// The line of a script that has other calls than it should.
fn not_reads_line(alloc: Global, input: u64) -> Result<Vec<u8>, NoMemory>
    ensures { IfOk result (λ line. line.items ≡ not_reads_line input) }
{
    let mut line = Vec::new(alloc);
    line.extend_from_slice(b"vshard: input ")?;
    put_number(&mut line, input)?;
    line.extend_from_slice(b": NotReads\n")?;
    Ok(line)
}

/// The line of a fault of an input's file.
fn input_line(alloc: Global, fault: InputFault) -> Result<Vec<u8>, NoMemory>
    ensures { IfOk result (λ line. line.items ≡ inputs.fault_line fault) }
{
    let mut line = Vec::new(alloc);
    let mut buffer = fault_buffer(alloc)?;
    put_fault(&mut buffer, fault);
    line.extend_from_slice(buffer.as_slice())?;
    Ok(line)
}

/// Logs the line of a fault, and answers the status. Where there is no memory for the line, that is told in its place.
pub fn log_fault<H: Host>(alloc: Global, host: &mut H, fault: ReadsFault) -> u8
    ensures { IsToldOr fault result (H.told host.old) (H.told host.new) }
{
    match fault {
        ReadsFault::Text(input, text) => {
            let line = input_line(alloc, InputFault::Text(input, text));
            log_line(host, line, 3)
        }
        ReadsFault::NotReads(input) => {
            let line = not_reads_line(alloc, input);
            log_line(host, line, 3)
        }
        ReadsFault::Read(input) => {
            let line = read_line(alloc, input);
            log_line(host, line, 5)
        }
        ReadsFault::Write => log_write(host),
        ReadsFault::NoMemory => log_memory(host),
    }
}
