//! The line of a file that could not be read.

ghost use Rattle.std.specs.Prelude.{◌≡◌, IfOk};
ghost use Rattle.vs_ending.specs.Lines.{read_line};

use std::alloc::Global;
use vs_base::NoMemory;
use vs_text::put_number;

/// The line of an input whose file could not be read. An input is named by the place of its file among the words after the
/// command, from 1.
pub fn read_line(alloc: Global, input: u64) -> Result<Vec<u8>, NoMemory>
    ensures { IfOk result (λ line. line.items ≡ read_line input) }
{
    let mut line = Vec::new(alloc);
    line.extend_from_slice(b"vshard: read input ")?;
    put_number(&mut line, input)?;
    line.push(b'\n')?;
    Ok(line)
}
