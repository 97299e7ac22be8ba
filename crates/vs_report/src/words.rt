//! Words and numbers of a line.

ghost use Rattle.std.specs.Prelude.{OnOk};
ghost use Rattle.vs_machine.specs.Report.{word, number};
ghost use Rattle.vs_report.specs.Adds.{Adds};

use vs_base::NoMemory;

/// Appends a text.
pub fn put_text(out: &mut Vec<u8>, text: &[u8]) -> Result<(), NoMemory>
    ensures { OnOk result (Adds out.old out.new text.now) }
{
    out.extend_from_slice(text)?;
    Ok(())
}

/// Appends a blank and a word.
pub fn put_word(out: &mut Vec<u8>, bytes: &[u8]) -> Result<(), NoMemory>
    ensures { OnOk result (Adds out.old out.new (word bytes.now)) }
{
    out.push(b' ')?;
    put_text(out, bytes)
}

/// Appends a blank and a number, in decimal digits.
pub fn put_number(out: &mut Vec<u8>, n: u64) -> Result<(), NoMemory>
    ensures { OnOk result (Adds out.old out.new (number n)) }
{
    out.push(b' ')?;
    vs_text::put_number(out, n)
}
