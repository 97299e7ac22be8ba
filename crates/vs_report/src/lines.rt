//! Lines of clients and operators.

ghost use Rattle.std.specs.Prelude.{◌++◌, codes, OnOk};
ghost use Rattle.vs_machine.specs.Report.{number, numbered_line};
ghost use Rattle.vs_report.specs.Adds.{Adds};

use crate::words::{put_number, put_text};
use vs_base::NoMemory;

/// Appends how a line begins: whose it is, and the number of the call or command.
pub fn put_numbers(out: &mut Vec<u8>, kind: &[u8], who: u64, n: u64) -> Result<(), NoMemory>
    ensures { OnOk result (Adds out.old out.new (kind.now ++ number who ++ number n)) }
{
    put_text(out, kind)?;
    put_number(out, who)?;
    put_number(out, n)
}

/// Appends the line of a call or a command that isn't answered yet.
pub fn put_open(out: &mut Vec<u8>, kind: &[u8], who: u64, n: u64) -> Result<(), NoMemory>
    ensures { OnOk result (Adds out.old out.new (numbered_line kind.now who n (codes "open") ++ codes "\n")) }
{
    put_numbers(out, kind, who, n)?;
    put_text(out, b" open\n")
}
