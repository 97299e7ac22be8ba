//! Operations, as in a script.

ghost use Rattle.std.specs.Prelude.{◌++◌, codes, OnOk};
ghost use Rattle.vs_machine.specs.Report.{word, number, op_text, ops_text};
ghost use Rattle.vs_report.specs.Adds.{Adds};

use crate::words::{put_number, put_text, put_word};
use vs_base::NoMemory;
use vs_rows::{Key, Op};

/// Appends the name of an operation and its key.
fn put_keyed(out: &mut Vec<u8>, name: &[u8], key: &Key) -> Result<(), NoMemory>
    ensures { OnOk result (Adds out.old out.new (name.now ++ word key.now)) }
{
    put_text(out, name)?;
    put_word(out, key.as_bytes())
}

fn put_op(out: &mut Vec<u8>, op: &Op) -> Result<(), NoMemory>
    ensures { OnOk result (Adds out.old out.new (op_text op.now)) }
{
    match op {
        Op::Get(key) => put_keyed(out, b"get", key),
        Op::Put(key, value) => {
            put_keyed(out, b"put", key)?;
            put_word(out, value.as_bytes())
        }
        Op::Insert(key, value) => {
            put_keyed(out, b"insert", key)?;
            put_word(out, value.as_bytes())
        }
        Op::Delete(key) => put_keyed(out, b"delete", key),
        Op::Swap(key, old, new) => {
            put_keyed(out, b"swap", key)?;
            put_word(out, old.as_bytes())?;
            put_word(out, new.as_bytes())
        }
        Op::Count => put_text(out, b"count"),
        Op::Scan(key, n) => {
            put_keyed(out, b"scan", key)?;
            put_number(out, u64::from(*n))
        }
    }
}

/// Appends operations, with ` ; ` between them.
pub fn put_ops(out: &mut Vec<u8>, ops: &[Op]) -> Result<(), NoMemory>
    ensures { OnOk result (Adds out.old out.new (ops_text ops.now)) }
{
    if let [first, rest @ ..] = ops {
        put_op(out, first)?;
        for op in rest {
            put_text(out, b" ; ")?;
            put_op(out, op)?;
        }
    }
    Ok(())
}
