//! The operations of a call, from the words of its line.

ghost use Rattle.vs_script.specs.Given.{MayGive, MayTake};
ghost use Rattle.vs_script.specs.Operations.{op_of, ops_at};

use crate::fault::ScriptKind;
use crate::line_fault::LineFault;
use crate::op_word::OpWord;
use crate::words::Words;
use std::alloc::Global;
use vs_base::Mode;
use vs_rows::{Op, Ops};

/// The most rows that a scan of a script asks for.
const LONGEST_SCAN: u32 = 100;

fn get(alloc: Global, words: &mut Words) -> Result<Op, LineFault>
    ensures { MayTake (λ x. x) result words.new (op_of OpWord.Get words.old) }
{
    let key = words.key(alloc)?;
    Ok(Op::Get(key))
}

fn put(alloc: Global, words: &mut Words) -> Result<Op, LineFault>
    ensures { MayTake (λ x. x) result words.new (op_of OpWord.Put words.old) }
{
    let key = words.key(alloc)?;
    let value = words.value(alloc)?;
    Ok(Op::Put(key, value))
}

fn insert(alloc: Global, words: &mut Words) -> Result<Op, LineFault>
    ensures { MayTake (λ x. x) result words.new (op_of OpWord.Insert words.old) }
{
    let key = words.key(alloc)?;
    let value = words.value(alloc)?;
    Ok(Op::Insert(key, value))
}

fn delete(alloc: Global, words: &mut Words) -> Result<Op, LineFault>
    ensures { MayTake (λ x. x) result words.new (op_of OpWord.Delete words.old) }
{
    let key = words.key(alloc)?;
    Ok(Op::Delete(key))
}

fn swap(alloc: Global, words: &mut Words) -> Result<Op, LineFault>
    ensures { MayTake (λ x. x) result words.new (op_of OpWord.Swap words.old) }
{
    let key = words.key(alloc)?;
    let old = words.value(alloc)?;
    let new = words.value(alloc)?;
    Ok(Op::Swap(key, old, new))
}

fn scan(alloc: Global, words: &mut Words) -> Result<Op, LineFault>
    ensures { MayTake (λ x. x) result words.new (op_of OpWord.Scan words.old) }
{
    let key = words.key(alloc)?;
    let rows = words.number_to(LONGEST_SCAN, ScriptKind::BadScan)?;
    Ok(Op::Scan(key, rows as u8))
}

/// The operation of this word, whose keys, values and numbers are the next words.
fn operation(alloc: Global, name: OpWord, words: &mut Words) -> Result<Op, LineFault>
    ensures { MayTake (λ x. x) result words.new (op_of name words.old) }
{
    match name {
        OpWord::Get => get(alloc, words),
        OpWord::Put => put(alloc, words),
        OpWord::Insert => insert(alloc, words),
        OpWord::Delete => delete(alloc, words),
        OpWord::Swap => swap(alloc, words),
        OpWord::Count => Ok(Op::Count),
        OpWord::Scan => scan(alloc, words),
    }
}

/// The operations of a call of this mode, which are all the words that are left.
pub(crate) fn ops(alloc: Global, mode: Mode, words: &mut Words) -> Result<Ops, LineFault>
    ensures { MayGive (λ ops. ops.items) result (ops_at mode 16 words.old) }
{
    let name = OpWord::read(words, mode)?;
    let op = operation(alloc, name, words)?;
    let mut ops = Ops::one(alloc, op)?;
    while let Some(mark) = words.next() {
        if mark != b";".as_slice() {
            return Err(LineFault::Bad(ScriptKind::BadWord));
        }
        let name = OpWord::read(words, mode)?;
        if ops.len() == Ops::MAX {
            return Err(LineFault::Bad(ScriptKind::TooManyOps));
        }
        let op = operation(alloc, name, words)?;
        ops.reserve()?;
        ops.push(op);
    }
    Ok(ops)
}
