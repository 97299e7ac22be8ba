//! The operations of an entry, from the words of its line.

ghost use Rattle.std.specs.Prelude.{◌≡◌, codes};
ghost use Rattle.std.specs.Str.{bytes_eq};
ghost use Rattle.vs_audit.specs.Given.{MayTake};
ghost use Rattle.vs_audit.specs.Operations.{op_at, op_of, ops_at};

use crate::line_fault::LineFault;
use crate::op_word::OpWord;
use crate::words::Words;
use std::alloc::Global;
use vs_rows::{Op, Ops};

/// The most rows that a scan asks for.
const LONGEST_SCAN: u64 = 100;

fn get(alloc: Global, words: &mut Words) -> Result<Op, LineFault>
    ensures { MayTake (λ x. x) result words.new (op_of OpWord.Get words.old) }
{
    let key = words.key(alloc)?;
    Ok(Op::Get(key))
}

fn put(alloc: Global, words: &mut Words) -> Result<Op, LineFault>
    ensures { MayTake (λ x. x) result words.new (op_of OpWord.Put words.old) }
{
    let key = words.key(alloc)?;
    let value = words.value(alloc)?;
    Ok(Op::Put(key, value))
}

fn insert(alloc: Global, words: &mut Words) -> Result<Op, LineFault>
    ensures { MayTake (λ x. x) result words.new (op_of OpWord.Insert words.old) }
{
    let key = words.key(alloc)?;
    let value = words.value(alloc)?;
    Ok(Op::Insert(key, value))
}

fn delete(alloc: Global, words: &mut Words) -> Result<Op, LineFault>
    ensures { MayTake (λ x. x) result words.new (op_of OpWord.Delete words.old) }
{
    let key = words.key(alloc)?;
    Ok(Op::Delete(key))
}

fn swap(alloc: Global, words: &mut Words) -> Result<Op, LineFault>
    ensures { MayTake (λ x. x) result words.new (op_of OpWord.Swap words.old) }
{
    let key = words.key(alloc)?;
    let old = words.value(alloc)?;
    let new = words.value(alloc)?;
    Ok(Op::Swap(key, old, new))
}

fn scan(alloc: Global, words: &mut Words) -> Result<Op, LineFault>
    ensures { MayTake (λ x. x) result words.new (op_of OpWord.Scan words.old) }
{
    let key = words.key(alloc)?;
    let rows = words.number(1, LONGEST_SCAN)?;
    Ok(Op::Scan(key, rows as u8))
}

/// The operation of this word, whose keys, values and numbers are the next words.
fn of_word(alloc: Global, name: OpWord, words: &mut Words) -> Result<Op, LineFault>
    ensures { MayTake (λ x. x) result words.new (op_of name words.old) }
{
    match name {
        OpWord::Get => get(alloc, words),
        OpWord::Put => put(alloc, words),
        OpWord::Insert => insert(alloc, words),
        OpWord::Delete => delete(alloc, words),
        OpWord::Swap => swap(alloc, words),
        OpWord::Count => Ok(Op::Count),
        OpWord::Scan => scan(alloc, words),
    }
}

fn operation(alloc: Global, words: &mut Words) -> Result<Op, LineFault>
    ensures { MayTake (λ x. x) result words.new (op_at words.old) }
{
    let word = words.word()?;
    match OpWord::of(word) {
        Some(name) => of_word(alloc, name, words),
        None => Err(LineFault::Bad),
    }
}

/// Whether another operation follows.
fn is_next(mark: &[u8]) -> bool
    ensures { result ≡ bytes_eq mark.now (codes ";") }
{
    mark == b";".as_slice()
}

/// Whether the operations end.
fn is_last(mark: &[u8]) -> bool
    ensures { result ≡ bytes_eq mark.now (codes "=>") }
{
    mark == b"=>".as_slice()
}

/// The operations up to the word `=>`, which is read too.
pub(crate) fn ops(alloc: Global, words: &mut Words) -> Result<Ops, LineFault>
    ensures { MayTake (λ ops. ops.items) result words.new (ops_at 16 words.old) }
{
    let op = operation(alloc, words)?;
    let mut ops = Ops::one(alloc, op)?;
    while let Some(mark) = words.next() {
        if is_last(mark) {
            return Ok(ops);
        }
        if !is_next(mark) {
            return Err(LineFault::Bad);
        }
        if ops.len() == Ops::MAX {
            return Err(LineFault::Bad);
        }
        let next = operation(alloc, words)?;
        ops.reserve()?;
        ops.push(next);
    }
    Err(LineFault::Bad)
}
