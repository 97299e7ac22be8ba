//! The calls of a client.

ghost use Rattle.std.specs.Prelude.{◌≡◌, ◌↔◌, IfOk, IsTrue};
ghost use Rattle.vs_text.specs.Lines.{words_in};
ghost use Rattle.vs_script.specs.Calls.{call, calls};
ghost use Rattle.vs_script.specs.Given.{MayGive, Takes};
ghost use Rattle.vs_script.specs.Lines.{call_of, mode_at};

use crate::fault::ScriptKind;
use crate::line_fault::LineFault;
use crate::ops::ops;
use crate::words::Words;
use std::alloc::Global;
use vs_base::{BucketId, Items, Mode, NoMemory};
use vs_rows::Ops;

/// A call of a client: operations on one bucket.
#[derive(Drop)]
pub struct Call {
    pub mode: Mode,
    pub bucket: BucketId,
    pub ops: Ops,
}

/// A list of calls.
pub type Calls = Items<Call>;

/// A list of equal calls.
pub fn copy_calls(alloc: Global, given: &Calls) -> Result<Calls, NoMemory>
    ensures { IfOk result (λ copy. calls copy.items ≡ calls given.now.items) }
{
    let mut copy = Calls::new(alloc);
    copy.reserve_many(given.len())?;
    for call in given.as_slice() {
        copy.push(call.try_clone()?);
    }
    Ok(copy)
}

/// Whether two lists have equal calls, in the same order. It takes no memory.
pub(crate) fn same_calls(some: &Calls, others: &Calls) -> bool
    ensures { IsTrue result ↔ (calls some.now.items ≡ calls others.now.items) }
{
    for (i, call) in some.as_slice().iter().enumerate() {
        let Some(other) = others.get(i) else {
            return false;
        };
        if !call.equals(other) {
            return false;
        }
    }
    some.len() == others.len()
}

fn mode(words: &mut Words) -> Result<Mode, ScriptKind>
    ensures { Takes (λ x. x) result words.new (mode_at words.old) }
{
    let word = words.word()?;
    match word {
        b"ro" => Ok(Mode::Ro),
        b"rw" => Ok(Mode::Rw),
        _ => Err(ScriptKind::BadWord),
    }
}

impl Call {
    /// A call that equals this one.
    pub fn try_clone(&self) -> Result<Call, NoMemory>
        ensures { IfOk result (λ copy. call copy ≡ call self.now) }
    {
        let ops = self.ops.try_clone()?;
        Ok(Call {
            mode: self.mode,
            bucket: self.bucket,
            ops,
        })
    }

    /// Whether both have the same mode, bucket and operations. It takes no memory.
    pub fn equals(&self, other: &Call) -> bool
        ensures { IsTrue result ↔ (call self.now ≡ call other.now) }
    {
        self.mode == other.mode && self.bucket == other.bucket && self.ops.equals(&other.ops)
    }

    /// The call of a line, over this many buckets.
    pub(crate) fn read(alloc: Global, line: &[u8], buckets: u32) -> Result<Call, LineFault>
        ensures { MayGive call result (call_of buckets (words_in line.now)) }
    {
        let mut words = Words::of(line);
        let mode = mode(&mut words)?;
        let bucket = words.bucket(buckets)?;
        let ops = ops(alloc, mode, &mut words)?;
        Ok(Call { mode, bucket, ops })
    }
}
