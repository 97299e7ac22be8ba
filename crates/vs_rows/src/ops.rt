//! The operations of a call.

ghost use Rattle.std.specs.Prelude.{◌≡◌, ◌≤◌, ◌<◌, ◌+◌, ◌∷◌, [], ◌++◌, length, slice_get, ◌↔◌, IsTrue, OnOk, IfOk};
ghost use Rattle.std.specs.Option.{option_copied};

use crate::op::Op;
use std::alloc::Global;
use std::marker::Model;
use vs_base::NoMemory;

/// The operations of a call, 1 to 16. Contracts see them, and the number of free places.
#[derive(Drop)]
pub struct Ops {
    ops: Vec<Op>,
}

impl Model for Ops {
    ghost use Rattle.std.specs.Prelude.{◌≤◌, ◌-◌, length, vec_len, vec_capacity};
    ghost use Rattle.vs_base.specs.Listed.{Listed};
    ghost use Rattle.vs_rows.specs.declared.op.Op.{Op};

    ghost Value = { Listed Op };

    ghost view = { λ o. record { items = o.ops.items; room = vec_capacity o.ops - vec_len o.ops } };

    ghost invariant = { λ o. (1 ≤ length o.ops.items) × (length o.ops.items ≤ 16) };
}

impl Ops {
    /// The greatest number of operations.
    pub const MAX: usize = 16;

    /// The list of one operation.
    pub fn one(alloc: Global, op: Op) -> Result<Ops, NoMemory>
        ensures { IfOk result (λ ops. ops.items ≡ op ∷ []) }
    {
        let mut ops = Vec::with_capacity(alloc, 1)?;
        ops.push(op)?;
        Ok(Ops { ops })
    }

    pub fn len(&self) -> usize
        ensures value { result ≡ length self.now.items }
        ensures least { 1 ≤ result }
        ensures greatest { result ≤ 16 }
    {
        self.ops.len()
    }

    /// The operation of this index, counted from 0.
    pub fn get(&self, i: usize) -> Option<&Op>
        ensures { option_copied result ≡ slice_get self.now.items i }
    {
        self.ops.get(i)
    }

    pub fn as_slice(&self) -> &[Op]
        ensures { result.now ≡ self.now.items }
    {
        self.ops.as_slice()
    }

    /// Makes room for one operation.
    pub fn reserve(&mut self) -> Result<(), NoMemory>
        ensures room { OnOk result (1 ≤ self.new.room) }
        ensures items { self.new.items ≡ self.old.items }
        ensures kept { self.old.room ≤ self.new.room }
    {
        self.ops.reserve(1)?;
        Ok(())
    }

    /// Adds an operation at the end. It takes no memory.
    pub fn push(&mut self, op: Op)
        requires room { 1 ≤ self.old.room }
        requires limit { length self.old.items < 16 }
        ensures items { self.new.items ≡ self.old.items ++ op ∷ [] }
        ensures room { self.old.room ≤ self.new.room + 1 }
    {
        self.ops.push(op).unwrap();
    }

    /// Whether both have the same operations, in the same order. It takes no memory.
    pub fn equals(&self, other: &Ops) -> bool
        ensures { IsTrue result ↔ (self.now.items ≡ other.now.items) }
    {
        self.ops == other.ops
    }

    pub fn try_clone(&self) -> Result<Ops, NoMemory>
        ensures { IfOk result (λ ops. ops.items ≡ self.now.items) }
    {
        let ops = copy_ops(*self.ops.allocator(), &self.ops)?;
        Ok(Ops { ops })
    }
}

/// A list of equal operations.
fn copy_ops(alloc: Global, ops: &[Op]) -> Result<Vec<Op>, NoMemory>
    ensures { IfOk result (λ copied. copied.items ≡ ops.now) }
{
    let mut copied = Vec::with_capacity(alloc, ops.len())?;
    for op in ops {
        copied.push(op.try_clone()?)?;
    }
    Ok(copied)
}
