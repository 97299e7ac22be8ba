//! Changes of rows.

ghost use Rattle.std.specs.Prelude.{◌≡◌, ◌≤◌, ◌+◌, ◌∷◌, [], ◌++◌, List, ℕ, Option, length, slice_get, OnOk, IfOk, IsTrue, ◌↔◌};
ghost use Rattle.std.specs.Option.{option_copied};
ghost use Rattle.vs_rows.specs.RowMap.{RowMap, IsRising, value_of};
ghost use Rattle.vs_rows.specs.Changes.{with_change, with_changes};
ghost use Rattle.vs_rows.specs.Operations.{answer_to, row_map_after};
ghost use Rattle.vs_rows.specs.Said.{said};

use crate::answer::Answer;
use crate::key::Key;
use crate::op::Op;
use crate::scan::scan;
use crate::sorted;
use crate::val::Val;
use std::alloc::Global;
use std::marker::Model;
use vs_base::NoMemory;

/// Changes of rows: keys, each with the value that it gets, or with none where its row goes. The
/// keys rise in byte order, so none stands twice. Contracts see the changes, and the number of
/// free places.
#[derive(Drop)]
pub struct Changes {
    changes: Vec<(Key, Option<Val>)>,
}

impl Model for Changes {
    ghost use Rattle.std.specs.Prelude.{List, ℕ, ◌-◌, Option, vec_len, vec_capacity};
    ghost use Rattle.vs_base.specs.Listed.{Listed};
    ghost use Rattle.vs_rows.specs.RowMap.{IsRising};

    ghost Value = { Listed (List ℕ × Option (List ℕ)) };

    ghost view = { λ c.
        record { items = c.changes.items; room = vec_capacity c.changes - vec_len c.changes } };

    ghost invariant = { λ c. IsRising c.changes.items };
}

impl Changes {
    /// No changes.
    pub fn new(alloc: Global) -> Changes
        ensures { result.items ≡ [] }
    {
        Changes {
            changes: Vec::new(alloc),
        }
    }

    pub fn len(&self) -> usize
        ensures value { result ≡ length self.now.items }
        ensures rising { IsRising self.now.items }
    {
        self.changes.len()
    }

    pub fn is_empty(&self) -> bool
        ensures { IsTrue result ↔ (self.now.items ≡ []) }
    {
        self.changes.is_empty()
    }

    /// The change of this index, counted from 0.
    pub fn get(&self, i: usize) -> Option<&(Key, Option<Val>)>
        ensures { option_copied result ≡ slice_get self.now.items i }
    {
        self.changes.get(i)
    }

    pub fn as_slice(&self) -> &[(Key, Option<Val>)]
        ensures { result.now ≡ self.now.items }
    {
        self.changes.as_slice()
    }

    /// The changes, without the room for more.
    pub fn into_vec(self) -> Vec<(Key, Option<Val>)>
        ensures items { result.items ≡ self.items }
        ensures rising { IsRising self.items }
    {
        self.changes
    }

    /// Makes room for one change.
    pub fn reserve(&mut self) -> Result<(), NoMemory>
        ensures room { OnOk result (1 ≤ self.new.room) }
        ensures items { self.new.items ≡ self.old.items }
        ensures kept { self.old.room ≤ self.new.room }
    {
        self.changes.reserve(1)?;
        Ok(())
    }

    /// Adds a change at the end. It takes no memory.
    pub fn push(&mut self, change: (Key, Option<Val>))
        requires room { 1 ≤ self.old.room }
        requires rising { IsRising (self.old.items ++ change ∷ []) }
        ensures items { self.new.items ≡ self.old.items ++ change ∷ [] }
        ensures room { self.old.room ≤ self.new.room + 1 }
    {
        self.changes.push(change).unwrap();
    }

    pub fn try_clone(&self) -> Result<Changes, NoMemory>
        ensures { IfOk result (λ changes. changes.items ≡ self.now.items) }
    {
        let changes = copy_changes(*self.changes.allocator(), &self.changes)?;
        Ok(Changes { changes })
    }

    /// Sets the change of a key, in place of the one that it had.
    fn set(&mut self, key: &Key, value: Option<&Val>) -> Result<(), NoMemory>
        ensures { OnOk result ((m : RowMap) → IsRising m →
            with_changes m self.new.items
            ≡ with_change (with_changes m self.old.items) (key.now, option_copied value.entry)) }
    {
        let key = key.try_clone()?;
        let value = copy_value(value)?;
        self.changes.reserve(1)?;
        sorted::put(&mut self.changes, key, value);
        Ok(())
    }

    /// The value of a key in rows with these changes.
    fn value<'a>(&'a self, rows: &'a [(Key, Val)], key: &Key) -> Option<&'a Val>
        requires { IsRising rows.now }
        ensures { option_copied result ≡ value_of (with_changes rows.now self.now.items) key.now }
    {
        match sorted::value(&self.changes, key) {
            Some(change) => change.as_ref(),
            None => sorted::value(rows, key),
        }
    }

    /// The number of rows with these changes.
    fn count(&self, rows: &[(Key, Val)]) -> u64
        requires { IsRising rows.now }
        ensures { result ≡ length (with_changes rows.now self.now.items) }
    {
        let mut count = rows.len() as u64;
        for (key, value) in &self.changes {
            let there = sorted::value(rows, key).is_some();
            count = count + u64::from(value.is_some()) - u64::from(there);
        }
        count
    }

    /// Answers an operation on rows with these changes, and adds the change that it makes.
    #[tactic(auto, using(crate::proofs::Values::without_absent))]
    pub(crate) fn answer(&mut self, rows: &[(Key, Val)], op: &Op) -> Result<Answer, NoMemory>
        requires { IsRising rows.now }
        ensures answer { IfOk result (λ answer.
            said answer ≡ answer_to (with_changes rows.now self.old.items) op.now) }
        ensures changes { OnOk result (with_changes rows.now self.new.items
            ≡ row_map_after (with_changes rows.now self.old.items) op.now) }
    {
        match op {
            Op::Get(key) => match self.value(rows, key) {
                Some(value) => Ok(Answer::Value(value.try_clone()?)),
                None => Ok(Answer::NoValue),
            },
            Op::Put(key, value) => {
                self.set(key, Some(value))?;
                Ok(Answer::Done)
            }
            Op::Insert(key, value) => match self.value(rows, key) {
                Some(_) => Ok(Answer::Exists),
                None => {
                    self.set(key, Some(value))?;
                    Ok(Answer::Done)
                }
            },
            Op::Delete(key) => match self.value(rows, key) {
                Some(_) => {
                    self.set(key, None)?;
                    Ok(Answer::Done)
                }
                None => Ok(Answer::NoValue),
            },
            Op::Swap(key, old, new) => match self.value(rows, key) {
                Some(value) if *value == *old => {
                    self.set(key, Some(new))?;
                    Ok(Answer::Done)
                }
                Some(_) => Ok(Answer::Differs),
                None => Ok(Answer::NoValue),
            },
            Op::Count => Ok(Answer::Number(self.count(rows))),
            Op::Scan(key, n) => {
                let alloc = *self.changes.allocator();
                Ok(Answer::Pairs(scan(alloc, rows, &self.changes, key, usize::from(*n))?))
            }
        }
    }
}

/// A list of equal changes.
fn copy_changes(
    alloc: Global,
    changes: &[(Key, Option<Val>)],
) -> Result<Vec<(Key, Option<Val>)>, NoMemory>
    ensures { IfOk result (λ copied. copied.items ≡ changes.now) }
{
    let mut copied = Vec::with_capacity(alloc, changes.len())?;
    for (key, value) in changes {
        copied.push((key.try_clone()?, copy_value(value.as_ref())?))?;
    }
    Ok(copied)
}

fn copy_value(value: Option<&Val>) -> Result<Option<Val>, NoMemory>
    ensures { IfOk result (λ copied. copied ≡ option_copied value.entry) }
{
    match value {
        Some(value) => Ok(Some(value.try_clone()?)),
        None => Ok(None),
    }
}
