//! The rows of a bucket.

ghost use Rattle.std.specs.Prelude.{◌≡◌, ◌≤◌, ◌<◌, ◌+◌, [], List, ℕ, length, take, drop, min, OnOk, OnErr, IfOk, IsTrue, ◌↔◌};
ghost use Rattle.std.specs.Option.{option_copied};
ghost use Rattle.vs_rows.specs.RowMap.{IsRising, rows_above, with_rows};
ghost use Rattle.vs_rows.specs.Changes.{with_changes};
ghost use Rattle.vs_rows.specs.Operations.{answers_to, rows_after};
ghost use Rattle.vs_rows.specs.Pages.{page_of};
ghost use Rattle.vs_rows.specs.Said.{said_all};

use crate::answer::Answers;
use crate::changes::Changes;
use crate::key::Key;
use crate::ops::Ops;
use crate::page::Page;
use crate::sorted;
use crate::staged::Staged;
use crate::val::Val;
use std::alloc::Global;
use std::marker::Model;
use vs_base::{Items, NoMemory};

/// The rows of a bucket: a map from keys to values in byte order of the keys, and room for more.
#[derive(Drop)]
pub struct Rows {
    rows: Vec<(Key, Val)>,
}

impl Model for Rows {
    ghost use Rattle.std.specs.Prelude.{List, ℕ, ◌-◌, vec_len, vec_capacity};
    ghost use Rattle.vs_base.specs.Listed.{Listed};
    ghost use Rattle.vs_rows.specs.RowMap.{IsRising};

    ghost Value = { Listed (List ℕ × List ℕ) };

    ghost view = { λ r.
        record { items = r.rows.items; room = vec_capacity r.rows - vec_len r.rows } };

    ghost invariant = { λ r. IsRising r.rows.items };
}

impl Rows {
    /// No rows.
    pub fn new(alloc: Global) -> Rows
        ensures { result.items ≡ [] }
    {
        Rows {
            rows: Vec::new(alloc),
        }
    }

    pub fn len(&self) -> usize
        ensures value { result ≡ length self.now.items }
        ensures rising { IsRising self.now.items }
    {
        self.rows.len()
    }

    pub fn is_empty(&self) -> bool
        ensures { IsTrue result ↔ (self.now.items ≡ []) }
    {
        self.rows.is_empty()
    }

    /// The rows, rising by key.
    pub fn as_slice(&self) -> &[(Key, Val)]
        ensures { result.now ≡ self.now.items }
    {
        self.rows.as_slice()
    }

    /// Whether there are rows above a key, or any rows where none is given.
    pub fn more(&self, after: Option<&Key>) -> bool
        ensures { IsTrue result
            ↔ (0 < length (rows_above self.now.items (option_copied after.entry))) }
    {
        !sorted::rows_above(&self.rows, after).is_empty()
    }

    /// Whether both have the same rows.
    pub fn equals(&self, other: &Rows) -> bool
        ensures { IsTrue result ↔ (self.now.items ≡ other.now.items) }
    {
        self.rows == other.rows
    }

    pub fn try_clone(&self) -> Result<Rows, NoMemory>
        ensures { IfOk result (λ rows. rows.items ≡ self.now.items) }
    {
        let rows = copy_pairs(*self.rows.allocator(), &self.rows)?;
        Ok(Rows { rows })
    }

    /// The first rows above a key, or from the first row on where none is given.
    pub fn page(&self, after: Option<&Key>, n: u16) -> Result<Page, NoMemory>
        requires least { 1 ≤ n }
        requires greatest { n ≤ 1000 }
        ensures { IfOk result (λ page.
            page.items ≡ page_of self.now.items (option_copied after.entry) n) }
    {
        let rows = sorted::rows_above(&self.rows, after);
        let n = rows.len().min(usize::from(n));
        Page::of(*self.rows.allocator(), &rows[..n])
    }

    /// Makes room for this many rows more.
    pub fn reserve(&mut self, n: u16) -> Result<(), NoMemory>
        ensures room { OnOk result (n ≤ self.new.room) }
        ensures items { self.new.items ≡ self.old.items }
        ensures kept { self.old.room ≤ self.new.room }
    {
        self.rows.reserve(usize::from(n))?;
        Ok(())
    }

    /// Sets the value of each key of a page. It takes no memory.
    pub fn put_page(&mut self, page: Page)
        requires { length page.items ≤ self.old.room }
        ensures items { self.new.items ≡ with_rows self.old.items page.items }
        ensures room { self.old.room ≤ self.new.room + length page.items }
    {
        for (key, value) in page.into_vec() {
            sorted::put(&mut self.rows, key, value);
        }
    }

    /// Applies operations one after the other. An answer such as `Exists` doesn't stop later ones.
    pub fn apply(&mut self, ops: &Ops) -> Result<Answers, NoMemory>
        ensures answers { IfOk result (λ answers.
            said_all answers.items ≡ answers_to self.old.items ops.now.items) }
        ensures rows { OnOk result (self.new.items ≡ rows_after self.old.items ops.now.items) }
        ensures err { OnErr result (self.new.items ≡ self.old.items) }
    {
        let Staged { changes, answers } = self.stage(ops)?;
        self.commit(changes);
        Ok(answers)
    }

    /// What operations answer, applied one after the other. The rows stay.
    pub fn answers(&self, ops: &Ops) -> Result<Answers, NoMemory>
        ensures { IfOk result (λ answers.
            said_all answers.items ≡ answers_to self.now.items ops.now.items) }
    {
        let alloc = *self.rows.allocator();
        let mut changes = Changes::new(alloc);
        let mut answers = Items::new(alloc);
        answers.reserve_many(ops.len())?;
        for op in ops.as_slice() {
            answers.push(changes.answer(&self.rows, op)?);
        }
        Ok(answers)
    }

    /// What operations, applied one after the other, would change and answer. The rows stay.
    /// Room is made for as many rows as there are changes.
    pub fn stage(&mut self, ops: &Ops) -> Result<Staged, NoMemory>
        ensures changes { IfOk result (λ staged.
            with_changes self.old.items staged.changes.items
            ≡ rows_after self.old.items ops.now.items) }
        ensures answers { IfOk result (λ staged.
            said_all staged.answers.items ≡ answers_to self.old.items ops.now.items) }
        ensures room { IfOk result (λ staged. length staged.changes.items ≤ self.new.room) }

        // At Ok and at Err.
        ensures same { self.new.items ≡ self.old.items }
        ensures kept { self.old.room ≤ self.new.room }
    {
        let alloc = *self.rows.allocator();
        let mut changes = Changes::new(alloc);
        let mut answers = Items::new(alloc);
        answers.reserve_many(ops.len())?;
        for op in ops.as_slice() {
            answers.push(changes.answer(&self.rows, op)?);
        }
        self.rows.reserve(changes.len())?;
        Ok(Staged { changes, answers })
    }

    /// Sets each key that has a value in the changes, and removes each that has none.
    /// It takes no memory.
    pub fn commit(&mut self, changes: Changes)
        requires { length changes.items ≤ self.old.room }
        ensures items { self.new.items ≡ with_changes self.old.items changes.items }
        ensures room { self.old.room ≤ self.new.room + length changes.items }
    {
        for (key, value) in changes.into_vec() {
            match value {
                Some(value) => sorted::put(&mut self.rows, key, value),
                None => sorted::remove(&mut self.rows, &key),
            }
        }
    }

    /// Removes this many rows from the first on, or all, and answers how many.
    pub fn wipe(&mut self, n: u16) -> u16
        ensures removed { result ≡ min n (length self.old.items) }
        ensures items { self.new.items ≡ drop n self.old.items }
        ensures room { self.old.room ≤ self.new.room }
    {
        let gone = self.rows.len().min(usize::from(n));
        drop(self.rows.drain(..gone));
        gone as u16
    }
}

/// A list of equal pairs.
fn copy_pairs(alloc: Global, pairs: &[(Key, Val)]) -> Result<Vec<(Key, Val)>, NoMemory>
    ensures { IfOk result (λ copied. copied.items ≡ pairs.now) }
{
    let mut copied = Vec::with_capacity(alloc, pairs.len())?;
    for (key, value) in pairs {
        copied.push((key.try_clone()?, value.try_clone()?))?;
    }
    Ok(copied)
}
