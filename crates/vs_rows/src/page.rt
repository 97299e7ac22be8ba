//! Pages of rows.

ghost use Rattle.std.specs.Prelude.{◌≡◌, ◌≤◌, ◌<◌, ◌+◌, ◌∷◌, [], ◌++◌, List, ℕ, length, slice_get, OnOk, IfOk, IsTrue, ◌↔◌};
ghost use Rattle.std.specs.Option.{option_copied};
ghost use Rattle.vs_rows.specs.Pages.{IsPage};

use crate::key::Key;
use crate::val::Val;
use std::alloc::Global;
use std::marker::Model;
use vs_base::{Items, NoMemory};

/// Pairs of a key and a value that rise by key in byte order, at most 1,000. Contracts see them,
/// and the number of free places.
#[derive(Drop)]
pub struct Page {
    pairs: Items<(Key, Val)>,
}

impl Model for Page {
    ghost use Rattle.std.specs.Prelude.{List, ℕ};
    ghost use Rattle.vs_base.specs.Listed.{Listed};
    ghost use Rattle.vs_rows.specs.Pages.{IsPage};

    ghost Value = { Listed (List ℕ × List ℕ) };

    ghost view = { λ p. p.pairs };

    ghost invariant = { λ p. IsPage p.pairs.items };
}

impl Page {
    /// The greatest number of pairs.
    pub const MAX: usize = 1_000;

    /// The empty page.
    pub fn new(alloc: Global) -> Page
        ensures { result.items ≡ [] }
    {
        Page {
            pairs: Items::new(alloc),
        }
    }

    /// A page of equal pairs.
    pub(crate) fn of(alloc: Global, pairs: &[(Key, Val)]) -> Result<Page, NoMemory>
        requires { IsPage pairs.now }
        ensures { IfOk result (λ p. p.items ≡ pairs.now) }
    {
        let mut copied = Items::new(alloc);
        copied.reserve_many(pairs.len())?;
        for (key, value) in pairs {
            copied.push((key.try_clone()?, value.try_clone()?));
        }
        Ok(Page { pairs: copied })
    }

    pub(crate) fn from_items(pairs: Items<(Key, Val)>) -> Page
        requires { IsPage pairs.items }
        ensures { result.items ≡ pairs.items }
    {
        Page { pairs }
    }

    pub fn len(&self) -> usize
        ensures value { result ≡ length self.now.items }
        ensures page { IsPage self.now.items }
    {
        self.pairs.len()
    }

    pub fn is_empty(&self) -> bool
        ensures { IsTrue result ↔ (self.now.items ≡ []) }
    {
        self.pairs.is_empty()
    }

    /// The pair of this index, counted from 0.
    pub fn get(&self, i: usize) -> Option<&(Key, Val)>
        ensures { option_copied result ≡ slice_get self.now.items i }
    {
        self.pairs.get(i)
    }

    pub fn as_slice(&self) -> &[(Key, Val)]
        ensures { result.now ≡ self.now.items }
    {
        self.pairs.as_slice()
    }

    /// The pairs, without the room for more.
    pub fn into_vec(self) -> Vec<(Key, Val)>
        ensures { result.items ≡ self.items }
    {
        self.pairs.into_vec()
    }

    /// Whether a pair with this key may be pushed: the page isn't full, and all its keys are lower.
    pub fn can_push(&self, key: &Key) -> bool
        ensures { IsTrue result ↔ ((v : List ℕ) → IsPage (self.now.items ++ (key.now, v) ∷ [])) }
    {
        if self.pairs.len() >= Self::MAX {
            return false;
        }
        match self.pairs.as_slice().last() {
            Some((last, _)) => *last < *key,
            None => true,
        }
    }

    /// Makes room for one pair.
    pub fn reserve(&mut self) -> Result<(), NoMemory>
        ensures room { OnOk result (1 ≤ self.new.room) }
        ensures items { self.new.items ≡ self.old.items }
        ensures kept { self.old.room ≤ self.new.room }
    {
        self.pairs.reserve()
    }

    /// Adds a pair at the end. It takes no memory.
    pub fn push(&mut self, pair: (Key, Val))
        requires room { 1 ≤ self.old.room }
        requires page { IsPage (self.old.items ++ pair ∷ []) }
        ensures items { self.new.items ≡ self.old.items ++ pair ∷ [] }
        ensures room { self.old.room ≤ self.new.room + 1 }
    {
        self.pairs.push(pair);
    }

    pub fn try_clone(&self) -> Result<Page, NoMemory>
        ensures { IfOk result (λ p. p.items ≡ self.now.items) }
    {
        Page::of(self.pairs.allocator(), self.pairs.as_slice())
    }
}
