//! The sets of a cluster, in the order of their numbers.

ghost use Rattle.std.specs.Prelude.{◌≡◌, ◌≤◌, ◌<◌, ◌+◌, ◌∷◌, ◌++◌, [], length, slice_get, ◌↔◌, IsTrue, IfOk, OnOk};
ghost use Rattle.std.specs.Option.{option_copied};

use crate::config::SetConfig;
use std::alloc::Global;
use std::marker::Model;
use vs_base::{Items, NoMemory};

/// A list of at most 32 sets, and room for more. The set of index 0 has number 1.
#[derive(Drop)]
pub struct SetList {
    sets: Items<SetConfig>,
}

impl Model for SetList {
    ghost use Rattle.std.specs.Prelude.{◌≤◌, length};
    ghost use Rattle.vs_base.specs.Listed.{Listed};
    ghost use Rattle.vs_config.specs.declared.config.SetConfig.{SetConfig};

    ghost Value = { Listed SetConfig };

    ghost view = { λ l. l.sets };

    ghost invariant = { λ l. length l.sets.items ≤ 32 };
}

impl SetList {
    /// The greatest number of sets.
    pub const MAX: usize = 32;

    /// The empty list.
    pub fn new(alloc: Global) -> SetList
        ensures { result.items ≡ [] }
    {
        SetList {
            sets: Items::new(alloc),
        }
    }

    pub fn len(&self) -> usize
        ensures value { result ≡ length self.now.items }
        ensures range { length self.now.items ≤ 32 }
    {
        self.sets.len()
    }

    pub fn is_empty(&self) -> bool
        ensures { IsTrue result ↔ (self.now.items ≡ []) }
    {
        self.sets.is_empty()
    }

    /// The set of this index, counted from 0.
    pub fn get(&self, i: usize) -> Option<&SetConfig>
        ensures { option_copied result ≡ slice_get self.now.items i }
    {
        self.sets.get(i)
    }

    pub fn as_slice(&self) -> &[SetConfig]
        ensures value { result.now ≡ self.now.items }
        ensures range { length self.now.items ≤ 32 }
    {
        self.sets.as_slice()
    }

    /// Makes room for one set.
    pub fn reserve(&mut self) -> Result<(), NoMemory>
        ensures room { OnOk result (1 ≤ self.new.room) }
        ensures items { self.new.items ≡ self.old.items }
        ensures kept { self.old.room ≤ self.new.room }
    {
        self.sets.reserve()
    }

    /// Makes room for this many sets.
    pub fn reserve_many(&mut self, more: usize) -> Result<(), NoMemory>
        ensures room { OnOk result (more ≤ self.new.room) }
        ensures items { self.new.items ≡ self.old.items }
        ensures kept { self.old.room ≤ self.new.room }
    {
        self.sets.reserve_many(more)
    }

    /// Adds a set at the end. It takes no memory.
    pub fn push(&mut self, set: SetConfig)
        requires room { 1 ≤ self.old.room }
        requires below { length self.old.items < 32 }
        ensures items { self.new.items ≡ self.old.items ++ set ∷ [] }
        ensures room { self.old.room ≤ self.new.room + 1 }
    {
        self.sets.push(set);
    }

    /// Whether both have equal sets, in the same order. It takes no memory.
    pub fn equals(&self, other: &SetList) -> bool
        ensures { IsTrue result ↔ (self.now.items ≡ other.now.items) }
    {
        self.sets.as_slice() == other.sets.as_slice()
    }

    /// A list that equals this one.
    pub fn try_clone(&self) -> Result<SetList, NoMemory>
        ensures { IfOk result (λ l. l.items ≡ self.now.items) }
    {
        let mut copy = Items::new(self.sets.allocator());
        copy.reserve_many(self.sets.len())?;
        for set in self.sets.as_slice() {
            copy.push(*set);
        }
        Ok(SetList { sets: copy })
    }
}
