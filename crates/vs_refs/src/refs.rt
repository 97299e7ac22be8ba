//! The references of all buckets of a set.

ghost use Rattle.std.specs.Prelude.{◌≡◌, ◌≤◌, ◌<◌, ◌+◌, ◌↔◌, [], length, IsTrue, IsErr, OnOk, OnErr};

use crate::counts::Counts;
use std::alloc::Global;
use std::marker::Model;
use vs_base::{BucketId, Mode, NoMemory};
use vs_table::Table;

/// The lock against calls of this mode stands.
#[derive(Clone, Copy, Debug, PartialEq, Eq)]
pub struct Locked;

/// The references of all buckets of a set. Contracts see the buckets' counts, and for how many more
/// buckets there is memory.
#[derive(Drop)]
pub struct Refs {
    table: Table<BucketId, Counts>,
}

impl Model for Refs {
    ghost use Rattle.std.specs.Prelude.{ℕ};
    ghost use Rattle.vs_base.specs.Listed.{Listed};
    ghost use Rattle.vs_refs.specs.declared.counts.Counts.{Counts};

    ghost Value = { Listed (ℕ × Counts) };

    ghost view = { λ r. r.table };
}

impl Refs {
    ghost use Rattle.vs_refs.specs.Counts.{count_of, lock_of};
    ghost use Rattle.vs_refs.specs.Refs.{counts_of, HasRoomFor, HasEntry, LeavesCounts};
    ghost use Rattle.vs_refs.specs.Calls.{Makes, Take, Give, Lock, Unlock, DropBucket, Clear};

    /// No references, and no room.
    pub fn new(alloc: Global) -> Refs
        ensures { result.items ≡ [] }
    {
        Refs {
            table: Table::new(alloc),
        }
    }

    /// Makes room for one more bucket.
    pub fn reserve(&mut self) -> Result<(), NoMemory>
        ensures room { OnOk result (1 ≤ self.new.room) }
        ensures items { self.new.items ≡ self.old.items }
        ensures kept { self.old.room ≤ self.new.room }
    {
        self.table.reserve()
    }

    /// The references of this bucket.
    pub fn counts(&self, id: BucketId) -> Counts
        ensures { result ≡ counts_of self.now.items id }
    {
        self.table.get(&id).copied().unwrap_or_default()
    }

    /// Takes a reference. It is refused where the lock of this mode stands. It takes no memory.
    pub fn take(&mut self, id: BucketId, mode: Mode) -> Result<(), Locked>
        requires room { HasRoomFor self.old id }
        requires below { count_of (counts_of self.old.items id) mode < u32.MAX }
        ensures locked { IsErr result ↔ IsTrue (lock_of (counts_of self.old.items id) mode) }
        ensures taken { OnOk result (Makes (Take id mode) self.old.items self.new.items) }
        ensures refused { OnErr result (self.new ≡ self.old) }
        ensures room { self.old.room ≤ self.new.room + 1 }
    {
        let counts = self.counts(id);
        if counts.is_locked(mode) {
            return Err(Locked);
        }
        self.table
            .insert(id, counts.with_count(mode, counts.count(mode) + 1));
        Ok(())
    }

    /// Gives a reference back. It takes no memory.
    pub fn give(&mut self, id: BucketId, mode: Mode)
        requires { 0 < count_of (counts_of self.old.items id) mode }
        ensures given { Makes (Give id mode) self.old.items self.new.items }
        ensures room { self.old.room ≤ self.new.room }
    {
        let counts = self.counts(id);
        self.keep(id, counts.with_count(mode, counts.count(mode) - 1));
    }

    /// Sets the lock of this mode. It takes no memory.
    pub fn lock(&mut self, id: BucketId, mode: Mode)
        requires { HasRoomFor self.old id }
        ensures locked { Makes (Lock id mode) self.old.items self.new.items }
        ensures room { self.old.room ≤ self.new.room + 1 }
    {
        let counts = self.counts(id);
        self.table.insert(id, counts.with_lock(mode, true));
    }

    /// Lifts the lock of this mode. It takes no memory.
    pub fn unlock(&mut self, id: BucketId, mode: Mode)
        ensures unlocked { Makes (Unlock id mode) self.old.items self.new.items }
        ensures room { self.old.room ≤ self.new.room }
    {
        if let Some(counts) = self.table.get(&id).copied() {
            self.keep(id, counts.with_lock(mode, false));
        }
    }

    // Changes what an entry says. A bucket without references and locks has none, so that there are no more entries than
    // buckets in use. It takes no memory.
    fn keep(&mut self, id: BucketId, counts: Counts)
        requires { HasEntry self.old.items id }
        ensures counts { LeavesCounts id counts self.old.items self.new.items }
        ensures room { self.old.room ≤ self.new.room }
    {
        if counts.is_none() {
            self.drop_bucket(id);
        } else {
            self.table.insert(id, counts);
        }
    }

    /// Forgets all references and locks, and keeps the memory.
    pub fn clear(&mut self)
        ensures cleared { Makes Clear self.old.items self.new.items }
        ensures room { self.new.room ≡ self.old.room + length self.old.items }
    {
        self.table.clear();
    }

    /// Forgets the references and locks of this bucket. It takes no memory.
    pub fn drop_bucket(&mut self, id: BucketId)
        ensures dropped { Makes (DropBucket id) self.old.items self.new.items }
        ensures room { self.old.room ≤ self.new.room }
    {
        self.table.remove(&id);
    }
}
