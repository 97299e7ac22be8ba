//! What a set has asked about its buckets.

ghost use Rattle.std.specs.Prelude.{◌≡◌, ◌≤◌, ◌+◌, ◌↔◌, [], IsTrue, OnOk};

use std::alloc::Global;
use std::marker::Model;
use vs_base::{BucketId, NoMemory};
use vs_table::Table;

/// The asks of a set: for a bucket, the epoch and the sync number with which the other set of its
/// transfer was asked. Contracts see the asks, and for how many more there is memory.
#[derive(Drop)]
pub struct Asks {
    table: Table<BucketId, (u64, u64)>,
}

impl Model for Asks {
    ghost use Rattle.std.specs.Prelude.{ℕ};
    ghost use Rattle.vs_base.specs.Listed.{Listed};

    ghost Value = { Listed (ℕ × (ℕ × ℕ)) };

    ghost view = { λ a. a.table };
}

impl Asks {
    ghost use Rattle.vs_recover.specs.Asks.{ask_of, Sets, HasRoomFor};

    /// No asks, and no room.
    pub fn new(alloc: Global) -> Asks
        ensures { result.items ≡ [] }
    {
        Asks {
            table: Table::new(alloc),
        }
    }

    /// Makes room for one ask.
    pub fn reserve(&mut self) -> Result<(), NoMemory>
        ensures room { OnOk result (1 ≤ self.new.room) }
        ensures items { self.new.items ≡ self.old.items }
        ensures kept { self.old.room ≤ self.new.room }
    {
        self.table.reserve()
    }

    /// Sets the ask of this bucket. It takes no memory.
    pub fn put(&mut self, id: BucketId, epoch: u64, sync: u64)
        requires { HasRoomFor self.old id }
        ensures put { Sets self.old.items self.new.items id (Some (epoch, sync)) }
        ensures room { self.old.room ≤ self.new.room + 1 }
    {
        self.table.insert(id, (epoch, sync));
    }

    /// The epoch and the sync number of this bucket's ask.
    pub fn get(&self, id: BucketId) -> Option<(u64, u64)>
        ensures { result ≡ ask_of self.now.items id }
    {
        self.table.get(&id).copied()
    }

    /// Whether this bucket's ask has this epoch and this sync number.
    pub fn matches(&self, id: BucketId, epoch: u64, sync: u64) -> bool
        ensures { IsTrue result ↔ (ask_of self.now.items id ≡ Some (epoch, sync)) }
    {
        self.get(id) == Some((epoch, sync))
    }

    /// Ends the ask of this bucket. It takes no memory.
    pub fn drop_ask(&mut self, id: BucketId)
        ensures dropped { Sets self.old.items self.new.items id None }
        ensures room { self.old.room ≤ self.new.room }
    {
        self.table.remove(&id);
    }
}
