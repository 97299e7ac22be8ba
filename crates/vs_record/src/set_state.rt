//! What a set keeps: its entries, and the rows of its buckets.

ghost use Rattle.std.specs.Prelude.{◌≡◌, ◌≤◌, ◌↔◌, ℕ, length, IsTrue, IsNone, OnOk, OnErr, IfOk};

use crate::change::Change;
use crate::row_table::RowTable;
use std::alloc::Global;
use vs_base::{BucketId, NoMemory, SetNo};
use vs_rows::Page;
use vs_space::{Space, Status, may_change};

/// A set's entries, and the rows of its buckets. A journal stands for one.
#[derive(Drop)]
pub struct SetState {
    pub space: Space,
    pub rows: RowTable,
}

impl SetState {
    ghost use Rattle.vs_base.specs.Numbers.{IsBucketId};
    ghost use Rattle.vs_space.specs.Entries.{IsRange, status_of};
    ghost use Rattle.vs_space.specs.Status.{MayChange};
    ghost use Rattle.vs_record.specs.Change.{change as plain, AddRows};
    ghost use Rattle.vs_record.specs.Durable.{Durable, booted, applied, Fits, FitsState, Receives, IsSameAt, with_entry};
    ghost use Rattle.vs_record.specs.Fitting.{fits};
    ghost use Rattle.vs_record.specs.RowTable.{row_map_at};
    ghost use Rattle.vs_record.specs.States.{durable};

    /// A new set: `count` buckets from `first` on are active, and none has rows.
    pub fn booted(alloc: Global, first: u32, count: u32) -> Result<SetState, NoMemory>
        requires { IsRange first count }
        ensures { IfOk result (λ state. durable state ≡ booted first count) }
    {
        Ok(SetState {
            space: Space::booted(alloc, first, count)?,
            rows: RowTable::new(alloc),
        })
    }

    /// The number of rows of a bucket.
    fn row_count(&self, id: BucketId) -> usize
        ensures { result ≡ length (row_map_at self.now.rows id) }
    {
        match self.rows.get(id) {
            Some(rows) => rows.len(),
            None => 0,
        }
    }

    /// Whether a change fits, in a cluster of so many buckets.
    pub fn fits(&self, change: &Change, bucket_count: u32) -> bool
        ensures exactly { IsTrue result
            ↔ FitsState bucket_count (durable self.now) (plain change.now) }
        ensures test { result ≡ fits bucket_count (durable self.now) (plain change.now) }
    {
        self.does_fit(change, bucket_count)
    }

    fn does_fit(&self, change: &Change, bucket_count: u32) -> bool
        ensures { IsTrue result ↔ FitsState bucket_count (durable self.now) (plain change.now) }
    {
        let bucket = change.bucket();
        if bucket.get() > bucket_count {
            return false;
        }
        let entry = self.space.get(bucket);
        match change {
            Change::Status(_, status) => entry.is_some() && may_change(&entry, &Some(*status)),
            Change::RowsPage(_, source, _) => {
                entry.is_none() || entry == Some(Status::Receiving(*source))
            }
            Change::Write(id, _, _) => {
                matches!(entry, Some(Status::Active | Status::Pinned))
                    && id.call >= 1
                    && id.call <= Change::MAX_CALL
            }
            Change::Wipe(_, count) => {
                entry == Some(Status::Garbage) && usize::from(*count) <= self.row_count(bucket)
            }
            Change::Forget(_) => entry == Some(Status::Garbage) && self.row_count(bucket) == 0,
        }
    }

    // Gives a bucket another status, or removes its entry. It takes no memory.
    fn set_entry(&mut self, bucket: BucketId, new: Option<Status>)
        requires allowed { MayChange (status_of self.old.space.entries bucket) new }
        requires room { IsNone (status_of self.old.space.entries bucket)
            → 1 ≤ self.old.space.room }
        ensures entries { durable self.new ≡ with_entry (durable self.old) bucket new }
        ensures rows { self.new.rows ≡ self.old.rows }
    {
        let changed = self.space.change(bucket, new);
        prove!(changed.is_ok());
    }

    // The rows of a page are set, and the bucket is being received.
    fn add_rows(
        &mut self,
        alloc: Global,
        bucket: BucketId,
        source: SetNo,
        page: Page,
    ) -> Result<(), NoMemory>
        requires { Receives (status_of self.old.space.entries bucket) source }
        ensures ok { OnOk result (durable self.new
            ≡ applied (durable self.old) (AddRows bucket source page.items)) }
        ensures err { OnErr result (durable self.new ≡ durable self.old) }
    {
        self.space.reserve()?;
        self.rows.set_page(alloc, bucket, page)?;
        if self.space.get(bucket).is_none() {
            self.set_entry(bucket, Some(Status::Receiving(source)));
        }
        Ok(())
    }

    /// Makes a change that fits. After want of memory the entries and rows are as they were.
    pub fn apply(&mut self, alloc: Global, change: Change) -> Result<(), NoMemory>
        requires { Fits (durable self.old) (plain change) }
        ensures ok { OnOk result (durable self.new ≡ applied (durable self.old) (plain change)) }
        ensures err { OnErr result (durable self.new ≡ durable self.old) }
    {
        match change {
            Change::Status(bucket, status) => {
                self.set_entry(bucket, Some(status));
                Ok(())
            }
            Change::RowsPage(bucket, source, page) => self.add_rows(alloc, bucket, source, page),
            Change::Write(_, bucket, ops) => self.rows.write(alloc, bucket, &ops),
            Change::Wipe(bucket, count) => {
                self.rows.wipe(bucket, count);
                Ok(())
            }
            Change::Forget(bucket) => {
                self.set_entry(bucket, None);
                self.rows.take_out(bucket);
                Ok(())
            }
        }
    }

    /// A copy.
    pub fn try_clone(&self, alloc: Global) -> Result<SetState, NoMemory>
        ensures { IfOk result (λ copy. durable copy ≡ durable self.now) }
    {
        Ok(SetState {
            space: self.space.try_clone()?,
            rows: self.rows.try_clone(alloc)?,
        })
    }

    // Whether a bucket has the same status and the same rows in both.
    fn is_same_at(&self, other: &SetState, id: BucketId) -> bool
        ensures same { IsTrue result ↔ IsSameAt (durable self.now) (durable other.now) id }

        // What is no bucket has no entry and no rows.
        ensures outside { (b : ℕ) → ¬ (IsBucketId b)
            → IsSameAt (durable self.now) (durable other.now) b }
    {
        let entry = self.space.get(id);
        let other_entry = other.space.get(id);
        let same_rows = self.rows.has_same_rows(&other.rows, id);
        same_rows && entry == other_entry
    }

    /// Whether both have the same entries and rows, whatever their room. It takes no memory.
    pub fn equals(&self, other: &SetState) -> bool
        ensures { IsTrue result ↔ (durable self.now ≡ durable other.now) }
    {
        for number in 1..BucketId::MAX + 1 {
            match BucketId::new(number) {
                Some(id) => {
                    if !self.is_same_at(other, id) {
                        return false;
                    }
                }
                None => return false,
            }
        }
        true
    }
}
