//! The rows of all buckets of a set.

ghost use Rattle.std.specs.Prelude.{◌≡◌, ◌+◌, ◌<◌, ◌↔◌, [], drop, None, Some, replicate, IsTrue, OnOk, OnErr, IfOk, IfSome};
ghost use Rattle.std.specs.Option.{option_copied};
ghost use Rattle.vs_rows.specs.Operations.{rows_after};
ghost use Rattle.vs_rows.specs.RowMap.{with_rows};

use std::alloc::Global;
use std::marker::Model;
use vs_base::{BucketId, NoMemory};
use vs_rows::{Ops, Page, Rows};

/// The rows of the buckets of a set: a map from buckets to rows. Contracts see what stands at the
/// place of each bucket, and whether there are places.
#[derive(Drop)]
pub struct RowTable {
    places: Vec<Option<Rows>>,
}

impl Model for RowTable {
    ghost use Rattle.std.specs.Prelude.{◌≡◌, ◌⊎◌, length};
    ghost use Rattle.vs_record.specs.RowTable.{Places};

    ghost Value = { Places };

    ghost view = { λ t. t.places.items };

    ghost invariant = { λ t. (length t.places.items ≡ 0) ⊎ (length t.places.items ≡ 30000) };
}

/// The place of a bucket in the table.
fn index_of(id: BucketId) -> usize
    ensures place { result + 1 ≡ id }
    ensures within { result < 30000 }
{
    id.get() as usize - 1
}

/// Places at which nothing stands.
#[tactic(auto, using(crate::proofs::Tables::one_more))]
fn free_places(alloc: Global, count: usize) -> Result<Vec<Option<Rows>>, NoMemory>
    ensures { IfOk result (λ places. places.items ≡ replicate count None) }
{
    let mut places = Vec::with_capacity(alloc, count)?;
    for _ in 0..count {
        places.push(None)?;
    }
    Ok(places)
}

impl RowTable {
    ghost use Rattle.std.specs.Prelude.{ℕ};
    ghost use Rattle.vs_base.specs.Numbers.{IsBucketId};
    ghost use Rattle.vs_record.specs.RowTable.{rows_at, row_map_at, AreOfBuckets, Sets, SetsRows, HasSameRows, HasPlaces};

    /// No rows, and no places.
    pub fn new(alloc: Global) -> RowTable
        ensures { result ≡ [] }
    {
        RowTable {
            places: Vec::new(alloc),
        }
    }

    /// Makes a place for each bucket.
    pub fn reserve(&mut self) -> Result<(), NoMemory>
        ensures room { OnOk result (HasPlaces self.new) }
        ensures rows { (b : ℕ) → rows_at self.new b ≡ rows_at self.old b }
        ensures kept { HasPlaces self.old → HasPlaces self.new }
    {
        if self.places.is_empty() {
            self.places = free_places(*self.places.allocator(), BucketId::MAX as usize)?;
        }
        Ok(())
    }

    /// The rows of this bucket.
    pub fn get(&self, id: BucketId) -> Option<&Rows>
        ensures rows { option_copied result ≡ rows_at self.now id }
        ensures ids { AreOfBuckets self.now }
    {
        match self.places.get(index_of(id)) {
            Some(place) => place.as_ref(),
            None => None,
        }
    }

    /// Takes the rows of this bucket out, and leaves its place free. It takes no memory.
    pub fn take_out(&mut self, id: BucketId) -> Option<Rows>
        ensures taken { result ≡ rows_at self.old id }
        ensures free { IfSome result (λ _. HasPlaces self.new) }
        ensures gone { Sets self.old self.new id None }
        ensures kept { HasPlaces self.old → HasPlaces self.new }
    {
        let index = index_of(id);
        if index >= self.places.len() {
            return None;
        }
        self.places[index].take()
    }

    /// Puts rows at the place of this bucket. It takes no memory.
    pub fn put(&mut self, id: BucketId, rows: Rows)
        requires { HasPlaces self.old }
        ensures put { Sets self.old self.new id (Some rows) }
        ensures kept { HasPlaces self.new }
    {
        self.places[index_of(id)] = Some(rows);
    }

    // Takes the rows of a bucket out, and makes room to put them back.
    fn lift(&mut self, alloc: Global, id: BucketId) -> Result<Rows, NoMemory>
        ensures rows { IfOk result (λ rows. rows.items ≡ row_map_at self.old id) }
        ensures gone { OnOk result (Sets self.old self.new id None) }
        ensures room { OnOk result (HasPlaces self.new) }
        ensures err { OnErr result (HasSameRows self.old self.new) }
    {
        match self.take_out(id) {
            Some(rows) => Ok(rows),
            None => {
                self.reserve()?;
                Ok(Rows::new(alloc))
            }
        }
    }

    // Sets the rows of a page.
    pub(crate) fn set_page(
        &mut self,
        alloc: Global,
        id: BucketId,
        page: Page,
    ) -> Result<(), NoMemory>
        ensures ok { OnOk result (SetsRows self.old self.new id
            (with_rows (row_map_at self.old id) page.items)) }
        ensures err { OnErr result (HasSameRows self.old self.new) }
    {
        let mut rows = self.lift(alloc, id)?;
        let done = put_page(&mut rows, page);
        self.put(id, rows);
        done
    }

    // Runs the operations of a write.
    pub(crate) fn write(&mut self, alloc: Global, id: BucketId, ops: &Ops) -> Result<(), NoMemory>
        ensures ok { OnOk result (SetsRows self.old self.new id
            (rows_after (row_map_at self.old id) ops.now.items)) }
        ensures err { OnErr result (HasSameRows self.old self.new) }
    {
        let mut rows = self.lift(alloc, id)?;
        let done = run(&mut rows, ops);
        self.put(id, rows);
        done
    }

    // Deletes the first rows of a bucket.
    pub(crate) fn wipe(&mut self, id: BucketId, count: u16)
        ensures { SetsRows self.old self.new id
            (drop count (row_map_at self.old id)) }
    {
        if let Some(mut rows) = self.take_out(id) {
            rows.wipe(count);
            self.put(id, rows);
        }
    }

    // Whether a bucket has the same rows in both.
    pub(crate) fn has_same_rows(&self, other: &RowTable, id: BucketId) -> bool
        ensures same { IsTrue result
            ↔ (row_map_at self.now id ≡ row_map_at other.now id) }

        // What is no bucket has no rows.
        ensures outside { (b : ℕ) → ¬ (IsBucketId b)
            → row_map_at self.now b ≡ row_map_at other.now b }
    {
        match self.get(id) {
            Some(rows) => match other.get(id) {
                Some(others) => rows.equals(others),
                None => rows.is_empty(),
            },
            None => match other.get(id) {
                Some(others) => others.is_empty(),
                None => true,
            },
        }
    }

    /// A copy.
    pub fn try_clone(&self, alloc: Global) -> Result<RowTable, NoMemory>
        ensures { IfOk result (λ copy. HasSameRows self.now copy) }
    {
        let mut copy = RowTable::new(alloc);
        for number in 1..BucketId::MAX + 1 {
            let Some(id) = BucketId::new(number) else {
                continue;
            };
            if let Some(rows) = self.get(id) {
                copy.reserve()?;
                copy.put(id, rows.try_clone()?);
            }
        }
        Ok(copy)
    }
}

fn put_page(rows: &mut Rows, page: Page) -> Result<(), NoMemory>
    ensures ok { OnOk result (rows.new.items ≡ with_rows rows.old.items page.items) }
    ensures err { OnErr result (rows.new.items ≡ rows.old.items) }
{
    rows.reserve(page.len() as u16)?;
    rows.put_page(page);
    Ok(())
}

fn run(rows: &mut Rows, ops: &Ops) -> Result<(), NoMemory>
    ensures ok { OnOk result (rows.new.items ≡ rows_after rows.old.items ops.now.items) }
    ensures err { OnErr result (rows.new.items ≡ rows.old.items) }
{
    let _answers = rows.apply(ops)?;
    Ok(())
}
