//! The statuses of all buckets at one set.

ghost use Rattle.std.specs.Prelude.{◌≡◌, ◌≤◌, ◌+◌, ◌↔◌, ◌<◌, ◌*◌, ℕ, [], length, vec_len, sum_by, Some, unwrap_or, IsNone, IsOk, IfOk, OnOk, OnErr, IfErr};
ghost use Rattle.vs_space.specs.Entries.{status_of, with_status, count_of, booted, IsRange, RisesFrom};
ghost use Rattle.vs_space.specs.Counts.{counted};
ghost use Rattle.vs_space.specs.Table.{entries_from, IsTable};
ghost use Rattle.vs_space.specs.Class.{is_of};
ghost use Rattle.vs_space.specs.Marks.{Tells};
ghost use Rattle.vs_space.specs.Next.{IsNext};
ghost use Rattle.vs_space.specs.Status.{MayChange, is_active, is_open};

use crate::change::{NotAllowed, may_change};
use crate::counts::KindCounts;
use crate::search::{BLOCK, Class, Marks, next_place};
use crate::status::{Status, StatusKind};
use std::alloc::Global;
use std::marker::Model;
use vs_base::{BucketId, NoMemory};

/// The place of a bucket in the table.
fn index_of(id: BucketId) -> usize
    ensures place { result + 1 ≡ id }
    ensures within { result < 30000 }
{
    id.get() as usize - 1
}

/// The first place in the table after that of a bucket, or the first of all.
fn index_after(id: Option<BucketId>) -> usize
    ensures { result ≡ unwrap_or id 0 }
{
    match id {
        Some(id) => id.get() as usize,
        None => 0,
    }
}

/// A table of `total` places: none before the bucket `before + 1` has a status, the next `count` are active.
fn table(
    alloc: Global,
    before: usize,
    count: usize,
    total: usize,
) -> Result<Vec<Option<Status>>, NoMemory>
    requires { before + count ≤ total }
    ensures entries { IfOk result (λ v. entries_from 1 v.items ≡ booted (before + 1) count) }
    ensures counted { IfOk result (λ v. (kind : StatusKind) →
        sum_by (counted kind) v.items ≡ count * counted kind (Some Status.Active)) }
    ensures len { IfOk result (λ v. vec_len v ≡ total) }
{
    let mut places = Vec::with_capacity(alloc, total)?;
    places.resize(before, None)?;
    places.resize(before + count, Some(Status::Active))?;
    places.resize(total, None)?;
    Ok(places)
}

/// The bucket of the first place of the class after that of a bucket, or of the first of all.
fn next_bucket(
    class: Class,
    places: &[Option<Status>],
    marks: &Marks,
    after: Option<BucketId>,
) -> Option<BucketId>
    requires len { length places.now ≤ 30000 }
    requires marks { Tells class places.now marks.now }
    ensures { IsNext (λ b. is_of class (status_of (entries_from 1 places.now) b)) (unwrap_or after 0) result }
{
    let index = next_place(class, places, marks, index_after(after))?;
    BucketId::new(index as u32 + 1)
}

/// The status of each bucket at one set: the space `_bucket` of vshard. Contracts see the entries, in order of the
/// buckets, and for how many more there is room.
#[derive(Drop)]
pub struct Space {
    places: Vec<Option<Status>>,
    counts: KindCounts,
    active_marks: Marks,
    open_marks: Marks,
}

impl Model for Space {
    ghost use Rattle.std.specs.Prelude.{length};
    ghost use Rattle.vs_space.specs.Entries.{Entries};
    ghost use Rattle.vs_space.specs.Marks.{IsIndexed};
    ghost use Rattle.vs_space.specs.Table.{entries_from};

    ghost Value = { Entries };

    ghost view = { λ s. record { entries = entries_from 1 s.places.items; room = length s.places.items } };

    ghost invariant = { λ s. IsIndexed s.places.items s.counts s.active_marks s.open_marks };
}

impl Space {
    /// No entry, and room for none.
    pub fn new(alloc: Global) -> Space
        ensures { result.entries ≡ [] }
    {
        Space {
            places: Vec::new(alloc),
            counts: KindCounts::new(),
            active_marks: Marks::new(alloc),
            open_marks: Marks::new(alloc),
        }
    }

    /// The entries of a new set: `count` buckets from `first` on, all active.
    pub fn booted(alloc: Global, first: u32, count: u32) -> Result<Space, NoMemory>
        requires { IsRange first count }
        ensures { IfOk result (λ space. space.entries ≡ booted first count) }
    {
        if count == 0 {
            return Ok(Space::new(alloc));
        }
        Space::of_table(
            table(
                alloc,
                first as usize - 1,
                count as usize,
                BucketId::MAX as usize,
            )?,
            KindCounts::of_active(count),
        )
    }

    /// A table with a place for each bucket, and what is known of its statuses.
    fn of_table(places: Vec<Option<Status>>, counts: KindCounts) -> Result<Space, NoMemory>
        requires len { vec_len places ≡ 30000 }
        requires counted { IsTable places.items counts }
        ensures entries { IfOk result (λ space. space.entries ≡ entries_from 1 places.items) }
        ensures room { IfOk result (λ space. space.room ≡ 30000) }
    {
        let alloc = *places.allocator();
        let active_marks = Marks::of(alloc, Class::Active, &places)?;
        let open_marks = Marks::of(alloc, Class::Open, &places)?;
        Ok(Space {
            places,
            counts,
            active_marks,
            open_marks,
        })
    }

    /// A copy.
    pub fn try_clone(&self) -> Result<Space, NoMemory>
        ensures { IfOk result (λ space. space.entries ≡ self.now.entries) }
    {
        Ok(Space {
            places: Vec::from_slice(*self.places.allocator(), &self.places)?,
            counts: self.counts,
            active_marks: self.active_marks.try_clone()?,
            open_marks: self.open_marks.try_clone()?,
        })
    }

    /// Makes room for one entry.
    pub fn reserve(&mut self) -> Result<(), NoMemory>
        ensures room { OnOk result (1 ≤ self.new.room) }
        ensures kept { self.old.room ≤ self.new.room }
        ensures entries { self.new.entries ≡ self.old.entries }
    {
        if self.places.is_empty() {
            let places = table(*self.places.allocator(), 0, 0, BucketId::MAX as usize)?;
            *self = Space::of_table(places, KindCounts::new())?;
        }
        Ok(())
    }

    /// The bucket's status, where it has an entry.
    pub fn get(&self, id: BucketId) -> Option<Status>
        ensures status { result ≡ status_of self.now.entries id }
        ensures order { RisesFrom 1 self.now.entries }
    {
        match self.places.get(index_of(id)) {
            Some(place) => *place,
            None => None,
        }
    }

    /// How many buckets have a status of this kind.
    pub fn count(&self, kind: StatusKind) -> u32
        ensures number { result ≡ count_of kind self.now.entries }
        ensures order { RisesFrom 1 self.now.entries }
    {
        self.counts.get(kind)
    }

    /// The first active bucket after this one, or the first of all.
    pub fn next_active(&self, after: Option<BucketId>) -> Option<BucketId>
        ensures { IsNext (λ b. is_active (status_of self.now.entries b)) (unwrap_or after 0) result }
    {
        next_bucket(Class::Active, &self.places, &self.active_marks, after)
    }

    /// The first bucket after this one, or the first of all, that has a status and is neither active nor pinned.
    pub fn next_open(&self, after: Option<BucketId>) -> Option<BucketId>
        ensures { IsNext (λ b. is_open (status_of self.now.entries b)) (unwrap_or after 0) result }
    {
        next_bucket(Class::Open, &self.places, &self.open_marks, after)
    }

    /// Gives the bucket a new status, or removes its entry. It takes no memory.
    ///
    /// A change that isn't one of those allowed is refused, with the status as it is.
    pub fn change(&mut self, id: BucketId, new: Option<Status>) -> Result<(), NotAllowed>
        requires { IsNone (status_of self.old.entries id) → 1 ≤ self.old.room }
        ensures allowed { IsOk result ↔ MayChange (status_of self.old.entries id) new }
        ensures ok { OnOk result (self.new.entries ≡ with_status self.old.entries id new) }
        ensures refused { IfErr result (λ e. e.0 ≡ status_of self.old.entries id) }
        ensures err { OnErr result (self.new ≡ self.old) }
        ensures room { self.old.room ≤ self.new.room + 1 }
    {
        let old = self.get(id);
        if !may_change(&old, &new) {
            return Err(NotAllowed(old));
        }
        let index = index_of(id);
        self.counts.replace(&old, &new);
        self.places[index] = new;
        self.active_marks
            .renew(Class::Active, &self.places, index / BLOCK);
        self.open_marks
            .renew(Class::Open, &self.places, index / BLOCK);
        Ok(())
    }
}
