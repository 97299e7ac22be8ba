//! Where the next status of a class stands.

ghost use Rattle.std.specs.Prelude.{◌≡◌, ◌≢◌, ◌≤◌, ◌<◌, ◌+◌, ◌*◌, ◌/◌, ℕ, [], length, get_or, vec_len, false, IfOk};
ghost use Rattle.std.specs.List.{list_any};
ghost use Rattle.vs_space.specs.Class.{is_of, IsNextPlace};
ghost use Rattle.vs_space.specs.Marks.{is_marked, AreMarks, IsTold, Tells};

use crate::status::Status;
use std::alloc::Global;
use vs_base::NoMemory;

/// How many places are a block.
pub(crate) const BLOCK: usize = 40;

/// How many blocks are a group.
const BLOCKS_OF_GROUP: usize = 25;

/// How many places are a group.
const GROUP: usize = BLOCKS_OF_GROUP * BLOCK;

/// What is looked for.
#[derive(Clone, Copy)]
pub(crate) enum Class {
    /// Buckets that are active.
    Active,
    /// Buckets that have a status, and are neither active nor pinned.
    Open,
}

/// Whether a bucket with this status, or without an entry, is looked for.
pub(crate) fn is_of(class: Class, status: &Option<Status>) -> bool
    ensures { result ≡ is_of class status.now }
{
    match class {
        Class::Active => matches!(status, Some(Status::Active)),
        Class::Open => !matches!(status, None | Some(Status::Active | Status::Pinned)),
    }
}

/// Whether some place is of the class.
fn has(class: Class, places: &[Option<Status>]) -> bool
    ensures { result ≡ list_any (is_of class) places.now }
{
    places.iter().any(|place| is_of(class, place))
}

/// Whether some mark is set.
fn has_mark(marks: &[bool]) -> bool
    ensures { result ≡ list_any (λ mark. mark) marks.now }
{
    marks.iter().any(|mark| *mark)
}

/// Which blocks of a table have a place of one class, and which groups a block that does: a search passes the others
/// as a whole.
#[derive(Drop)]
pub(crate) struct Marks {
    blocks: Vec<bool>,
    groups: Vec<bool>,
}

impl Marks {
    /// The marks of a table without places.
    pub(crate) fn new(alloc: Global) -> Marks
        ensures blocks { result.blocks.items ≡ [] }
        ensures groups { result.groups.items ≡ [] }
    {
        Marks {
            blocks: Vec::new(alloc),
            groups: Vec::new(alloc),
        }
    }

    /// The marks of a table of whole groups.
    pub(crate) fn of(
        alloc: Global,
        class: Class,
        places: &[Option<Status>],
    ) -> Result<Marks, NoMemory>
        requires { 1000 * (length places.now / 1000) ≡ length places.now }
        ensures { IfOk result (λ marks. Tells class places.now marks) }
    {
        let mut blocks = Vec::new(alloc);
        blocks.resize(places.len() / BLOCK, false)?;
        let mut groups = Vec::new(alloc);
        groups.resize(places.len() / GROUP, false)?;
        let mut marks = Marks { blocks, groups };
        for block in 0..places.len() / BLOCK {
            marks.renew(class, places, block);
        }
        Ok(marks)
    }

    /// A copy.
    pub(crate) fn try_clone(&self) -> Result<Marks, NoMemory>
        ensures blocks { IfOk result (λ marks. marks.blocks.items ≡ self.now.blocks.items) }
        ensures groups { IfOk result (λ marks. marks.groups.items ≡ self.now.groups.items) }
    {
        Ok(Marks {
            blocks: Vec::from_slice(*self.blocks.allocator(), &self.blocks)?,
            groups: Vec::from_slice(*self.groups.allocator(), &self.groups)?,
        })
    }

    /// Marks a block, and its group, as the places are now.
    pub(crate) fn renew(&mut self, class: Class, places: &[Option<Status>], block: usize)
        requires marks { AreMarks (length places.now) self.old }
        requires within { block < vec_len self.old.blocks }
        ensures marks { AreMarks (length places.now) self.new }
        ensures told { (k : ℕ) →
            (k / 40 ≢ block → IsTold class places.now self.old k) → IsTold class places.now self.new k }
    {
        let place = block * BLOCK;
        self.blocks[block] = has(class, &places[place..place + BLOCK]);
        let group = block / BLOCKS_OF_GROUP;
        let first = group * BLOCKS_OF_GROUP;
        self.groups[group] = has_mark(&self.blocks[first..first + BLOCKS_OF_GROUP]);
    }

    /// How many places from this one on a search may pass: the rest of its group or of its block, where that isn't marked,
    /// else none.
    fn unmarked(&self, from: usize) -> usize
        requires marks { AreMarks (40 * vec_len self.now.blocks) self.now }
        requires within { from < 40 * vec_len self.now.blocks }
        ensures within { from + result ≤ 40 * vec_len self.now.blocks }
        ensures unmarked { (k : ℕ) → from ≤ k → k < from + result → is_marked self.now k ≡ false }
    {
        if !self.groups[from / GROUP] {
            return GROUP - from % GROUP;
        }
        if !self.blocks[from / BLOCK] {
            return BLOCK - from % BLOCK;
        }
        0
    }
}

/// The first place of the class from this index on.
pub(crate) fn next_place(
    class: Class,
    places: &[Option<Status>],
    marks: &Marks,
    from: usize,
) -> Option<usize>
    requires { Tells class places.now marks.now }
    ensures { IsNextPlace class places.now from result }
{
    let mut index = from;
    while index < places.len() {
        let unmarked = marks.unmarked(index);
        if unmarked > 0 {
            index += unmarked;
            continue;
        }
        if is_of(class, &places[index]) {
            return Some(index);
        }
        index += 1;
    }
    None
}
