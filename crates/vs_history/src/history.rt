//! The history of one bucket.

ghost use Rattle.std.specs.Prelude.{◌≡◌, ◌≤◌, ◌+◌, ◌-◌, [], length, Some, slice_get, IfOk, OnOk};
ghost use Rattle.vs_rows.specs.Said.{said_all};
ghost use Rattle.vs_history.specs.History.{entry, write_count, with_write, with_read, rows_at};
ghost use Rattle.vs_history.specs.Means.{means, write_room, read_room};

use crate::entry::Entry;
use std::alloc::Global;
use vs_base::{CallId, Items, NoMemory};
use vs_rows::{Answers, Ops, Rows};

/// The rows of a bucket at opening, and the calls that acted on it. Only `reserve` and `rows_at`
/// take memory.
#[derive(Drop)]
pub struct History {
    base: Rows,
    writes: Items<Entry>,
    reads: Items<Entry>,
}

impl History {
    /// A history that begins with these rows.
    pub fn new(alloc: Global, base: Rows) -> History
        ensures { means result ≡ record { base = base.items; writes = []; reads = [] } }
    {
        History {
            base,
            writes: Items::new(alloc),
            reads: Items::new(alloc),
        }
    }

    /// Makes room for one write and one read.
    pub fn reserve(&mut self) -> Result<(), NoMemory>
        ensures writes { OnOk result (1 ≤ write_room self.new) }
        ensures reads { OnOk result (1 ≤ read_room self.new) }
        ensures same { means self.new ≡ means self.old }
        ensures kept_writes { write_room self.old ≤ write_room self.new }
        ensures kept_reads { read_room self.old ≤ read_room self.new }
    {
        self.writes.reserve()?;
        self.reads.reserve()
    }

    /// The number of writes, which is the place of the last.
    pub fn writes(&self) -> u64
        ensures { result ≡ write_count (means self.now) }
    {
        self.writes.len() as u64
    }

    /// The number of reads.
    pub fn reads(&self) -> u64
        ensures { result ≡ length (means self.now).reads }
    {
        self.reads.len() as u64
    }

    /// The rows at opening.
    pub fn base(&self) -> &Rows
        ensures { result.now.items ≡ (means self.now).base }
    {
        &self.base
    }

    /// The write of this place, from 1.
    pub fn write_entry(&self, n: u64) -> &Entry
        requires least { 1 ≤ n }
        requires most { n ≤ write_count (means self.now) }
        ensures { slice_get (means self.now).writes (n - 1) ≡ Some (entry result.now) }
    {
        &self.writes.as_slice()[(n - 1) as usize]
    }

    /// The read of this number, from 1, in the order in which they acted.
    pub fn read_entry(&self, n: u64) -> &Entry
        requires least { 1 ≤ n }
        requires most { n ≤ length (means self.now).reads }
        ensures { slice_get (means self.now).reads (n - 1) ≡ Some (entry result.now) }
    {
        &self.reads.as_slice()[(n - 1) as usize]
    }

    /// A write joins, at the next place, which is the result.
    pub fn place_write(&mut self, id: CallId, ops: Ops, answers: Answers) -> u64
        requires { 1 ≤ write_room self.old }
        ensures place { result ≡ write_count (means self.old) + 1 }
        ensures joins { means self.new ≡ with_write (means self.old) id ops.items (said_all answers.items) }
        ensures writes { write_room self.old ≤ write_room self.new + 1 }
        ensures reads { read_room self.new ≡ read_room self.old }
    {
        let place = self.writes.as_slice().len() as u64 + 1;
        self.writes.push(Entry {
            id,
            ops,
            answers,
            place,
        });
        place
    }

    /// A read joins, at the place of the rows that it saw.
    pub fn place_read(&mut self, id: CallId, ops: Ops, answers: Answers, place: u64)
        requires within { place ≤ write_count (means self.old) }
        requires room { 1 ≤ read_room self.old }
        ensures joins { means self.new ≡ with_read (means self.old) id ops.items (said_all answers.items) place }
        ensures writes { write_room self.new ≡ write_room self.old }
        ensures reads { read_room self.old ≤ read_room self.new + 1 }
    {
        self.reads.push(Entry {
            id,
            ops,
            answers,
            place,
        });
    }

    /// The rows after the first writes, up to this place.
    pub fn rows_at(&self, place: u64) -> Result<Rows, NoMemory>
        requires { place ≤ write_count (means self.now) }
        ensures { IfOk result (λ rows. rows.items ≡ rows_at (means self.now) place) }
    {
        let mut rows = self.base.try_clone()?;
        for entry in &self.writes.as_slice()[..place as usize] {
            rows.apply(&entry.ops)?;
        }
        Ok(rows)
    }
}
