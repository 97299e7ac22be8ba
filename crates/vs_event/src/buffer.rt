//! Text that is written into room that was made before.

ghost use Rattle.std.specs.Prelude.{◌≡◌, ◌≤◌, ◌+◌, ◌++◌, [], length, take, decimal, OnOk};
ghost use Rattle.vs_event.specs.Adds.{Adds};

use itoa::Buffer;
use std::alloc::Global;
use std::marker::Model;
use vs_base::NoMemory;

/// A text, and room for more. Contracts see its bytes and the number of free places.
#[derive(Drop)]
pub(crate) struct TextBuffer {
    bytes: Vec<u8>,
}

impl Model for TextBuffer {
    ghost use Rattle.std.specs.Prelude.{ℕ, ◌-◌, vec_len, vec_capacity};
    ghost use Rattle.vs_base.specs.Listed.{Listed};

    ghost Value = { Listed ℕ };

    ghost view = { λ t.
        record { items = t.bytes.items; room = vec_capacity t.bytes - vec_len t.bytes } };
}

impl TextBuffer {
    pub(crate) fn new(alloc: Global) -> TextBuffer
        ensures { result.items ≡ [] }
    {
        TextBuffer {
            bytes: Vec::new(alloc),
        }
    }

    /// Makes room for this many bytes.
    pub(crate) fn reserve(&mut self, more: usize) -> Result<(), NoMemory>
        ensures room { OnOk result (more ≤ self.new.room) }
        ensures items { self.new.items ≡ self.old.items }
    {
        self.bytes.reserve(more)?;
        Ok(())
    }

    pub(crate) fn len(&self) -> usize
        ensures { result ≡ length self.now.items }
    {
        self.bytes.len()
    }

    pub(crate) fn as_slice(&self) -> &[u8]
        ensures { result.now ≡ self.now.items }
    {
        self.bytes.as_slice()
    }

    /// The bytes, without the room for more.
    pub(crate) fn into_vec(self) -> Vec<u8>
        ensures { result.items ≡ self.items }
    {
        self.bytes
    }

    /// Leaves the first bytes, so many or all. The room grows by the others.
    pub(crate) fn truncate(&mut self, len: usize)
        ensures items { self.new.items ≡ take len self.old.items }
        ensures room { length self.old.items + self.old.room
            ≡ length self.new.items + self.new.room }
    {
        self.bytes.truncate(len);
    }

    pub(crate) fn put(&mut self, bytes: &[u8])
        requires { length bytes.now ≤ self.old.room }
        ensures items { self.new.items ≡ self.old.items ++ bytes.now }
        ensures room { self.old.room ≤ self.new.room + length bytes.now }
    {
        self.bytes.extend_from_slice(bytes).unwrap();
    }

    /// Adds the decimal digits of a number, without leading zeros.
    pub(crate) fn put_number(&mut self, number: u64)
        requires { 20 ≤ self.old.room }
        ensures { Adds 20 self.old self.new (decimal number) }
    {
        let mut buffer = Buffer::new();
        self.put(buffer.format(number).as_bytes());
    }
}
