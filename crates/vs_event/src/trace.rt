//! Lists of events.

ghost use Rattle.std.specs.Prelude.{◌≡◌, ◌<◌, ◌≤◌, ◌+◌, ◌^◌, [], ◌∷◌, ◌++◌, drop, length, slice_get, OnOk};

use crate::event::{Event, Recorded, RestartBy};
use std::alloc::Global;
use std::marker::Model;
use vs_base::{Items, NoMemory};

/// A list of events, in the order in which they happened. Contracts see the events and the number
/// of free places.
#[derive(Drop)]
pub struct Trace {
    events: Items<Event>,
}

impl Model for Trace {
    ghost use Rattle.vs_base.specs.Listed.{Listed};
    ghost use Rattle.vs_event.specs.declared.event.Event.{Event};

    ghost Value = { Listed Event };

    ghost view = { λ t. t.events };
}

impl Trace {
    /// The empty list.
    pub fn new(alloc: Global) -> Trace
        ensures { result.items ≡ [] }
    {
        Trace {
            events: Items::new(alloc),
        }
    }

    /// The allocator from which the list takes its memory.
    pub fn allocator(&self) -> Global {
        self.events.allocator()
    }

    pub fn len(&self) -> u64
        ensures value { result ≡ length self.now.items }
        ensures small { result < 2 ^ 63 }
    {
        self.events.as_slice().len() as u64
    }

    /// The event of this index, counted from 0.
    pub fn get(&self, i: u64) -> Option<Event>
        ensures { result ≡ slice_get self.now.items i }
    {
        self.events.get(i as usize).copied()
    }

    pub fn as_slice(&self) -> &[Event]
        ensures { result.now ≡ self.now.items }
    {
        self.events.as_slice()
    }

    /// The events from this index on, counted from 0.
    pub(crate) fn events_from(&self, i: u64) -> &[Event]
        requires { i ≤ length self.now.items }
        ensures value { result.now ≡ drop i self.now.items }
        ensures small { i + length result.now < 2 ^ 63 }
    {
        &self.events.as_slice()[i as usize..]
    }

    /// Makes room for one event.
    pub fn reserve(&mut self) -> Result<(), NoMemory>
        ensures room { OnOk result (1 ≤ self.new.room) }
        ensures items { self.new.items ≡ self.old.items }
        ensures kept { self.old.room ≤ self.new.room }
    {
        self.events.reserve()
    }

    /// Adds an event at the end. It takes no memory.
    pub fn push(&mut self, event: Event)
        requires { 1 ≤ self.old.room }
        ensures items { self.new.items ≡ self.old.items ++ event ∷ [] }
        ensures room { self.old.room ≤ self.new.room + 1 }
    {
        // The proof of a generic call wants to be told which types an event holds.
        let _held: (Option<Recorded>, Option<RestartBy>) = (None, None);
        self.events.push(event);
    }
}
