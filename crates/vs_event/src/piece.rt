//! The text of events in pieces, for a log that takes no memory.

ghost use Rattle.std.specs.Prelude.{◌≡◌, ◌≤◌, ◌<◌, ◌↔◌, ◌∷◌, [], ◌++◌, length, take, IfOk, IsTrue, if◌then◌else◌};
ghost use Rattle.vs_event.specs.Adds.{line_room};
ghost use Rattle.vs_event.specs.Event.{event_line, events_text};
ghost use Rattle.vs_event.specs.Pieces.{IsPiece, PiecesAreText, piece_limit};

use crate::buffer::TextBuffer;
use crate::event::Event;
use crate::trace::Trace;
use crate::write::{LONGEST_LINE, put_line};
use std::alloc::Global;
use std::marker::Model;
use vs_base::NoMemory;

/// A piece of the text of events: whole lines, at most 64 KiB in all, in memory that is taken when
/// it is made. Contracts see its bytes.
#[derive(Drop)]
pub struct Piece {
    // It has room for a line more, which is taken back where it passes the limit.
    text: TextBuffer,
}

impl Model for Piece {
    ghost use Rattle.std.specs.Prelude.{List, ℕ, ◌≤◌, ◌+◌, length};
    ghost use Rattle.vs_event.specs.Adds.{line_room};
    ghost use Rattle.vs_event.specs.Pieces.{piece_limit};

    ghost Value = { List ℕ };

    ghost view = { λ p. p.text.items };

    ghost invariant = { λ p. (length p.text.items ≤ piece_limit)
        × (piece_limit + line_room ≤ length p.text.items + p.text.room) };
}

impl Piece {
    /// The most bytes of a piece.
    const LIMIT: usize = 64 * 1024;

    /// An empty piece, with the memory for each that is written into it.
    pub fn new(alloc: Global) -> Result<Piece, NoMemory>
        ensures { IfOk result (λ piece. piece ≡ []) }
    {
        let mut text = TextBuffer::new(alloc);
        text.reserve(Self::LIMIT + LONGEST_LINE)?;
        Ok(Piece { text })
    }

    pub fn bytes(&self) -> &[u8]
        ensures value { result.now ≡ self.now }
        ensures limit { length result.now ≤ piece_limit }
    {
        self.text.as_slice()
    }

    fn clear(&mut self)
        ensures { self.new ≡ [] }
    {
        self.text.truncate(0);
    }

    /// Adds the line of an event, if it fits.
    fn add(&mut self, event: Event) -> bool
        ensures fits { IsTrue result
            ↔ (length (self.old ++ event_line event ++ 10 ∷ []) ≤ piece_limit) }
        ensures text { self.new
            ≡ (if result then self.old ++ event_line event ++ 10 ∷ [] else self.old) }
        ensures short { length (event_line event ++ 10 ∷ []) ≤ line_room }
    {
        let len = self.text.len();
        put_line(&mut self.text, event);
        if self.text.len() <= Self::LIMIT {
            return true;
        }
        self.text.truncate(len);
        false
    }
}

/// Replaces a piece by the lines of the events from this index on, counted from 0: as many whole
/// lines as fit. Answers the index of the event after them. It takes no memory.
pub fn write_piece(trace: &Trace, from: u64, into: &mut Piece) -> u64
    requires { from ≤ length trace.now.items }
    ensures piece { IsPiece trace.now.items from result into.new }

    // Where an event is left, the next piece has one at least.
    ensures end { (result ≡ from) ↔ (from ≡ length trace.now.items) }

    // What was written before and this piece are the text up to the event that is answered.
    ensures so_far { events_text (take from trace.now.items) ++ into.new
        ≡ events_text (take result trace.now.items) }
{
    into.clear();
    let mut next = from;
    for event in trace.events_from(from) {
        if !into.add(*event) {
            return next;
        }
        next += 1;
    }
    next
}

/// The pieces from the first event on, one after the other, are what `write_events` gives.
pub fn pieces_of_events()
    ensures { PiecesAreText }
{}
