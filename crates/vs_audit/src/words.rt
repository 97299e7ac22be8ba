//! The words of a line of a report, read one after the other.

ghost use Rattle.std.specs.Prelude.{◌≡◌, ◌≤◌, [], ◌∷◌, MatchOption, IfOk, Some, None, false, if◌then◌else◌};
ghost use Rattle.vs_audit.specs.Given.{MayTake, MayFollow, MayTell};
ghost use Rattle.vs_audit.specs.Words.{word_at, past_word, after_word, end_at, number_at, past_number, any_number, count_at, key_at, value_at, id_at};

use crate::line_fault::LineFault;
use std::alloc::Global;
use std::marker::Model;
use vs_base::{CallId, ClientNo};
use vs_rows::{Key, RowFault, Val};
use vs_text::{number_between, split_once};

/// The words of a line that are still to be read. One space stands between two of them.
#[derive(Drop)]
pub(crate) struct Words<'a> {
    rest: Option<&'a [u8]>,
}

impl<'a> Model for Words<'a> {
    ghost use Rattle.std.specs.Prelude.{ℕ, List, []};
    ghost use Rattle.std.specs.Option.{option_map_or};
    ghost use Rattle.vs_text.specs.Split.{words_of};

    ghost Value = { List (List ℕ) };

    ghost view = { λ w. option_map_or (λ r. words_of r.now) w.rest [] };
}

impl<'a> Words<'a> {
    ghost use Rattle.vs_text.specs.Split.{words_of};

    pub(crate) fn of(line: &'a [u8]) -> Words<'a>
        ensures { result ≡ words_of line.now }
    {
        Words { rest: Some(line) }
    }

    /// The next word, if one is left.
    pub(crate) fn next(&mut self) -> Option<&'a [u8]>
        ensures { MatchOption result ((self.old ≡ []) × (self.new ≡ [])) (λ word. self.old ≡ word.now ∷ self.new) }
    {
        let line = self.rest?;
        match split_once(line, b' ') {
            Some((word, rest)) => {
                self.rest = Some(rest);
                Some(word)
            }
            None => {
                self.rest = None;
                Some(line)
            }
        }
    }

    pub(crate) fn word(&mut self) -> Result<&'a [u8], LineFault>
        ensures { MayTake (λ x. x.now) result self.new (word_at self.old) }
    {
        self.next().ok_or(LineFault::Bad)
    }

    pub(crate) fn key(&mut self, alloc: Global) -> Result<Key, LineFault>
        ensures { MayTake (λ x. x) result self.new (key_at self.old) }
    {
        let word = self.word()?;
        match Key::new(alloc, word) {
            Ok(key) => Ok(key),
            Err(RowFault::BadText) => Err(LineFault::Bad),
            Err(RowFault::NoMemory) => Err(LineFault::NoMemory),
        }
    }

    pub(crate) fn value(&mut self, alloc: Global) -> Result<Val, LineFault>
        ensures { MayTake (λ x. x) result self.new (value_at self.old) }
    {
        let word = self.word()?;
        match Val::new(alloc, word) {
            Ok(value) => Ok(value),
            Err(RowFault::BadText) => Err(LineFault::Bad),
            Err(RowFault::NoMemory) => Err(LineFault::NoMemory),
        }
    }

    /// Passes over this word.
    pub(crate) fn after(&mut self, wanted: &[u8]) -> Result<(), LineFault>
        ensures { MayFollow result self.new (after_word wanted.now self.old) }
    {
        let word = self.word()?;
        if word == wanted {
            Ok(())
        } else {
            Err(LineFault::Bad)
        }
    }

    /// No word is left.
    pub(crate) fn end(&mut self) -> Result<(), LineFault>
        ensures { MayTell (λ x. x) result (end_at self.old) }
    {
        match self.next() {
            Some(_) => Err(LineFault::Bad),
            None => Ok(()),
        }
    }

    /// A number of this range, without leading zeros.
    pub(crate) fn number(&mut self, least: u64, most: u64) -> Result<u64, LineFault>
        ensures read { MayTake (λ x. x) result self.new (number_at least most self.old) }
        ensures range { IfOk result (λ n. (least ≤ n) × (n ≤ most)) }
    {
        let word = self.word()?;
        match number_between(word, least, most) {
            Some(number) => Ok(number),
            None => Err(LineFault::Bad),
        }
    }

    pub(crate) fn any_number(&mut self) -> Result<u64, LineFault>
        ensures { MayTake (λ x. x) result self.new (any_number self.old) }
    {
        self.number(0, u64::MAX)
    }

    /// A number of 32 bits.
    pub(crate) fn count(&mut self) -> Result<u64, LineFault>
        ensures { MayTake (λ x. x) result self.new (count_at self.old) }
    {
        self.number(0, u64::from(u32::MAX))
    }

    /// A call: its client, and its number from 1.
    pub(crate) fn id(&mut self) -> Result<CallId, LineFault>
        ensures { MayTake (λ x. x) result self.new (id_at self.old) }
    {
        let client = self.number(1, u64::from(ClientNo::MAX))?;
        let call = self.number(1, u64::from(u32::MAX))?;
        match ClientNo::new(client as u8) {
            Some(client) => Ok(CallId {
                client,
                call: call as u32,
            }),
            None => Err(LineFault::Bad),
        }
    }

    /// Passes over this word, if it stands next. Else nothing is read.
    pub(crate) fn passes_word(&mut self, wanted: &[u8]) -> bool
        ensures past { past_word wanted.now self.old ≡ (if result then Some self.new else None) }
        ensures same { result ≡ false → self.new ≡ self.old }
    {
        let mut rest = Words { rest: self.rest };
        match rest.next() {
            Some(word) if word == wanted => {
                *self = rest;
                true
            }
            _ => false,
        }
    }

    /// Passes over this number, if it stands next. Else nothing is read.
    pub(crate) fn passes(&mut self, number: u64) -> bool
        ensures past { past_number number self.old ≡ (if result then Some self.new else None) }
        ensures same { result ≡ false → self.new ≡ self.old }
    {
        let mut rest = Words { rest: self.rest };
        let Some(word) = rest.next() else {
            return false;
        };
        match number_between(word, number, number) {
            Some(_) => {
                *self = rest;
                true
            }
            None => false,
        }
    }
}
