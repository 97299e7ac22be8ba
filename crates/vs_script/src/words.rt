//! The words of a line, read one after the other.

ghost use Rattle.std.specs.Prelude.{◌≡◌, ◌≤◌, [], ◌∷◌, MatchOption};
ghost use Rattle.vs_text.specs.Lines.{words_in};
ghost use Rattle.vs_script.specs.Given.{Takes, MayTake};
ghost use Rattle.vs_script.specs.Words.{word_at, end_at, key_at, value_at, number_at, number_to, bucket_at, set_at, client_at};

use crate::fault::ScriptKind;
use crate::line_fault::LineFault;
use std::alloc::Global;
use std::marker::Model;
use vs_base::{BucketId, ClientNo, SetNo};
use vs_rows::{Key, RowFault, Val};
use vs_text::next_word;

/// The words of a line that are still to be read.
#[derive(Drop)]
pub(crate) struct Words<'a> {
    rest: &'a [u8],
}

impl<'a> Model for Words<'a> {
    ghost use Rattle.std.specs.Prelude.{ℕ, List};
    ghost use Rattle.vs_text.specs.Lines.{words_in};

    ghost Value = { List (List ℕ) };

    ghost view = { λ w. words_in w.rest.now };
}

impl<'a> Words<'a> {
    pub(crate) fn of(line: &'a [u8]) -> Words<'a>
        ensures { result ≡ words_in line.now }
    {
        Words { rest: line }
    }

    /// The next word, if one is left.
    pub(crate) fn next(&mut self) -> Option<&'a [u8]>
        ensures { MatchOption result (self.old ≡ []) (λ word. self.old ≡ word.now ∷ self.new) }
    {
        let (word, rest) = next_word(self.rest)?;
        self.rest = rest;
        Some(word)
    }

    pub(crate) fn word(&mut self) -> Result<&'a [u8], ScriptKind>
        ensures { Takes (λ x. x.now) result self.new (word_at self.old) }
    {
        self.next().ok_or(ScriptKind::BadWord)
    }

    /// No word is left.
    pub(crate) fn end(&self) -> Result<(), ScriptKind>
        ensures { result ≡ end_at self.now }
    {
        match next_word(self.rest) {
            Some(_) => Err(ScriptKind::BadWord),
            None => Ok(()),
        }
    }

    pub(crate) fn key(&mut self, alloc: Global) -> Result<Key, LineFault>
        ensures { MayTake (λ x. x) result self.new (key_at self.old) }
    {
        let word = self.word()?;
        match Key::new(alloc, word) {
            Ok(key) => Ok(key),
            Err(RowFault::BadText) => Err(LineFault::Bad(ScriptKind::BadWord)),
            Err(RowFault::NoMemory) => Err(LineFault::NoMemory),
        }
    }

    pub(crate) fn value(&mut self, alloc: Global) -> Result<Val, LineFault>
        ensures { MayTake (λ x. x) result self.new (value_at self.old) }
    {
        let word = self.word()?;
        match Val::new(alloc, word) {
            Ok(value) => Ok(value),
            Err(RowFault::BadText) => Err(LineFault::Bad(ScriptKind::BadWord)),
            Err(RowFault::NoMemory) => Err(LineFault::NoMemory),
        }
    }

    pub(crate) fn number(&mut self) -> Result<u32, ScriptKind>
        ensures { Takes (λ x. x) result self.new (number_at self.old) }
    {
        let word = self.word()?;
        match vs_text::number(word) {
            Some(number) => Ok(number),
            None => Err(ScriptKind::BadNumber),
        }
    }

    /// A number from 1 to the most, and this fault else.
    pub(crate) fn number_to(&mut self, most: u32, fault: ScriptKind) -> Result<u32, ScriptKind>
        ensures { Takes (λ x. x) result self.new (number_to most fault self.old) }
    {
        let number = self.number()?;
        if number >= 1 && number <= most {
            Ok(number)
        } else {
            Err(fault)
        }
    }

    /// One of so many buckets.
    pub(crate) fn bucket(&mut self, buckets: u32) -> Result<BucketId, ScriptKind>
        ensures { Takes (λ x. x) result self.new (bucket_at buckets self.old) }
    {
        let most = buckets.min(BucketId::MAX);
        let number = self.number_to(most, ScriptKind::BadBucket)?;
        match BucketId::new(number) {
            Some(bucket) => Ok(bucket),
            None => Err(ScriptKind::BadBucket),
        }
    }

    /// One of so many sets.
    pub(crate) fn set(&mut self, sets: u32) -> Result<SetNo, ScriptKind>
        requires { sets ≤ 32 }
        ensures { Takes (λ x. x) result self.new (set_at sets self.old) }
    {
        let number = self.number_to(sets, ScriptKind::BadSet)?;
        match SetNo::new(number as u8) {
            Some(set) => Ok(set),
            None => Err(ScriptKind::BadSet),
        }
    }

    pub(crate) fn client(&mut self) -> Result<ClientNo, ScriptKind>
        ensures { Takes (λ x. x) result self.new (client_at self.old) }
    {
        let most = u32::from(ClientNo::MAX);
        let number = self.number_to(most, ScriptKind::BadClient)?;
        match ClientNo::new(number as u8) {
            Some(client) => Ok(client),
            None => Err(ScriptKind::BadClient),
        }
    }
}
