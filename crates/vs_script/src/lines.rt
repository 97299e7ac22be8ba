//! The lines of a text, read one after the other.

ghost use Rattle.std.specs.Prelude.{◌≡◌, ◌+◌, option_map};
ghost use Rattle.std.specs.Str.Lines.{lines};
ghost use Rattle.vs_text.specs.Lines.{words_in};
ghost use Rattle.vs_script.specs.Given.{MayFind};
ghost use Rattle.vs_script.specs.Lines.{is_skipped};
ghost use Rattle.vs_script.specs.Reading.{at_line, first_entry, line_words};

use crate::fault::{ScriptFault, ScriptKind};
use std::marker::Model;
use vs_text::{TextFault, check_line, first_line, next_word};

/// The lines of a text that are still to be read. Contracts see how many were read, and the
/// others.
#[derive(Drop)]
pub(crate) struct Lines<'a> {
    read: u32,
    rest: &'a [u8],
}

impl<'a> Model for Lines<'a> {
    ghost use Rattle.std.specs.Prelude.{ℕ, List};
    ghost use Rattle.std.specs.Str.Lines.{lines};

    ghost Value = { ℕ × List (List ℕ) };

    ghost view = { λ l. (l.read, lines l.rest.now) };
}

/// Tests the bytes and the words of a line of this number, also of one that is skipped.
fn check(line: &[u8], number: u32) -> Result<(), ScriptFault>
    ensures { MayFind (λ _. words_in line.now) result (at_line number (line_words line.now)) }
{
    match check_line(line, number) {
        Ok(()) => Ok(()),
        Err(TextFault::BadByte(line)) => Err(ScriptKind::BadByte.at(line)),
        Err(TextFault::LongWord(line)) => Err(ScriptKind::LongWord.at(line)),
        Err(TextFault::NoMemory) => Err(ScriptFault::NoMemory),
    }
}

fn is_skipped(line: &[u8]) -> bool
    ensures { result ≡ is_skipped (words_in line.now) }
{
    match next_word(line) {
        Some((word, _)) => matches!(word, [b'#', ..]),
        None => true,
    }
}

impl<'a> Lines<'a> {
    pub(crate) fn of(text: &'a [u8]) -> Lines<'a>
        ensures { result ≡ (0, lines text.now) }
    {
        Lines {
            read: 0,
            rest: text,
        }
    }

    /// How many lines were read, which is the number of the last one.
    pub(crate) fn number(&self) -> u32
        ensures { result ≡ self.now.0 }
    {
        self.read
    }

    /// The next line that isn't skipped, if there is one.
    pub(crate) fn next(&mut self) -> Result<Option<&'a [u8]>, ScriptFault>
        ensures { MayFind (option_map (λ line. (self.new.0, words_in line.now, self.new.1))) result
            (first_entry (self.old.0 + 1) self.old.1) }
    {
        while let Some((line, rest)) = first_line(self.rest) {
            if self.read == u32::MAX {
                return Err(ScriptFault::NoMemory);
            }
            self.read += 1;
            self.rest = rest;
            check(line, self.read)?;
            if !is_skipped(line) {
                return Ok(Some(line));
            }
        }
        Ok(None)
    }
}
