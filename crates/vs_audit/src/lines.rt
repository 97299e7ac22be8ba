//! The lines of a report, read one after the other.

ghost use Rattle.std.specs.Prelude.{◌≡◌, ◌<◌, length, MatchResult};
ghost use Rattle.vs_text.specs.Split.{lines_of};
ghost use Rattle.vs_audit.specs.Given.{IsNext, IsEnd, MayGive};
ghost use Rattle.vs_audit.specs.Report.{begins, nothing_at};

use crate::audit_text::AuditText;
use crate::words::Words;
use std::marker::Model;
use vs_text::{next_line, split_once};

/// The lines of a text that are still to be read. Contracts see the number of the first, and what
/// stands between their line feeds.
#[derive(Drop)]
pub(crate) struct Lines<'a> {
    number: u32,
    rest: &'a [u8],
}

impl<'a> Model for Lines<'a> {
    ghost use Rattle.vs_text.specs.Split.{lines_of};
    ghost use Rattle.vs_audit.specs.Report.{Rest};

    ghost Value = { Rest };

    ghost view = { λ l. record { number = l.number; lines = lines_of l.rest.now } };
}

/// A line.
#[derive(Drop)]
pub(crate) struct Line<'a> {
    pub number: u32,
    pub words: Words<'a>,
}

impl<'a> Lines<'a> {
    pub(crate) fn of(text: &'a [u8]) -> Lines<'a>
        ensures { result ≡ record { number = 1; lines = lines_of text.now } }
    {
        Lines {
            number: 1,
            rest: text,
        }
    }

    /// The next line. What follows the last line feed is none.
    pub(crate) fn next(&mut self) -> Result<Line<'a>, AuditText>
        ensures { MatchResult result (λ line. IsNext self.old line.number line.words self.new)
            (λ fault. IsEnd fault self.old) }
    {
        let number = self.number;
        match next_line(self.rest) {
            Some((line, rest)) => {
                if number == u32::MAX {
                    return Err(AuditText::NoMemory);
                }
                self.number = number + 1;
                self.rest = rest;
                Ok(Line {
                    number,
                    words: Words::of(line),
                })
            }
            None => Err(AuditText::Bad(number)),
        }
    }

    /// Whether the next line begins with this word.
    pub(crate) fn begin(&self, name: &[u8]) -> bool
        ensures { result ≡ begins name.now self.now }
    {
        match next_line(self.rest) {
            Some((line, _)) => {
                let mut words = Words::of(line);
                words.passes_word(name)
            }
            None => false,
        }
    }

    /// Nothing stands behind the last line feed.
    pub(crate) fn end(&self) -> Result<(), AuditText>
        ensures { MayGive (λ x. x) result (nothing_at self.now) }
    {
        match next_line(self.rest) {
            Some(_) => Err(AuditText::Bad(self.number)),
            None => {
                if self.rest.is_empty() {
                    Ok(())
                } else {
                    Err(AuditText::Bad(self.number))
                }
            }
        }
    }
}
