//! The words of a command as clap reads them.

ghost use Rattle.std.specs.Prelude.{◌≡◌, ◌≤◌, [], true, drop, length, IfOk, map, option_map, Some, string_bytes};
ghost use Rattle.std.specs.List.{list_all};
ghost use Rattle.clap.specs.Words.{fault_of, subcommand_of, subcommand_rows_of};
ghost use Rattle.vs_command.specs.Line.{before_files, line, line_in};
ghost use Rattle.vs_command.specs.Parser.{words_app};
ghost use Rattle.vs_command.specs.Word.{is_plain};

use crate::parser::{FIRST, SECOND, matches_of};
use crate::verb::Verb;
use clap::ArgMatches;
use std::alloc::Global;
use vs_base::NoMemory;

/// A verb, the one word or the two that must follow it, and the files after them.
#[derive(Clone, Copy)]
pub struct Line<'a> {
    pub verb: Verb,
    pub first: &'a str,
    pub second: Option<&'a str>,
    pub files: &'a [String],
}

/// The words after the verb and the word or the two that must be there.
fn files_after<'a>(words: &'a [String], two: bool) -> &'a [String]
    requires { before_files two ≤ length words.now }
    ensures { result.now ≡ drop (before_files two) words.now }
{
    if two { &words[3..] } else { &words[2..] }
}

/// What clap's matches of the words tell. The files are the words that are left.
fn line_of<'a>(matches: &ArgMatches<'a>, words: &'a [String]) -> Line<'a>
    requires plain { list_all is_plain (map string_bytes words.now) ≡ true }
    requires taken { fault_of words_app (map string_bytes words.now) ≡ [] }
    requires rows { subcommand_rows_of matches.now
        ≡ subcommand_of words_app (map string_bytes words.now) }
    ensures { line_in (map string_bytes words.entry.now) ≡ Some (line result) }
{
    let Some((name, found)) = matches.subcommand() else {
        unreachable!()
    };
    let Some(verb) = Verb::named(name) else {
        unreachable!()
    };
    let Some(first) = found.get_str(FIRST) else {
        unreachable!()
    };
    let second = found.get_str(SECOND);
    let files = files_after(words, second.is_some());
    Line {
        verb,
        first,
        second,
        files,
    }
}

/// Reads the line of words of which none is empty or begins with a dash, where they are one.
pub fn read_line<'a>(alloc: Global, words: &'a [String]) -> Result<Option<Line<'a>>, NoMemory>
    requires { list_all is_plain (map string_bytes words.now) ≡ true }
    ensures { IfOk result (λ found.
        option_map line found ≡ line_in (map string_bytes words.entry.now)) }
{
    match matches_of(alloc, words) {
        Ok(Some(matches)) => Ok(Some(line_of(&matches, words))),
        Ok(None) => Ok(None),
        Err(NoMemory) => Err(NoMemory),
    }
}
