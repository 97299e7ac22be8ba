//! From words to a command.

ghost use Rattle.std.specs.Prelude.{◌≡◌, true, false, IfOk, IfSome, IsTrue, MatchOption, is_some, map, option_map, string_bytes};
ghost use Rattle.vs_command.specs.Command.{are_between, command, command_in, verb_of};
ghost use Rattle.vs_command.specs.Line as lines;
ghost use Rattle.vs_command.specs.Line.{command_if_built, command_of_line};
ghost use Rattle.vs_command.specs.Verb.{takes_second};
ghost use Rattle.vs_command.specs.Verbs.{has};

use crate::command::{Command, MOST_CLIENTS, MOST_FILES};
use crate::line::{Line, read_line};
use crate::verb::Verb;
use crate::verbs::Verbs;
use crate::word::{are_plain, number_in};
use std::alloc::Global;
use vs_base::NoMemory;

/// The files, where they are so many at least and so many at most.
fn files_between<'a>(files: &'a [String], least: usize, most: usize) -> Option<&'a [String]>
    ensures { MatchOption result (are_between least most (map string_bytes files.now) ≡ false)
        (λ f. (are_between least most (map string_bytes files.now) ≡ true) × (f.now ≡ files.now)) }
{
    if least <= files.len() && files.len() <= most {
        Some(files)
    } else {
        None
    }
}

/// The command of a line, where it has the files and the number that its verb wants.
fn command_of_line<'a>(line: Line<'a>) -> Option<Command<'a>>
    requires { is_some line.second ≡ takes_second line.verb }
    ensures { option_map command result ≡ command_of_line (lines.line line.entry) }
{
    let Line {
        verb,
        first,
        second,
        files,
    } = line;
    match (verb, second) {
        (Verb::Run, None) => Some(Command::Run {
            config: first,
            files: files_between(files, 0, MOST_FILES)?,
        }),
        (Verb::Play, Some(events)) => Some(Command::Play {
            config: first,
            events,
            files: files_between(files, 0, MOST_FILES)?,
        }),
        (Verb::Gen, None) => Some(Command::Gen(number_in(first)?)),
        (Verb::Reads, Some(rows)) => Some(Command::Reads {
            config: first,
            rows,
            files: files_between(files, 1, MOST_CLIENTS)?,
        }),
        (Verb::Plan, Some(counts)) => Some(Command::Plan {
            config: first,
            counts,
        }),
        (Verb::Audit, None) => Some(Command::Audit { report: first }),
        (Verb::Info, None) => Some(Command::Info { config: first }),
        _ => unreachable!(),
    }
}

/// The command of a line, where it is built.
fn built_command<'a>(verbs: Verbs, line: Line<'a>) -> Option<Command<'a>>
    requires { is_some line.second ≡ takes_second line.verb }
    ensures read { option_map command result ≡ command_if_built verbs (lines.line line.entry) }
    ensures built { IfSome result (λ c. IsTrue (has verbs (verb_of (command c)))) }
{
    if verbs.has(line.verb) {
        command_of_line(line)
    } else {
        None
    }
}

/// The command that the words after the program's name are, where its verb is among `verbs`:
/// `run CONFIG FILE...` and `play CONFIG EVENTS FILE...` with at most 80 FILE words, `gen NUMBER` with
/// one to nine digits, `reads CONFIG ROWS FILE...` with 1 to 64, `plan CONFIG COUNTS`, `audit REPORT`
/// and `info CONFIG`. No word is empty or begins with a dash.
pub fn command_of<'a>(
    alloc: Global,
    verbs: Verbs,
    words: &'a [String],
) -> Result<Option<Command<'a>>, NoMemory>
    ensures read { IfOk result (λ found.
        option_map command found ≡ command_in verbs (map string_bytes words.now)) }
    ensures built { IfOk result (λ found.
        IfSome found (λ c. IsTrue (has verbs (verb_of (command c))))) }
{
    if !are_plain(words) {
        return Ok(None);
    }
    match read_line(alloc, words) {
        Ok(Some(line)) => Ok(built_command(verbs, line)),
        Ok(None) => Ok(None),
        Err(NoMemory) => Err(NoMemory),
    }
}
