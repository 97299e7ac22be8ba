//! What clap is told of the words of each command.

ghost use Rattle.std.specs.Prelude.{◌≡◌, ◌≢◌, false, [], IfOk, MatchOption, map, string_bytes};
ghost use Rattle.clap.specs.Words.{app_of, fault_of, rule_of, subcommand_of, subcommand_rows_of};
ghost use Rattle.vs_command.specs.Parser.{files_rule, needed_rule, no_verbs, verb_app, with_rule_if, with_verb, words_app};

use crate::verb::Verb;
use clap::error::ErrorKind;
use clap::{Arg, ArgAction, ArgMatches, Command};
use std::alloc::{AllocError, Global};
use vs_base::NoMemory;

/// The name by which clap knows the word after the verb.
pub const FIRST: &str = "first";

/// And the one after that.
pub const SECOND: &str = "second";

/// And those after them.
const FILES: &str = "files";

/// A word that must be there.
fn needed<'a>(alloc: Global, id: &'a str) -> Arg<'a>
    ensures rule { rule_of result ≡ needed_rule id.entry.now }
    ensures local { result.global ≡ false }
{
    Arg::new(alloc, id).required(true)
}

fn files<'a>(alloc: Global) -> Arg<'a>
    ensures rule { rule_of result ≡ files_rule }
    ensures local { result.global ≡ false }
{
    Arg::new(alloc, FILES).action(ArgAction::Append)
}

fn with_arg_if<'a>(
    command: Command<'a>,
    holds: bool,
    arg: Arg<'a>,
) -> Result<Command<'a>, AllocError>
    requires { arg.global ≡ false }
    ensures { IfOk result (λ c.
        app_of c ≡ with_rule_if holds (rule_of arg.entry) (app_of command.entry)) }
{
    if holds { command.arg(arg) } else { Ok(command) }
}

/// The words of one verb.
fn verb_command<'a>(alloc: Global, verb: Verb) -> Result<Command<'a>, AllocError>
    ensures { IfOk result (λ c. app_of c ≡ verb_app verb) }
{
    let command = Command::new(alloc, verb.name()).arg(needed(alloc, FIRST))?;
    let command = with_arg_if(command, verb.takes_second(), needed(alloc, SECOND))?;
    with_arg_if(command, verb.takes_files(), files(alloc))
}

fn with_verb<'a>(alloc: Global, command: Command<'a>, verb: Verb) -> Result<Command<'a>, AllocError>
    ensures { IfOk result (λ c. app_of c ≡ with_verb (app_of command.entry) verb) }
{
    let added = verb_command(alloc, verb)?;
    command.subcommand(added)
}

fn no_verbs<'a>(alloc: Global) -> Command<'a>
    ensures { app_of result ≡ no_verbs }
{
    Command::new(alloc, "vshard")
        .no_binary_name(true)
        .disable_help_flag(true)
        .disable_help_subcommand(true)
        .subcommand_required(true)
}

/// The words of all verbs.
fn words_command<'a>(alloc: Global) -> Result<Command<'a>, AllocError>
    ensures { IfOk result (λ c. app_of c ≡ words_app) }
{
    let run = with_verb(alloc, no_verbs(alloc), Verb::Run)?;
    let play = with_verb(alloc, run, Verb::Play)?;
    let generate = with_verb(alloc, play, Verb::Gen)?;
    let reads = with_verb(alloc, generate, Verb::Reads)?;
    let plan = with_verb(alloc, reads, Verb::Plan)?;
    let audit = with_verb(alloc, plan, Verb::Audit)?;
    with_verb(alloc, audit, Verb::Info)
}

/// What clap makes of the words, or nothing where it refuses them.
pub fn matches_of<'a>(
    alloc: Global,
    words: &'a [String],
) -> Result<Option<ArgMatches<'a>>, NoMemory>
    ensures { IfOk result (λ found. MatchOption found
        (fault_of words_app (map string_bytes words.entry.now) ≢ [])
        (λ m. (fault_of words_app (map string_bytes words.entry.now) ≡ [])
        × (subcommand_rows_of m ≡ subcommand_of words_app (map string_bytes words.entry.now)))) }
{
    let command = words_command(alloc)?;
    match command.try_get_matches_from(words) {
        Ok(matches) => Ok(Some(matches)),
        Err(error) => {
            if error.kind() == ErrorKind::OutOfMemory {
                Err(NoMemory)
            } else {
                Ok(None)
            }
        }
    }
}
