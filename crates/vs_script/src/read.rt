//! Scripts from their texts.

ghost use Rattle.std.specs.Prelude.{◌≡◌, ◌≢◌, ◌≤◌, ◌+◌, Ok, Err, length, IfOk, IfErr};
ghost use Rattle.vs_script.specs.Calls.{calls};
ghost use Rattle.vs_script.specs.Given.{MayFind};
ghost use Rattle.vs_script.specs.Lawful.{IsLawfulScript};
ghost use Rattle.vs_script.specs.Lines.{call_of, command_of};
ghost use Rattle.vs_script.specs.Reading.{entries_of, reading_of};
ghost use Rattle.vs_script.specs.Scripts.{script};

use crate::call::{Call, Calls};
use crate::command::{Command, Commands};
use crate::fault::{ScriptFault, ScriptKind};
use crate::header::Header;
use crate::lines::Lines;
use crate::script::Script;
use std::alloc::Global;
use vs_config::Config;

/// The calls of all lines that are left.
fn read_calls(alloc: Global, lines: &mut Lines, buckets: u32) -> Result<Calls, ScriptFault>
    ensures { MayFind (λ c. calls c.items) result
        (entries_of (call_of buckets) (lines.old.0 + 1) lines.old.1) }
{
    let mut calls = Calls::new(alloc);
    while let Some(line) = lines.next()? {
        match Call::read(alloc, line, buckets) {
            Ok(call) => {
                calls.reserve()?;
                calls.push(call);
            }
            Err(fault) => return Err(fault.at(lines.number())),
        }
    }
    Ok(calls)
}

/// The commands of all lines that are left.
fn read_commands(
    alloc: Global,
    lines: &mut Lines,
    buckets: u32,
    sets: u32,
) -> Result<Commands, ScriptFault>
    requires { sets ≤ 32 }
    ensures { MayFind (λ c. c.items) result
        (entries_of (command_of buckets sets) (lines.old.0 + 1) lines.old.1) }
{
    let mut commands = Commands::new(alloc);
    while let Some(line) = lines.next()? {
        match Command::read(line, buckets, sets) {
            Ok(command) => {
                commands.reserve()?;
                commands.push(command);
            }
            Err(kind) => return Err(kind.at(lines.number())),
        }
    }
    Ok(commands)
}

/// The script of a text, over so many buckets and sets.
fn script_in(alloc: Global, text: &[u8], buckets: u32, sets: u32) -> Result<Script, ScriptFault>
    requires { sets ≤ 32 }
    ensures { MayFind script result (reading_of buckets sets text.now) }
{
    let mut lines = Lines::of(text);
    let Some(line) = lines.next()? else {
        return Err(ScriptKind::BadHeader.at(1));
    };
    match Header::read(line) {
        Ok(Header::Client) => {
            let calls = read_calls(alloc, &mut lines, buckets)?;
            Ok(Script::Client(calls))
        }
        Ok(Header::Operator) => {
            let commands = read_commands(alloc, &mut lines, buckets, sets)?;
            Ok(Script::Operator(commands))
        }
        Err(kind) => Err(kind.at(lines.number())),
    }
}

/// Reads a script over the buckets and sets of a configuration.
///
/// A line ends with LF, or with CR and LF, and the last one may lack its end. Its words are
/// separated by spaces and tabs. A line without a word is skipped, and so is one whose first word
/// begins with `#`. The first other line is `client` or `operator` alone.
///
/// A client's other lines are its calls, `ro B OPS` or `rw B OPS`: a bucket, and 1 to 16 operations
/// with the word `;` between them. They are `get K`, `put K V`, `insert K V`, `delete K`,
/// `swap K OLD NEW`, `count` and `scan K N`, where N is 1 to 100; a call that is `ro` may only
/// `get`, `count` and `scan`. An operator's other lines are its commands: `send B S D`, `pin B S`,
/// `unpin B S`, `close S D` with two sets, `cut C L`, `stop S`, `restart S` and `balance`. A number
/// is written with 1 to 9 digits and may begin with zeros. L may be any, since only gathering shows
/// whether the call is there.
///
/// The fault is that of the first bad line, skipped lines included: a bad byte, else a long word,
/// else the header, else the first from left to right. At the word of an operation that is
/// `BadWord` where it is unknown, then `WriteInRo`, then `TooManyOps`, and only then what follows it.
/// A `;` where a key or a value is to stand is `BadWord`, and where a number is, `BadNumber`. A
/// text whose lines are all skipped is `BadHeader` at line 1. A text of 2^32 lines or more wants
/// memory.
pub fn read_script(alloc: Global, text: &[u8], config: &Config) -> Result<Script, ScriptFault>
    // The script is the one that the text gives.
    ensures ok { IfOk result (λ s.
        reading_of config.now.bucket_count (length config.now.sets.items) text.now ≡ Ok (script s)) }

    // The fault is that of the first bad line.
    ensures fault { IfErr result (λ e. e ≢ ScriptFault.NoMemory →
        reading_of config.now.bucket_count (length config.now.sets.items) text.now ≡ Err e) }

    // Each call and each command is lawful.
    ensures lawful { IfOk result (λ s.
        IsLawfulScript config.now.bucket_count (length config.now.sets.items) (script s)) }
{
    script_in(alloc, text, config.bucket_count, config.sets.len() as u32)
}
