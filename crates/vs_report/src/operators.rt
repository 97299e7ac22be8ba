//! The commands of the operators.

ghost use Rattle.std.specs.Prelude.{◌≡◌, ◌++◌, codes, OnOk};
ghost use Rattle.std.specs.List.{flat_map, enumerate_from};
ghost use Rattle.vs_machine.specs.Report.{lines, command_text, numbered_line, command_lines, is_open, numbers_to};
ghost use Rattle.vs_state.specs.Plain.{plain, operator};
ghost use Rattle.vs_report.specs.Adds.{Adds};

use crate::lines::{put_numbers, put_open};
use crate::outcomes::put_command_outcome;
use crate::words::put_text;
use vs_base::NoMemory;
use vs_machine::CommandOutcome;
use vs_state::{OperatorTables, State};

/// Appends the line of an answered command.
fn put_command(out: &mut Vec<u8>, who: u64, n: u64, answer: CommandOutcome) -> Result<(), NoMemory>
    ensures { OnOk result (Adds out.old out.new
        (numbered_line (codes "command") who n (command_text answer) ++ codes "\n")) }
{
    put_numbers(out, b"command", who, n)?;
    put_text(out, b" ")?;
    put_command_outcome(out, answer)?;
    put_text(out, b"\n")
}

/// Appends the lines of an operator's answered commands.
fn put_commands(out: &mut Vec<u8>, who: u64, answers: &[CommandOutcome]) -> Result<(), NoMemory>
    ensures { OnOk result (Adds out.old out.new
        (lines
        (λ c. numbered_line (codes "command") who c.0 (command_text c.1))
        (enumerate_from 1 answers.now))) }
{
    for (i, answer) in answers.iter().enumerate() {
        put_command(out, who, i as u64 + 1, *answer)?;
    }
    Ok(())
}

/// Whether the next command moves a bucket or has a round.
fn is_open(tables: &OperatorTables) -> bool
    ensures { result ≡ is_open (operator tables.now) }
{
    tables.moving || tables.rounds > 0
}

/// Appends the lines of an operator's commands, up to the next one where that moves a bucket or has a round.
fn put_operator(out: &mut Vec<u8>, who: u64, tables: &OperatorTables) -> Result<(), NoMemory>
    ensures { OnOk result (Adds out.old out.new (command_lines who (operator tables.now))) }
{
    let answers = tables.outcomes.as_slice();
    put_commands(out, who, answers)?;
    if is_open(tables) {
        put_open(out, b"command", who, answers.len() as u64 + 1)
    } else {
        Ok(())
    }
}

/// Appends the lines of the operators' commands.
pub fn put_operators(out: &mut Vec<u8>, state: &State) -> Result<(), NoMemory>
    ensures { OnOk result (Adds out.old out.new
        (flat_map
        (λ k. command_lines k ((plain state.now).operator k))
        (numbers_to (plain state.now).operators))) }
{
    for (i, tables) in state.operators.iter().enumerate() {
        put_operator(out, i as u64 + 1, tables)?;
    }
    Ok(())
}
