//! The calls of the clients.

ghost use Rattle.std.specs.Prelude.{◌++◌, codes, OnOk};
ghost use Rattle.std.specs.List.{flat_map, enumerate_from};
ghost use Rattle.vs_calls.specs.Outcomes.{outcome, outcomes};
ghost use Rattle.vs_machine.specs.Report.{lines, outcome_text, numbered_line, call_lines, numbers_to};
ghost use Rattle.vs_state.specs.Plain.{plain, client};
ghost use Rattle.vs_report.specs.Adds.{Adds};

use crate::lines::{put_numbers, put_open};
use crate::outcomes::put_outcome;
use crate::words::put_text;
use vs_base::NoMemory;
use vs_calls::{Outcome, Stage};
use vs_state::{ClientTables, State};

/// Appends the line of an answered call.
fn put_call(out: &mut Vec<u8>, who: u64, n: u64, answer: &Outcome) -> Result<(), NoMemory>
    ensures { OnOk result (Adds out.old out.new
        (numbered_line (codes "call") who n (outcome_text (outcome answer.now)) ++ codes "\n")) }
{
    put_numbers(out, b"call", who, n)?;
    put_text(out, b" ")?;
    put_outcome(out, answer)?;
    put_text(out, b"\n")
}

/// Appends the lines of a client's answered calls.
fn put_calls(out: &mut Vec<u8>, who: u64, answers: &[Outcome]) -> Result<(), NoMemory>
    ensures { OnOk result (Adds out.old out.new
        (lines
        (λ o. numbered_line (codes "call") who o.0 (outcome_text o.1))
        (enumerate_from 1 (outcomes answers.now)))) }
{
    for (i, answer) in answers.iter().enumerate() {
        put_call(out, who, i as u64 + 1, answer)?;
    }
    Ok(())
}

/// Appends the lines of a client's calls, up to the present one where that was posted.
fn put_client(out: &mut Vec<u8>, who: u64, tables: &ClientTables) -> Result<(), NoMemory>
    ensures { OnOk result (Adds out.old out.new (call_lines who (client tables.now))) }
{
    let answers = tables.outcomes.as_slice();
    put_calls(out, who, answers)?;
    match tables.present.stage() {
        Stage::Idle => Ok(()),
        _ => put_open(out, b"call", who, answers.len() as u64 + 1),
    }
}

/// Appends the lines of the clients' calls.
pub fn put_clients(out: &mut Vec<u8>, state: &State) -> Result<(), NoMemory>
    ensures { OnOk result (Adds out.old out.new
        (flat_map (λ c. call_lines c ((plain state.now).client c)) (numbers_to (plain state.now).clients))) }
{
    for (i, tables) in state.clients.iter().enumerate() {
        put_client(out, i as u64 + 1, tables)?;
    }
    Ok(())
}
