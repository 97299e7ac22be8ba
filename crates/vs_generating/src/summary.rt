//! The summary: five lines.

ghost use Rattle.std.specs.Prelude.{◌≡◌, ◌≤◌, ◌++◌, length, IfOk, OnOk};
ghost use Rattle.vs_generating.specs.Summary.{active_text, summary_text};
ghost use Rattle.vs_machine.specs.Inputs.{HasFew};
ghost use Rattle.vs_machine.specs.Laws.{IsWithinScripts};
ghost use Rattle.vs_machine.specs.Report.{number};
ghost use Rattle.vs_report.specs.Adds.{Adds};
ghost use Rattle.vs_state.specs.Plain.{plain};
ghost use Rattle.vs_state.specs.Sized.{IsSized, OnlyItsBuckets};

use crate::counts::{answered, moves, rounds};
use std::alloc::Global;
use vs_base::{NoMemory, SetNo};
use vs_event::Event;
use vs_space::StatusKind;
use vs_state::State;
use vs_text::put_number;

/// Appends a text and, behind a blank, a number.
fn put_count(out: &mut Vec<u8>, text: &[u8], count: u64) -> Result<(), NoMemory>
    ensures { OnOk result (Adds out.old out.new (text.now ++ number count)) }
{
    out.extend_from_slice(text)?;
    out.push(b' ')?;
    put_number(out, count)
}

/// Appends how many buckets each set has active.
fn put_active(out: &mut Vec<u8>, state: &State) -> Result<(), NoMemory>
    requires sized { IsSized state.now }
    requires buckets { OnlyItsBuckets (plain state.now) }
    requires few { length state.now.sets.items ≤ 32 }
    ensures { OnOk result (Adds out.old out.new (active_text (plain state.now))) }
{
    for i in 0..state.sets.len() {
        let Some(set) = SetNo::new(i as u8 + 1) else {
            unreachable!()
        };
        put_count(out, b"", u64::from(state.count(set, StatusKind::Active)))?;
    }
    Ok(())
}

/// The summary of a run of a number, that led to this state by these events.
pub(crate) fn summary(
    alloc: Global,
    number: u32,
    state: &State,
    events: &[Event],
) -> Result<Vec<u8>, NoMemory>
    requires sized { IsSized state.now }
    requires buckets { OnlyItsBuckets (plain state.now) }
    requires sets { length state.now.sets.items ≤ 32 }
    requires few { HasFew (plain state.now) }
    requires within { IsWithinScripts (plain state.now) }
    ensures { IfOk result (λ text. text.items ≡ summary_text number (plain state.now) events.now) }
{
    let mut out = Vec::new(alloc);
    put_count(&mut out, b"gen", u64::from(number))?;
    out.extend_from_slice(b"\nsets 4 buckets 3000\ncounts")?;
    put_active(&mut out, state)?;
    put_count(&mut out, b"\nrounds", u64::from(rounds(state)))?;
    put_count(&mut out, b" moved", moves(events) as u64)?;
    put_count(&mut out, b"\ncalls 20000 answered", answered(state))?;
    out.push(b'\n')?;
    Ok(out)
}
