//! The lines of calls and of commands.

ghost use Rattle.std.specs.Prelude.{◌<◌, IfOk, map};
ghost use Rattle.vs_audit.specs.Account.{call};
ghost use Rattle.vs_audit.specs.Given.{MayRead, MayPass};
ghost use Rattle.vs_audit.specs.Legal.{number_of, IsRising};
ghost use Rattle.vs_audit.specs.Report.{call_at, calls_at, command_at, commands_at};

use crate::account::{CallLine, CallLines};
use crate::audit_text::AuditText;
use crate::doubles::number_of;
use crate::line_fault::told;
use crate::line_kinds::{call_line, command_line};
use crate::lines::Lines;
use std::alloc::Global;

fn call(alloc: Global, lines: &mut Lines, sets: u32, last: u64) -> Result<CallLine, AuditText>
    ensures read { MayRead call result lines.new (call_at sets last lines.old) }
    ensures above { IfOk result (λ c. last < number_of c.id) }
{
    let mut line = lines.next()?;
    let number = line.number;
    told(
        number,
        call_line(alloc, &mut line.words, sets, last, number),
    )
}

/// The lines of calls, by rising client and then call.
pub(crate) fn calls(alloc: Global, lines: &mut Lines, sets: u32) -> Result<CallLines, AuditText>
    ensures read { MayRead (λ calls. map call calls.items) result lines.new (calls_at sets lines.old) }
    ensures rising { IfOk result (λ calls. IsRising (map call calls.items)) }
{
    let mut calls = CallLines::new(alloc);
    let mut last = 0;
    while lines.begin(b"call") {
        let call = call(alloc, lines, sets, last)?;
        last = number_of(call.id);
        calls.reserve()?;
        calls.push(call);
    }
    Ok(calls)
}

fn command(lines: &mut Lines, sets: u32, last: u64) -> Result<u64, AuditText>
    ensures { MayRead (λ x. x) result lines.new (command_at sets last lines.old) }
{
    let mut line = lines.next()?;
    let read = command_line(&mut line.words, sets, last);
    told(line.number, read)
}

/// Passes over the lines of commands, by rising operator and then command.
pub(crate) fn commands(lines: &mut Lines, sets: u32) -> Result<(), AuditText>
    ensures { MayPass result lines.new (commands_at sets lines.old) }
{
    let mut last = 0;
    while lines.begin(b"command") {
        let number = command(lines, sets, last)?;
        last = number;
    }
    Ok(())
}
