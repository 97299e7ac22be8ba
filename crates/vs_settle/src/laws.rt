//! What holds of every run, of calls and commands that are all answered.

ghost use Rattle.vs_settle.specs.Quiet.{QuietRuns};

use vs_machine::{due_answers, every_event};

/// Where every call and every command is answered, no transfer and no call is under way.
pub fn finished_is_quiet()
    ensures { QuietRuns }
{
    every_event();
    due_answers();
}
