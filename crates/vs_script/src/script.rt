//! One script.

ghost use Rattle.std.specs.Prelude.{◌≡◌, IfOk};

use crate::call::{Calls, copy_calls};
use crate::command::{Commands, copy_commands};
use vs_base::NoMemory;

/// What one text tells: the calls of a client, or the commands of an operator.
#[derive(Drop)]
pub enum Script {
    Client(Calls),
    Operator(Commands),
}

impl Script {
    ghost use Rattle.vs_script.specs.Scripts.{script};

    /// A script that equals this one.
    pub fn try_clone(&self) -> Result<Script, NoMemory>
        ensures { IfOk result (λ copy. script copy ≡ script self.now) }
    {
        match self {
            Script::Client(calls) => {
                let copy = copy_calls(calls.allocator(), calls)?;
                Ok(Script::Client(copy))
            }
            Script::Operator(commands) => {
                let copy = copy_commands(commands.allocator(), commands)?;
                Ok(Script::Operator(copy))
            }
        }
    }
}
