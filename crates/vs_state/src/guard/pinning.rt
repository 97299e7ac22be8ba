//! Whether a command can pin or unpin a bucket.

ghost use Rattle.std.specs.Prelude.{◌≡◌};
ghost use Rattle.vs_machine.specs.Kinds.Pinning.{pin};
ghost use Rattle.vs_state.specs.Guard.{verdict};
ghost use Rattle.vs_state.specs.Plain.{plain};

use crate::state::State;
use vs_base::OpNo;
use vs_event::Reason;
use vs_script::Command;

impl State {
    pub(crate) fn can_pin(&self, operator: OpNo) -> Result<(), Reason>
        ensures { result ≡ verdict (pin (plain self.now) operator) }
    {
        if !self.has_operator(operator) {
            return Err(Reason::Unknown);
        }
        match self.next_command(operator) {
            Some(Command::Pin(_, _) | Command::Unpin(_, _)) => Ok(()),
            _ => Err(Reason::NoCommand),
        }
    }
}
