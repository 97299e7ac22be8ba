//! What commands are answered.

use vs_base::SetNo;
use vs_send::AbortCause;
use vs_space::Status;

/// Why a command is refused.
#[derive(Clone, Copy, Debug)]
pub enum CommandFault {
    /// A bucket is to be moved from a set to itself.
    MoveToSelf,
    /// That set is down.
    Down(SetNo),
    /// The bucket has this status at the set, or none.
    WrongStatus(Option<Status>),
    /// The bucket is pinned.
    Pinned,
    /// The set that is to give the bucket is locked.
    SetLocked(SetNo),
    /// A transfer of the bucket waits for its writes.
    BucketIsLocked,
}

/// What a command is answered.
#[derive(Clone, Copy)]
pub enum CommandOutcome {
    /// The bucket was moved.
    Moved,
    /// It is done.
    Done,
    /// The call that was to be cut had been answered.
    Late,
    /// The set that was to be stopped was down.
    WasDown,
    /// The set that was to be restarted was up.
    WasUp,
    /// The sets have their ideal counts, after so many rounds.
    Balanced(u32),
    /// No bucket can be moved further, after so many rounds.
    Stuck(u32),
    /// The command can't be carried out.
    Refused(CommandFault),
    /// The move was given up.
    Aborted(AbortCause),
}

impl CommandOutcome {
    ghost use Rattle.std.specs.Prelude.{◌≡◌};
    ghost use Rattle.vs_machine.specs.Outcome.{fault_of};

    /// Why the command was refused, where it was.
    pub fn fault(&self) -> Option<CommandFault>
        ensures { result ≡ fault_of self.now }
    {
        match self {
            CommandOutcome::Refused(fault) => Some(*fault),
            _ => None,
        }
    }
}
