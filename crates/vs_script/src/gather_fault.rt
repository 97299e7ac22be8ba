//! Why scripts can't run together.

use vs_base::NoMemory;

/// Why scripts can't run together.
#[derive(Clone, Copy, Debug, PartialEq, Eq)]
pub enum GatherKind {
    /// There are more than 64 scripts of clients.
    TooManyClients,
    /// There are more than 16 scripts of operators.
    TooManyOperators,
    /// The scripts have more than 200,000 calls in all.
    TooManyCalls,
    /// The calls have more than 20,000 scans in all.
    TooManyScans,
    /// The scripts have more than 10,000 commands in all.
    TooManyCommands,
    /// A `cut` names a client that isn't there.
    BadClient,
    /// A `cut` names a call that its client doesn't have.
    BadCall,
}

/// Why scripts weren't gathered.
#[derive(Clone, Copy, Debug, PartialEq, Eq)]
pub enum GatherFault {
    /// The first thing that is wrong with the scripts.
    Bad {
        kind: GatherKind,
        /// The place of the script among those given, from 1: the one that passes the limit, or
        /// the one that has the `cut`.
        script: u32,
        /// The number of the command in its script, from 1, or 0 where it is about no command.
        item: u32,
    },
    /// Want of memory, which says nothing of the scripts.
    NoMemory,
}

impl From<NoMemory> for GatherFault {
    ghost use Rattle.std.specs.Prelude.{◌≡◌};
    ghost use Rattle.vs_script.specs.declared.gather_fault.GatherFault.TheVariants.{NoMemory};

    ghost from_gives = { λ _ fault. fault ≡ NoMemory };

    fn from(_e: NoMemory) -> Self {
        GatherFault::NoMemory
    }
}
