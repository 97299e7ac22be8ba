//! Why no answers were put out.

use vs_base::NoMemory;
use vs_host::HostFailed;
use vs_inputs::{InputFault, TextFault};

/// Why no answers were put out. An input is named by the place of its file among the words after the command, from 1.
#[derive(Clone, Copy, Debug)]
pub enum ReadsFault {
    /// This is wrong with the text of the input.
    Text(u64, TextFault),
    /// The script isn't a client's, or has a call of the other mode: the first one has writes, and the others have reads.
    NotReads(u64),
    /// Reading the file of the input failed.
    Read(u64),
    /// Putting the answers out failed.
    Write,
    /// Memory was refused.
    NoMemory,
}

impl From<InputFault> for ReadsFault {
    ghost use Rattle.std.specs.Prelude.{◌≡◌};
    ghost use Rattle.vs_reads.specs.Faults.{from_input};

    ghost from_gives = { λ e fault. fault ≡ from_input e };

    fn from(e: InputFault) -> Self {
        match e {
            InputFault::Text(input, fault) => ReadsFault::Text(input, fault),
            InputFault::Read(input) => ReadsFault::Read(input),
            InputFault::NoMemory => ReadsFault::NoMemory,
        }
    }
}

impl From<NoMemory> for ReadsFault {
    ghost use Rattle.std.specs.Prelude.{◌≡◌};
    ghost use Rattle.vs_reads.specs.declared.fault.ReadsFault.TheVariants as faults;

    ghost from_gives = { λ _ fault. fault ≡ faults.NoMemory };

    fn from(_e: NoMemory) -> Self {
        ReadsFault::NoMemory
    }
}

impl From<HostFailed> for ReadsFault {
    ghost use Rattle.std.specs.Prelude.{◌≡◌};
    ghost use Rattle.vs_reads.specs.declared.fault.ReadsFault.TheVariants as faults;

    ghost from_gives = { λ _ fault. fault ≡ faults.Write };

    fn from(_e: HostFailed) -> Self {
        ReadsFault::Write
    }
}
