//! Why no plan was put out.

use vs_base::NoMemory;
use vs_host::HostFailed;
use vs_inputs::{InputFault, TextFault};

/// What is wrong with a line of counts.
#[derive(Clone, Copy, Debug, PartialEq, Eq)]
pub enum LineKind {
    /// It has a byte that may not stand in a line.
    BadByte,
    /// It has a word that is longer than 256 bytes.
    LongWord,
    /// It isn't two numbers that a set may have, or there is no set for it.
    BadCounts,
}

/// What is wrong with a text of counts.
#[derive(Clone, Copy, Debug, PartialEq, Eq)]
pub enum CountsFault {
    /// This is wrong with the line of this number, from 1.
    Line(u32, LineKind),
    /// There are fewer lines than sets.
    MissingSet,
    /// The counts sum to more than 30,000.
    TooMany,
}

/// Why a text of counts was not taken.
#[derive(Clone, Copy, Debug, PartialEq, Eq)]
pub enum CountsError {
    Bad(CountsFault),
    NoMemory,
}

impl From<CountsFault> for CountsError {
    ghost use Rattle.std.specs.Prelude.{◌≡◌};
    ghost use Rattle.vs_plan.specs.declared.fault.CountsError.TheVariants.{Bad};

    ghost from_gives = { λ e error. error ≡ Bad e };

    fn from(e: CountsFault) -> Self {
        CountsError::Bad(e)
    }
}

impl From<NoMemory> for CountsError {
    ghost use Rattle.std.specs.Prelude.{◌≡◌};
    ghost use Rattle.vs_plan.specs.declared.fault.CountsError.TheVariants.{NoMemory};

    ghost from_gives = { λ _ error. error ≡ NoMemory };

    fn from(_e: NoMemory) -> Self {
        CountsError::NoMemory
    }
}

/// Why no plan was put out. The configuration is input 1, and the counts are input 2.
#[derive(Clone, Copy, Debug)]
pub enum PlanFault {
    /// This is wrong with the file of the input.
    Text(u64, TextFault),
    /// This is wrong with the counts.
    Counts(CountsFault),
    /// Reading the file of the input failed.
    Read(u64),
    /// Putting the plan out failed.
    Write,
    /// Memory was refused.
    NoMemory,
}

impl From<InputFault> for PlanFault {
    ghost use Rattle.std.specs.Prelude.{◌≡◌};
    ghost use Rattle.vs_plan.specs.Faults.{from_input};

    ghost from_gives = { λ e fault. fault ≡ from_input e };

    fn from(e: InputFault) -> Self {
        match e {
            InputFault::Text(input, fault) => PlanFault::Text(input, fault),
            InputFault::Read(input) => PlanFault::Read(input),
            InputFault::NoMemory => PlanFault::NoMemory,
        }
    }
}

impl From<CountsError> for PlanFault {
    ghost use Rattle.std.specs.Prelude.{◌≡◌};
    ghost use Rattle.vs_plan.specs.Faults.{from_counts};

    ghost from_gives = { λ e fault. fault ≡ from_counts e };

    fn from(e: CountsError) -> Self {
        match e {
            CountsError::Bad(fault) => PlanFault::Counts(fault),
            CountsError::NoMemory => PlanFault::NoMemory,
        }
    }
}

impl From<NoMemory> for PlanFault {
    ghost use Rattle.std.specs.Prelude.{◌≡◌};
    ghost use Rattle.vs_plan.specs.declared.fault.PlanFault.TheVariants as faults;

    ghost from_gives = { λ _ fault. fault ≡ faults.NoMemory };

    fn from(_e: NoMemory) -> Self {
        PlanFault::NoMemory
    }
}

impl From<HostFailed> for PlanFault {
    ghost use Rattle.std.specs.Prelude.{◌≡◌};
    ghost use Rattle.vs_plan.specs.declared.fault.PlanFault.TheVariants as faults;

    ghost from_gives = { λ _ fault. fault ≡ faults.Write };

    fn from(_e: HostFailed) -> Self {
        PlanFault::Write
    }
}
