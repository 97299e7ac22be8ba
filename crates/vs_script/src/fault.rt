//! Why a text is no script.

ghost use Rattle.std.specs.Prelude.{◌≡◌};

use vs_base::NoMemory;

/// What is wrong with a line of a script.
#[derive(Clone, Copy, Debug, PartialEq, Eq)]
pub enum ScriptKind {
    /// It has a byte that may not stand in a script.
    BadByte,
    /// It has a word of more than 256 bytes.
    LongWord,
    /// It is the first that isn't skipped, and neither `client` nor `operator` alone.
    BadHeader,
    /// A word is unknown, missing, or one too many, or can't be a key or a value.
    BadWord,
    /// A word isn't a number of 1 to 9 digits.
    BadNumber,
    /// A number isn't that of a bucket.
    BadBucket,
    /// A number isn't that of a set, or both sets of a `close` are the same.
    BadSet,
    /// A number isn't that of a client.
    BadClient,
    /// A call that only reads has an operation that writes.
    WriteInRo,
    /// A scan asks for none or for more than 100 rows.
    BadScan,
    /// A call has more than 16 operations.
    TooManyOps,
}

impl ScriptKind {
    /// This is wrong with the line of this number.
    pub(crate) fn at(self, line: u32) -> ScriptFault
        ensures { result ≡ ScriptFault.Bad self line }
    {
        ScriptFault::Bad { kind: self, line }
    }
}

/// Why a text wasn't read as a script.
#[derive(Clone, Copy, Debug, PartialEq, Eq)]
pub enum ScriptFault {
    /// The first line that is bad, counted from 1, and the first thing that is wrong with it.
    Bad { kind: ScriptKind, line: u32 },
    /// Want of memory, which says nothing of the text.
    NoMemory,
}

impl From<NoMemory> for ScriptFault {
    ghost use Rattle.vs_script.specs.declared.fault.ScriptFault.TheVariants.{NoMemory};

    ghost from_gives = { λ _ fault. fault ≡ NoMemory };

    fn from(_e: NoMemory) -> Self {
        ScriptFault::NoMemory
    }
}
