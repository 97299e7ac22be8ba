//! Why a text was not cut into lines.

use vs_base::NoMemory;

/// Why a text was not cut into lines. Lines count from 1.
#[derive(Clone, Copy, Debug, PartialEq, Eq)]
pub enum TextFault {
    /// The line has a byte that may not stand in a line.
    BadByte(u32),
    /// The line has a word that is longer than [`LONGEST_WORD`](crate::LONGEST_WORD).
    LongWord(u32),
    /// Memory was wanted.
    NoMemory,
}

impl From<NoMemory> for TextFault {
    ghost use Rattle.std.specs.Prelude.{◌≡◌};
    ghost use Rattle.vs_text.specs.declared.fault.TextFault.TheVariants.{NoMemory};

    ghost from_gives = { λ _ fault. fault ≡ NoMemory };

    fn from(_e: NoMemory) -> Self {
        TextFault::NoMemory
    }
}
