//! Why a text is refused as a key or a value.

ghost use Rattle.std.specs.Prelude.{◌≡◌};
ghost use Rattle.vs_rows.specs.declared.fault.RowFault.TheVariants.{NoMemory};

use std::alloc::AllocError;

/// Why a text is refused as a key or a value.
#[derive(Clone, Copy, Debug)]
pub enum RowFault {
    /// The text is empty, longer than a key or a value may be, `;` alone, or has a byte outside 0x21
    /// to 0x7E.
    BadText,
    NoMemory,
}

impl From<AllocError> for RowFault {
    ghost from_gives = { λ _ fault. fault ≡ NoMemory };

    fn from(_e: AllocError) -> Self {
        RowFault::NoMemory
    }
}
