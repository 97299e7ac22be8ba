//! Why a text is no report.

use vs_base::NoMemory;

/// Why a text wasn't read as a report.
#[derive(Clone, Copy, Debug, PartialEq, Eq)]
pub enum AuditText {
    /// The first line that isn't in the grammar, counted from 1. Of a text that ends too soon it is
    /// the line after its last line feed.
    Bad(u32),
    /// Want of memory, which says nothing of the text; also a text of 2^32 lines or more.
    NoMemory,
}

impl From<NoMemory> for AuditText {
    ghost use Rattle.std.specs.Prelude.{◌≡◌};
    ghost use Rattle.vs_audit.specs.declared.audit_text.AuditText.TheVariants.{NoMemory};

    ghost from_gives = { λ _ fault. fault ≡ NoMemory };

    fn from(_e: NoMemory) -> Self {
        AuditText::NoMemory
    }
}
