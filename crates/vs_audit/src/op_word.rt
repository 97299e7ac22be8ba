//! The words of operations.

ghost use Rattle.std.specs.Prelude.{◌≡◌};
ghost use Rattle.vs_audit.specs.Operations.{op_word};

/// The word that an operation begins with.
#[derive(Clone, Copy)]
pub(crate) enum OpWord {
    Get,
    Put,
    Insert,
    Delete,
    Swap,
    Count,
    Scan,
}

impl OpWord {
    pub(crate) fn of(word: &[u8]) -> Option<OpWord>
        ensures { result ≡ op_word word.now }
    {
        match word {
            b"get" => Some(OpWord::Get),
            b"put" => Some(OpWord::Put),
            b"insert" => Some(OpWord::Insert),
            b"delete" => Some(OpWord::Delete),
            b"swap" => Some(OpWord::Swap),
            b"count" => Some(OpWord::Count),
            b"scan" => Some(OpWord::Scan),
            _ => None,
        }
    }
}
