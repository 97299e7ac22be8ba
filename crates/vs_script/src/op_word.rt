//! The words of operations.

ghost use Rattle.std.specs.Prelude.{◌≡◌};
ghost use Rattle.vs_script.specs.Given.{Takes};
ghost use Rattle.vs_script.specs.Operations.{op_word, is_write, op_word_at};

use crate::fault::ScriptKind;
use crate::words::Words;
use vs_base::Mode;

/// The word that an operation begins with.
#[derive(Clone, Copy)]
pub(crate) enum OpWord {
    Get,
    Put,
    Insert,
    Delete,
    Swap,
    Count,
    Scan,
}

impl OpWord {
    fn of(word: &[u8]) -> Option<OpWord>
        ensures { result ≡ op_word word.now }
    {
        match word {
            b"get" => Some(OpWord::Get),
            b"put" => Some(OpWord::Put),
            b"insert" => Some(OpWord::Insert),
            b"delete" => Some(OpWord::Delete),
            b"swap" => Some(OpWord::Swap),
            b"count" => Some(OpWord::Count),
            b"scan" => Some(OpWord::Scan),
            _ => None,
        }
    }

    fn is_write(self) -> bool
        ensures { result ≡ is_write self }
    {
        match self {
            OpWord::Put | OpWord::Insert | OpWord::Delete | OpWord::Swap => true,
            OpWord::Get | OpWord::Count | OpWord::Scan => false,
        }
    }

    /// The next word, which is that of an operation in a call of this mode.
    pub(crate) fn read(words: &mut Words, mode: Mode) -> Result<OpWord, ScriptKind>
        ensures { Takes (λ x. x) result words.new (op_word_at mode words.old) }
    {
        let word = words.word()?;
        match OpWord::of(word) {
            Some(name) if mode == Mode::Ro && name.is_write() => Err(ScriptKind::WriteInRo),
            Some(name) => Ok(name),
            None => Err(ScriptKind::BadWord),
        }
    }
}
