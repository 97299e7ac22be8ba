//! The header of a script.

ghost use Rattle.std.specs.Prelude.{◌≡◌, [], ◌∷◌};
ghost use Rattle.vs_text.specs.Lines.{words_in};
ghost use Rattle.vs_script.specs.Lines.{header_of};

use crate::fault::ScriptKind;
use vs_text::next_word;

/// Whose script it is.
#[derive(Clone, Copy)]
pub(crate) enum Header {
    Client,
    Operator,
}

impl Header {
    fn of(word: &[u8]) -> Result<Header, ScriptKind>
        ensures { result ≡ header_of (word.now ∷ []) }
    {
        match word {
            b"client" => Ok(Header::Client),
            b"operator" => Ok(Header::Operator),
            _ => Err(ScriptKind::BadHeader),
        }
    }

    /// The header that a line is.
    pub(crate) fn read(line: &[u8]) -> Result<Header, ScriptKind>
        ensures { result ≡ header_of (words_in line.now) }
    {
        match next_word(line) {
            Some((word, rest)) if next_word(rest).is_none() => Header::of(word),
            _ => Err(ScriptKind::BadHeader),
        }
    }
}
