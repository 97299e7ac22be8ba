//! The words of answers.

ghost use Rattle.std.specs.Prelude.{◌≡◌};
ghost use Rattle.vs_audit.specs.Operations.{answer_word};

/// The word that an answer begins with.
#[derive(Clone, Copy)]
pub(crate) enum AnswerWord {
    Value,
    NoValue,
    Done,
    Exists,
    Differs,
    Number,
    Pairs,
}

impl AnswerWord {
    pub(crate) fn of(word: &[u8]) -> Option<AnswerWord>
        ensures { result ≡ answer_word word.now }
    {
        match word {
            b"value" => Some(AnswerWord::Value),
            b"none" => Some(AnswerWord::NoValue),
            b"done" => Some(AnswerWord::Done),
            b"exists" => Some(AnswerWord::Exists),
            b"differs" => Some(AnswerWord::Differs),
            b"number" => Some(AnswerWord::Number),
            b"pairs" => Some(AnswerWord::Pairs),
            _ => None,
        }
    }
}
