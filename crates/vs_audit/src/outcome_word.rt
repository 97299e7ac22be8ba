//! The words of what became of calls.

ghost use Rattle.std.specs.Prelude.{◌≡◌};
ghost use Rattle.vs_audit.specs.Outcomes.{outcome_word};

/// The word of what became of a call.
#[derive(Clone, Copy)]
pub(crate) enum OutcomeWord {
    Reply,
    Lost,
    Spent,
    Open,
}

impl OutcomeWord {
    pub(crate) fn of(word: &[u8]) -> Option<OutcomeWord>
        ensures { result ≡ outcome_word word.now }
    {
        match word {
            b"reply" => Some(OutcomeWord::Reply),
            b"lost" => Some(OutcomeWord::Lost),
            b"spent" => Some(OutcomeWord::Spent),
            b"open" => Some(OutcomeWord::Open),
            _ => None,
        }
    }
}
