//! The first word of a command.

ghost use Rattle.std.specs.Prelude.{◌≡◌};
ghost use Rattle.vs_command.specs.Verb.{name_of, verb_named, takes_second, takes_files};

/// The word that a command begins with.
#[derive(Clone, Copy, Debug, PartialEq, Eq)]
pub enum Verb {
    Run,
    Play,
    Gen,
    Reads,
    Plan,
    Audit,
    Info,
}

impl Verb {
    /// The word itself.
    pub fn name<'a>(self) -> &'a str
        ensures { result.now ≡ name_of self }
    {
        match self {
            Verb::Run => "run",
            Verb::Play => "play",
            Verb::Gen => "gen",
            Verb::Reads => "reads",
            Verb::Plan => "plan",
            Verb::Audit => "audit",
            Verb::Info => "info",
        }
    }

    /// The verb that a word is. None is abbreviated.
    pub fn named(word: &str) -> Option<Verb>
        ensures { result ≡ verb_named word.now }
    {
        match word {
            "run" => Some(Verb::Run),
            "play" => Some(Verb::Play),
            "gen" => Some(Verb::Gen),
            "reads" => Some(Verb::Reads),
            "plan" => Some(Verb::Plan),
            "audit" => Some(Verb::Audit),
            "info" => Some(Verb::Info),
            _ => None,
        }
    }

    /// Whether a second word must follow, beside the first.
    pub fn takes_second(self) -> bool
        ensures { result ≡ takes_second self }
    {
        match self {
            Verb::Play | Verb::Reads | Verb::Plan => true,
            Verb::Run | Verb::Gen | Verb::Audit | Verb::Info => false,
        }
    }

    /// Whether files may follow the words that must.
    pub fn takes_files(self) -> bool
        ensures { result ≡ takes_files self }
    {
        match self {
            Verb::Run | Verb::Play | Verb::Reads => true,
            Verb::Gen | Verb::Plan | Verb::Audit | Verb::Info => false,
        }
    }
}
