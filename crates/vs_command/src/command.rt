//! A command, with the words that it names.

ghost use Rattle.std.specs.Prelude.{◌≡◌};
ghost use Rattle.vs_command.specs.Command.{command, verb_of};

use crate::verb::Verb;

/// What words ask for. Each part is a word, or the words that end them.
#[derive(Clone, Copy)]
pub enum Command<'a> {
    /// Runs the scripts of the files.
    Run {
        config: &'a str,
        files: &'a [String],
    },
    /// Plays the events of a text over the scripts of the files.
    Play {
        config: &'a str,
        events: &'a str,
        files: &'a [String],
    },
    /// Runs the work that is generated from this number.
    Gen(u32),
    /// Serves the reads of the files, on the rows that the writes of a script make.
    Reads {
        config: &'a str,
        rows: &'a str,
        files: &'a [String],
    },
    /// Says in how few waves the buckets can be moved.
    Plan {
        config: &'a str,
        counts: &'a str,
    },
    /// Says whether a report is legal.
    Audit {
        report: &'a str,
    },
    /// Says what the journals hold.
    Info {
        config: &'a str,
    },
}

/// The most files of `run` and `play`.
pub const MOST_FILES: usize = 80;

/// The most files of `reads`. It has one at least.
pub const MOST_CLIENTS: usize = 64;

impl<'a> Command<'a> {
    /// The word that the command begins with.
    pub fn verb(&self) -> Verb
        ensures { result ≡ verb_of (command self.now) }
    {
        match self {
            Command::Run { .. } => Verb::Run,
            Command::Play { .. } => Verb::Play,
            Command::Gen(_) => Verb::Gen,
            Command::Reads { .. } => Verb::Reads,
            Command::Plan { .. } => Verb::Plan,
            Command::Audit { .. } => Verb::Audit,
            Command::Info { .. } => Verb::Info,
        }
    }
}
