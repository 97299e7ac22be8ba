//! The words of a command.

ghost use Rattle.std.specs.Prelude.{◌≡◌, ◌↔◌, ◌∷◌, IsTrue, MatchOption, string_bytes};
ghost use Rattle.std.specs.List.{list_all};
ghost use Rattle.vs_inputs.specs.Words.{Names, texts, files, is_file_word, IsPlay, IsCommand};
ghost use Rattle.vs_inputs.specs.FileNames.{names_of};

use std::alloc::Global;

/// The names of the files of a command.
#[derive(Clone, Copy)]
pub struct FileNames<'a> {
    pub config: &'a str,
    pub events: &'a str,
    /// The scripts, in the order in which clients and operators get their numbers.
    pub scripts: &'a [String],
}

/// A command: the allocator of its words, and the names of its files.
#[derive(Clone, Copy)]
pub struct Command<'a> {
    pub alloc: Global,
    pub names: FileNames<'a>,
}

/// The most scripts that a command names.
pub const MOST_SCRIPTS: usize = 80;

const DASH: u8 = b'-';

/// Whether a word may name a file: it isn't empty, and doesn't begin with a dash.
fn is_file_word(word: &str) -> bool
    ensures { result ≡ is_file_word word.now }
{
    match word.as_bytes() {
        [first, ..] => *first != DASH,
        [] => false,
    }
}

fn are_file_words(words: &[String]) -> bool
    ensures { result ≡ list_all (λ word. is_file_word (string_bytes word)) words.now }
{
    words.iter().all(|word| is_file_word(word.as_str()))
}

/// Whether the words are a command.
fn is_play(command: &str, config: &str, events: &str, scripts: &[String]) -> bool
    ensures { IsTrue result
        ↔ IsPlay command.now (files config.now events.now (texts scripts.now)) }
{
    command == "play"
        && scripts.len() <= MOST_SCRIPTS
        && is_file_word(config)
        && is_file_word(events)
        && are_file_words(scripts)
}

/// The names of the files, where the words are `play CONFIG EVENTS FILE...`.
fn file_names<'a>(
    command: &'a String,
    config: &'a String,
    events: &'a String,
    scripts: &'a [String],
) -> Option<FileNames<'a>>
    ensures { let words = texts (command.now ∷ config.now ∷ events.now ∷ scripts.now) in
        MatchOption result ((names : Names) → ¬ (IsCommand words names))
        (λ f. IsCommand words (names_of f)) }
{
    let (config, events) = (config.as_str(), events.as_str());
    if is_play(command.as_str(), config, events, scripts) {
        Some(FileNames {
            config,
            events,
            scripts,
        })
    } else {
        None
    }
}

/// The command that the words are. There is one: `play CONFIG EVENTS FILE...`, with 0 to 80 FILE
/// words.
pub fn command_of(words: &[String]) -> Option<Command<'_>>
    ensures { MatchOption result ((names : Names) → ¬ (IsCommand (texts words.now) names))
        (λ c. IsCommand (texts words.now) (names_of c.names)) }
{
    let [command, config, events, scripts @ ..] = words else {
        return None;
    };
    match file_names(command, config, events, scripts) {
        Some(names) => Some(Command {
            alloc: *command.allocator(),
            names,
        }),
        None => None,
    }
}
