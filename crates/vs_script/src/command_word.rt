//! The words of commands.

ghost use Rattle.std.specs.Prelude.{◌≡◌};
ghost use Rattle.vs_script.specs.Given.{Takes};
ghost use Rattle.vs_script.specs.Lines.{command_word, command_word_at};

use crate::fault::ScriptKind;
use crate::words::Words;

/// The word that a command begins with.
#[derive(Clone, Copy)]
pub(crate) enum CommandWord {
    Send,
    Pin,
    Unpin,
    Close,
    Cut,
    Stop,
    Restart,
    Balance,
}

impl CommandWord {
    fn of(word: &[u8]) -> Option<CommandWord>
        ensures { result ≡ command_word word.now }
    {
        match word {
            b"send" => Some(CommandWord::Send),
            b"pin" => Some(CommandWord::Pin),
            b"unpin" => Some(CommandWord::Unpin),
            b"close" => Some(CommandWord::Close),
            b"cut" => Some(CommandWord::Cut),
            b"stop" => Some(CommandWord::Stop),
            b"restart" => Some(CommandWord::Restart),
            b"balance" => Some(CommandWord::Balance),
            _ => None,
        }
    }

    /// The next word, which is that of a command.
    pub(crate) fn read(words: &mut Words) -> Result<CommandWord, ScriptKind>
        ensures { Takes (λ x. x) result words.new (command_word_at words.old) }
    {
        let word = words.word()?;
        match CommandWord::of(word) {
            Some(name) => Ok(name),
            None => Err(ScriptKind::BadWord),
        }
    }
}
