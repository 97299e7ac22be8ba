//! One word, and which words may stand in a command.

ghost use Rattle.std.specs.Prelude.{◌≡◌, string_bytes};
ghost use Rattle.std.specs.List.{list_all};
ghost use Rattle.vs_command.specs.Word.{is_plain, number_in};

use vs_text::number;

const DASH: u8 = b'-';

fn is_plain(word: &str) -> bool
    ensures { result ≡ is_plain word.now }
{
    match word.as_bytes() {
        [first, ..] => *first != DASH,
        [] => false,
    }
}

/// Whether no word is empty, and none begins with a dash.
pub fn are_plain(words: &[String]) -> bool
    ensures { result ≡ list_all (λ word. is_plain (string_bytes word)) words.now }
{
    words.iter().all(|word| is_plain(word.as_str()))
}

/// The number that a word writes in one to nine decimal digits.
pub fn number_in(word: &str) -> Option<u32>
    ensures { result ≡ number_in word.now }
{
    number(word.as_bytes())
}
