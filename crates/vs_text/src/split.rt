//! Lines and words that one byte separates.

ghost use Rattle.std.specs.Prelude.{◌≡◌, ◌∷◌, [], ◌==◌, position, MatchOption};
ghost use Rattle.vs_text.specs.Split.{parts, lines_of};

fn place_of(text: &[u8], byte: u8) -> Option<usize>
    ensures { result ≡ position (λ b. b == byte) text.now }
{
    text.iter().position(|b| *b == byte)
}

/// What stands before the first byte of this value, and what stands after it. None where the text
/// has no such byte.
#[inline]
pub fn split_once(text: &[u8], byte: u8) -> Option<(&[u8], &[u8])>
    ensures { MatchOption result (parts byte text.now ≡ text.now ∷ [])
        (λ cut. parts byte text.now ≡ cut.0.now ∷ parts byte cut.1.now) }
{
    match place_of(text, byte) {
        Some(end) => Some((&text[..end], &text[end + 1..])),
        None => None,
    }
}

/// The first line of a text, without its line feed, and what follows. None where the text has no
/// line feed.
#[inline]
pub fn next_line(text: &[u8]) -> Option<(&[u8], &[u8])>
    ensures { MatchOption result (lines_of text.now ≡ text.now ∷ [])
        (λ cut. lines_of text.now ≡ cut.0.now ∷ lines_of cut.1.now) }
{
    split_once(text, b'\n')
}
