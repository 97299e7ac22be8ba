//! The words of a line, which blanks separate.

ghost use Rattle.std.specs.Prelude.{◌≡◌, ◌<◌, ◌∷◌, [], false, length, map, position, slice_index, IfOk, MatchOption};
ghost use Rattle.vs_text.specs.Lines.{is_blank, words_in};

fn is_blank(byte: u8) -> bool
    ensures { result ≡ is_blank byte }
{
    byte == b' ' || byte == b'\t'
}

/// The line without the blanks that it begins with.
fn without_blanks(line: &[u8]) -> &[u8]
    ensures words { words_in result.now ≡ words_in line.now }
    ensures first { 0 < length result.now → is_blank (slice_index result.now 0) ≡ false }
{
    let mut rest = line;
    while let [first, more @ ..] = rest {
        if !is_blank(*first) {
            return rest;
        }
        rest = more;
    }
    rest
}

fn blank_place(line: &[u8]) -> Option<usize>
    ensures { result ≡ position is_blank line.now }
{
    line.iter().position(|byte| is_blank(*byte))
}

/// The first word of a line, and what follows it. Words are separated by one blank or more, spaces
/// and tabs. None where the line has no word.
pub fn next_word(line: &[u8]) -> Option<(&[u8], &[u8])>
    ensures { MatchOption result (words_in line.now ≡ [])
        (λ cut. words_in line.now ≡ cut.0.now ∷ words_in cut.1.now) }
{
    let line = without_blanks(line);
    if line.is_empty() {
        return None;
    }
    match blank_place(line) {
        Some(end) => Some((&line[..end], &line[end + 1..])),
        None => Some((line, &[])),
    }
}
