//! Texts as numbered lines of words.

ghost use Rattle.std.specs.Prelude.{◌≡◌, ◌∷◌, [], None, Some, map, IfOk, IfErr, MatchOption, MatchResult};
ghost use Rattle.std.specs.List.{list_all};
ghost use Rattle.std.specs.Str.Lines.{lines, strip_carriage_return};
ghost use Rattle.vs_text.specs.Lines.{is_text_byte, has_short_words, words_in, line_fault, first_fault, IsFirstFault, numbered, seen};

use crate::LONGEST_WORD;
use crate::fault::TextFault;
use crate::split::next_line;
use crate::words::next_word;
use std::alloc::Global;
use vs_base::{Items, NoMemory};

/// The bytes of a word.
pub type Word = Items<u8>;

/// The words of a line.
pub type Words = Items<Word>;

/// A line of a text.
#[derive(Drop)]
pub struct Line {
    /// Its number, from 1.
    pub number: u32,
    pub words: Words,
}

/// The lines of a text.
pub type Lines = Items<Line>;

fn without_return(line: &[u8]) -> &[u8]
    ensures { result.now ≡ strip_carriage_return line.now }
{
    match line {
        [front @ .., b'\r'] => front,
        _ => line,
    }
}

/// The first line of a text, without its end, and what follows it. A line ends by LF or by CR and
/// LF, and the last one may lack its end. None where the text is empty.
pub fn first_line(text: &[u8]) -> Option<(&[u8], &[u8])>
    ensures { MatchOption result (lines text.now ≡ [])
        (λ cut. lines text.now ≡ cut.0.now ∷ lines cut.1.now) }
{
    match next_line(text) {
        Some((line, more)) => Some((without_return(line), more)),
        None => {
            if text.is_empty() {
                None
            } else {
                Some((text, &[]))
            }
        }
    }
}

fn is_text_byte(byte: u8) -> bool
    ensures { result ≡ is_text_byte byte }
{
    byte == b'\t' || (byte >= b' ' && byte <= b'~')
}

fn is_text(line: &[u8]) -> bool
    ensures { result ≡ list_all is_text_byte line.now }
{
    line.iter().all(|byte| is_text_byte(*byte))
}

fn has_short_words(line: &[u8]) -> bool
    ensures { result ≡ has_short_words line.now }
{
    if line.len() <= LONGEST_WORD {
        return true;
    }
    let mut rest = line;
    while let Some((word, more)) = next_word(rest) {
        if word.len() > LONGEST_WORD {
            return false;
        }
        rest = more;
    }
    true
}

/// Tests a line: each byte is a tab or one from 0x20 to 0x7E, and no word is longer than
/// [`LONGEST_WORD`]. A bad byte comes before a long word, wherever they stand.
pub fn check_line(line: &[u8], number: u32) -> Result<(), TextFault>
    ensures { MatchResult result (λ _. line_fault number line.now ≡ None)
        (λ fault. line_fault number line.now ≡ Some fault) }
{
    if !is_text(line) {
        return Err(TextFault::BadByte(number));
    }
    if !has_short_words(line) {
        return Err(TextFault::LongWord(number));
    }
    Ok(())
}

fn word_of(alloc: Global, bytes: &[u8]) -> Result<Word, NoMemory>
    ensures { IfOk result (λ word. word.items ≡ bytes.now) }
{
    let mut word = Word::new(alloc);
    word.reserve_many(bytes.len())?;
    for byte in bytes {
        word.push(*byte);
    }
    Ok(word)
}

/// The words of a line, which blanks separate.
pub fn cut_words(alloc: Global, line: &[u8]) -> Result<Words, NoMemory>
    ensures { IfOk result (λ words. map (λ word. word.items) words.items ≡ words_in line.now) }
{
    let mut words = Words::new(alloc);
    let mut rest = line;
    while let Some((word, more)) = next_word(rest) {
        words.reserve()?;
        words.push(word_of(alloc, word)?);
        rest = more;
    }
    Ok(words)
}

/// The lines of a text with their words: all of them, also those without a word. The first fault of
/// the lowest line is told. A text of 2^32 lines or more wants memory.
pub fn cut_lines(alloc: Global, text: &[u8]) -> Result<Lines, TextFault>
    ensures clean { IfOk result (λ cut. first_fault 1 (lines text.now) ≡ None) }
    ensures lines { IfOk result (λ cut. map seen cut.items ≡ numbered 1 (lines text.now)) }
    ensures fault { IfErr result (λ fault. IsFirstFault text.now fault) }
{
    let mut cut = Lines::new(alloc);
    let mut number: u32 = 0;
    let mut rest = text;
    while let Some((line, more)) = first_line(rest) {
        if number == u32::MAX {
            return Err(TextFault::NoMemory);
        }
        number += 1;
        check_line(line, number)?;
        let words = cut_words(alloc, line)?;
        cut.reserve()?;
        cut.push(Line { number, words });
        rest = more;
    }
    Ok(cut)
}
