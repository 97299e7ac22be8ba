//! Texts: their lines, the words of a line, and decimal numbers.
#![tactic(auto)]

mod fault;
mod lines;
mod numbers;
mod split;
mod words;

pub use fault::TextFault;
pub use lines::{Line, Lines, Word, Words, check_line, cut_lines, cut_words, first_line};
pub use numbers::{number, number_between, put_number};
pub use split::{next_line, split_once};
pub use words::next_word;

/// The most bytes of a word.
pub const LONGEST_WORD: usize = 256;
