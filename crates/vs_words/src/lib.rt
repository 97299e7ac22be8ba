//! Reference words that threads share, with no lock.
#![tactic(auto)]

mod laws;
mod pass;
mod rule;
mod words;

pub use laws::unused_words_are_zero;
pub use pass::Pass;
pub use words::RefWords;
