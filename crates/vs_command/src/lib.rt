//! What the words after the program's name ask for: a command, or nothing.
#![tactic(auto)]

mod command;
mod line;
mod parser;
mod read;
mod usage;
mod verb;
mod verbs;
mod word;

pub use command::{Command, MOST_CLIENTS, MOST_FILES};
pub use read::command_of;
pub use usage::{LONGEST_USAGE, put_usage};
pub use verb::Verb;
pub use verbs::{BUILT, Verbs};
