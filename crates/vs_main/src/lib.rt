//! The program's call: from the words after its name to a status.
#![tactic(auto)]

mod program;
mod usage;

pub use program::vshard_main;
