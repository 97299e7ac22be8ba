//! The command `reads`: what the reads of scripts answer on rows that another script wrote, served by a pool of workers.
#![tactic(auto)]

mod answers;
mod command;
mod fault;
mod fault_line;
mod given;
mod jobs;
mod rows;
mod scripts;
mod text;

pub use command::reads;
pub use fault::ReadsFault;
