//! The command `gen`: work made from a number is run on a cluster of disks in memory.
#![tactic(auto)]

mod beginning;
mod command;
mod counts;
mod disks;
mod fault;
mod running;
mod summary;

pub use command::run_generated;
