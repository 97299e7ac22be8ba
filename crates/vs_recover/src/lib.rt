//! How an interrupted transfer is settled: what a set asks the other one, and what it decides.
#![tactic(auto)]

mod asks;
mod decision;

pub use asks::Asks;
pub use decision::{Decision, decide};
