//! Keys and values in what a cluster is given, and that its report is legal therefore.
#![tactic(auto)]

mod laws;
mod memory;

pub use laws::{reports_are_legal, scripts_are_named};
pub use memory::{bases_are_named, is_short};
