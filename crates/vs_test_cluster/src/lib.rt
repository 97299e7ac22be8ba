//! Tests of the calls that stand on a whole cluster's state.
#![tactic(auto)]

mod clusters;
#[cfg(test)]
mod tests;

pub use clusters::{config, new_core, plain_disks};
