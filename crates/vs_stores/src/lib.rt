//! The journals of all sets of a cluster.
#![tactic(auto)]

mod fault;
mod ready;
mod restart;
mod stores;

pub use fault::{AppendFault, OpenFault};
pub use ready::make_ready;
pub use stores::Stores;
