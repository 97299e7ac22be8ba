//! The transfer of a bucket at its source: its phases, and why it is given up.
#![tactic(auto)]

mod abort;
mod transfer;

pub use abort::AbortCause;
pub use transfer::{By, Phase, Transfer};
pub use vs_space::{RecvFault, Reply};
