//! The command `info`: what the journals of a cluster hold, in one line.
#![tactic(auto)]

mod cluster;
mod informing;

pub use informing::inform;
