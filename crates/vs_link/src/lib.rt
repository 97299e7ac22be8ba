//! Connections from set to set: messages and replies, first in, first out, by epoch.
#![tactic(auto)]

mod connection;
mod links;
mod message;

pub use links::Links;
pub use message::{Empty, Heard, Msg, Posted};
pub use vs_space::{RecvFault, Reply};
