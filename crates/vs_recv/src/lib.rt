//! What a set does with a message of a transfer.
#![tactic(auto)]

mod message;
mod took;

pub use message::receive;
pub use took::Took;
pub use vs_space::{RecvFault, Reply};
