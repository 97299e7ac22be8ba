//! What an actor of a cluster does next.
#![tactic(auto)]

mod client;
mod mover;
mod operator;
mod possible;
mod service;

pub use client::next_client;
pub use mover::next_mover;
pub use operator::next_operator;
pub use service::next_service;
