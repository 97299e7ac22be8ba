//! A gate at which the drivers of a cluster may be held up.
#![tactic(auto)]

mod gate;
mod open;

pub use gate::Gate;
pub use open::OpenGate;
