//! The present call of a client: its stages, its tries and its outcome.
#![tactic(auto)]

mod outcome;
mod stage;
mod state;

pub use outcome::{Outcome, Outcomes};
pub use stage::Stage;
pub use state::CallState;
