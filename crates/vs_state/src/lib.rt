//! The state of a cluster in memory, how it is read, and why an event can't happen in it.
#![tactic(auto)]

mod actors;
mod asked;
mod faults;
mod guard;
mod read;
mod recorded;
mod state;
mod tables;

pub use actors::{ClientTables, CommandOutcomes, OperatorTables};
pub use asked::asked_set;
pub use state::State;
pub use tables::SetTables;
pub use vs_machine::{CommandFault, CommandOutcome};
