//! The command `plan`: in how few waves sets with given counts come to their ideals.
#![tactic(auto)]

mod command;
mod counts;
mod fault;
mod fault_line;
mod line;
mod planning;
mod text;

pub use command::plan;
pub use counts::{SetCount, SetCounts, read_counts};
pub use fault::{CountsError, CountsFault, LineKind, PlanFault};
