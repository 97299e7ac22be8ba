//! The call that plays a list of events on a cluster, from files to a report.
#![tactic(auto)]

mod fault;
mod fault_line;
mod play;
mod top;

pub use fault::Fault;
pub use fault_line::{fault_text, log_fault};
pub use play::JOURNAL_LIMIT;
pub use top::play_main;
