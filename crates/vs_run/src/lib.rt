//! The command `run`: scripts are run on a cluster, over its journals.
#![tactic(auto)]

mod driving;
mod run;
mod telling;

pub use driving::{driven, rest};
pub use run::run_files;
pub use telling::log_events;
