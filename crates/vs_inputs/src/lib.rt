//! What a command is given: from its words to a configuration, events and gathered scripts, or the
//! first thing that is wrong with them.
#![tactic(auto)]

mod config;
mod events;
mod fault;
mod fault_line;
mod inputs;
mod kind_names;
mod line;
mod place;
mod read;
mod run_inputs;
mod scripts;
mod words;

pub use config::read_config_file;
pub use fault::{InputFault, TextFault};
pub use fault_line::{LONGEST_LINE, fault_buffer, put_fault};
pub use inputs::{Inputs, read_inputs};
pub use read::{MOST_BYTES, read_text};
pub use run_inputs::{RunInputs, read_run_inputs};
pub use scripts::read_script_file;
pub use words::{Command, FileNames, command_of};
