//! Scripts: the calls of clients and the commands of operators, how they are read from texts, and
//! how scripts are gathered for one run.
#![tactic(auto)]

mod call;
mod command;
mod command_word;
mod fault;
mod gather_fault;
mod gathering;
mod header;
mod limit;
mod line_fault;
mod lines;
mod op_word;
mod ops;
mod read;
mod script;
mod scripts;
mod words;

pub use call::{Call, Calls, copy_calls};
pub use command::{Command, Commands, copy_commands};
pub use fault::{ScriptFault, ScriptKind};
pub use gather_fault::{GatherFault, GatherKind};
pub use gathering::gather;
pub use read::read_script;
pub use script::Script;
pub use scripts::{ClientCalls, OperatorCommands, Scripts};
