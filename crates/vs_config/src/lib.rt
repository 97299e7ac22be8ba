//! The configuration of a cluster, and its text: a TOML document.
#![tactic(auto)]

mod config;
mod fault;
mod key;
mod read;
mod set_list;
mod sets;
mod table;

pub use config::{Config, SetConfig};
pub use fault::{ConfigFault, ConfigKind};
pub use key::ConfigKey;
pub use read::read_config;
pub use set_list::SetList;
