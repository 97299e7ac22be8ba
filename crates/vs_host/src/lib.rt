//! The outside as a program meets it: named files, a text that is put out, and a log.
#![tactic(auto)]

mod fault;
mod host;
mod memory;
mod named_file;
mod real;

pub use fault::{HostFailed, HostRead};
pub use host::Host;
pub use memory::MemHost;
pub use named_file::NamedFile;
pub use real::RealHost;
