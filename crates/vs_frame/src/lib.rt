//! A file of entries behind gate bytes, each of them there as a whole or not at all after a crash.
#![tactic(auto)]

mod ahead;
mod begin;
mod calls;
mod entry;
mod fault;
mod frame;
mod head;
mod laws;
mod look;
mod put;
mod scan;

pub use fault::FrameFault;
pub use frame::Frame;
pub use head::Head;
pub use laws::reading_laws;
pub use scan::Scan;
