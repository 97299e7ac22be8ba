//! The numbers of a cluster, lists with room, counts of faults, and the refusal for want of memory.
#![tactic(auto)]

mod faults;
mod items;
mod memory;
mod numbers;

pub use faults::raised;
pub use items::Items;
pub use memory::NoMemory;
pub use numbers::{BucketId, CallId, ClientNo, Ids, Mode, OpNo, SetNo};
