//! A disk: the trait with its model of crashes, two disks in memory, and one over a real file.
#![tactic(auto)]

mod bytes;
mod call;
mod disk;
mod file;
mod image;
mod memory;
mod plain;

pub use call::{FailingCall, MemCall};
pub use disk::{Disk, DiskFailed, DiskOpen};
pub use file::FileDisk;
pub use memory::MemDisk;
pub use plain::PlainDisk;
