//! A module for each crate that is tested, and a disk for them.

mod disk;
mod frame;
mod record;
mod store;

ghost use Rattle.std.specs.Prelude.{IsTrue};

use std::alloc::Global;
use std::process::Abort;
use vs_disk::{Disk, FailingCall, MemDisk};

/// A disk in memory that is open, one call of which is to fail.
fn opened(rt: &impl Abort, alloc: Global, bytes: &[u8], fails: FailingCall) -> MemDisk
    ensures { IsTrue (⟦<MemDisk as Disk>⟧.told result).is_open }
{
    let bytes = Vec::from_slice(alloc, bytes).expect(rt, "memory");
    let fails = vec![in alloc; fails; 1].expect(rt, "memory");
    let mut disk = MemDisk::new(alloc, bytes, fails).expect(rt, "memory");
    disk.open().expect(rt, "opens");
    disk
}
