//! The disks in memory.

ghost use Rattle.std.specs.Prelude.{IfOk};
ghost use Rattle.vs_generating.specs.Disks.{AreNew};

use std::alloc::Global;
use vs_base::NoMemory;
use vs_disk::{Disk, PlainDisk};

/// As many disks as a cluster may have sets.
const DISKS: usize = 32;

/// New disks, on which nothing is.
pub(crate) fn new_disks(alloc: Global) -> Result<Vec<PlainDisk>, NoMemory>
    ensures { IfOk result (λ disks. AreNew ⟦<PlainDisk as Disk>⟧.told disks.items) }
{
    let mut disks = Vec::with_capacity(alloc, DISKS)?;
    for _disk in 0..DISKS {
        disks.push(PlainDisk::new(alloc))?;
    }
    Ok(disks)
}
