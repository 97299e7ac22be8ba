//! A disk in memory that never fails and tells nothing of a crash.

ghost use Rattle.std.specs.Prelude.{◌≡◌, ◌≤◌, ◌^◌, [], true, false, vec_capacity};
ghost use Rattle.std.proofs.Common.{refl};
ghost use Rattle.vs_disk.specs.Laws.{untold};

use crate::bytes::{overwrite, read_from};
use crate::disk::{Disk, DiskFailed, DiskOpen};
use std::alloc::Global;
use vs_base::NoMemory;

/// A disk in memory. It is open, and no call of it fails. It tells what a read gives, and nothing
/// of a crash.
#[derive(Drop)]
pub struct PlainDisk {
    bytes: Vec<u8>,
    room: u64,
    ghost has_room: { room ≤ vec_capacity bytes },
    // So a `reserve` past it answers NoMemory.
    ghost bounded: { room ≤ 2 ^ 62 },
}

impl PlainDisk {
    /// The most that is ever reserved, in bytes.
    pub const MAX_LEN: u64 = 1 << 62;

    /// An empty one.
    pub fn new(alloc: Global) -> PlainDisk
        ensures { (⟦<PlainDisk as Disk>⟧.told result).reads_as ≡ [] }
    {
        PlainDisk {
            bytes: Vec::new(alloc),
            room: 0,
        }
    }
}

impl Disk for PlainDisk {
    ghost told = { λ d. record {
      is_open = true;
      tells_reads = true;
      is_honest = false;
      reads_as = d.bytes.items;
      may_leave = λ c. ⊥;
      moment = 0;
      left_since = λ t c. ⊥;
      reserved = d.room;
      faults = 0;
    } };

    ghost lawful = { λ d. untold _ refl };

    fn faults(&self) -> u64 {
        0
    }

    fn open(&mut self) -> Result<(), DiskOpen> {
        Ok(())
    }

    fn reserve(&mut self, len: u64) -> Result<(), NoMemory> {
        if len <= self.room {
            return Ok(());
        }
        if len > Self::MAX_LEN {
            return Err(NoMemory);
        }
        self.bytes
            .reserve((len as usize).saturating_sub(self.bytes.len()))?;
        self.room = len;
        Ok(())
    }

    fn len(&mut self) -> Result<u64, DiskFailed> {
        Ok(self.bytes.len() as u64)
    }

    fn read(&mut self, at: u64, into: &mut [u8]) -> Result<usize, DiskFailed> {
        Ok(read_from(&self.bytes, at, into))
    }

    fn write_at(&mut self, at: u64, bytes: &[u8]) -> Result<(), DiskFailed> {
        overwrite(&mut self.bytes, at as usize, bytes);
        Ok(())
    }

    fn sync(&mut self) -> Result<(), DiskFailed> {
        Ok(())
    }
}
