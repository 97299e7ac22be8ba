//! A disk in memory that keeps a record of its calls, so that a crash after any of them can be
//! played.

ghost use Rattle.std.specs.Prelude.{◌≡◌, ◌≤◌, [], ◌∷◌, ◌++◌, if◌then◌else◌, is_ok, length, take, reverse, vec_capacity, IfOk, OnErr};
ghost use Rattle.vs_base.specs.Faults.{Rose};
ghost use Rattle.vs_disk.specs.Model.{Keeps, Rests};
ghost use Rattle.vs_disk.specs.Images.{plays, picked};

use crate::bytes::{overwrite, read_from};
use crate::call::{FailingCall, MemCall};
use crate::disk::{Disk, DiskFailed, DiskOpen};
use crate::image::image_after;
use std::alloc::Global;
use vs_base::{NoMemory, raised};

/// A disk in memory, with what it held at first, the calls that it has had since, and those that
/// are to fail. It is honest. Its calls are those that may answer `DiskFailed`, and each `open` but
/// one that finds it open. A call that finds no memory to be put down fails.
#[derive(Drop)]
pub struct MemDisk {
    ready: bool,
    first: Vec<u8>,
    calls: Vec<MemCall>,
    bytes: Vec<u8>,
    fails: Vec<FailingCall>,
    room: u64,
    faults: u64,
    ghost has_room: { room ≤ vec_capacity bytes },
    ghost played: { bytes.items ≡ plays first.items (reverse calls.items) },
}

// Puts a call down, where there is memory.
fn note(calls: &mut Vec<MemCall>, call: MemCall) -> Result<(), NoMemory>
    ensures { calls.new.items
        ≡ (if is_ok result then calls.old.items ++ call ∷ [] else calls.old.items) }
{
    calls.push(call)?;
    Ok(())
}

impl MemDisk {
    ghost use Rattle.vs_disk.specs.Memory.{first_of, calls_of, bytes_of, left_after, told_of, puts_of, IsFresh};

    /// A disk with these bytes, all of them synced. It isn't open.
    pub fn new(alloc: Global, bytes: Vec<u8>, fails: Vec<FailingCall>) -> Result<MemDisk, NoMemory>
        ensures { IfOk result (IsFresh bytes.items fails.items) }
    {
        let first = bytes.to_vec(alloc)?;
        Ok(MemDisk {
            ready: false,
            first,
            calls: Vec::new(alloc),
            bytes,
            fails,
            room: 0,
            faults: 0,
        })
    }

    /// How many calls it has had.
    pub fn calls(&self) -> u64
        ensures { result ≡ length (calls_of self.now) }
    {
        self.calls.len() as u64
    }

    /// What a read gives.
    pub fn bytes(&self) -> &[u8]
        ensures { result.now ≡ bytes_of self.now }
    {
        &self.bytes
    }

    /// What a crash after so many of its calls leaves. What wasn't synced then has the old bytes
    /// and the old length for pick 0, the new ones for pick 1, and the new length with `a5`
    /// throughout for pick 2. No call of the new disk is to fail.
    pub fn after_crash(&self, calls: u64, pick: u8) -> Result<MemDisk, NoMemory>
        requires calls { calls ≤ length (calls_of self.now) }
        requires pick { pick ≤ 2 }
        ensures picked { IfOk result (IsFresh
            (picked pick (first_of self.now) (reverse (take calls (calls_of self.now)))) []) }
        ensures image { IfOk result (λ disk. left_after self.now calls (bytes_of disk)) }
    {
        let alloc = *self.bytes.allocator();
        let image = image_after(alloc, &self.first, &self.calls[..calls as usize], pick)?;
        MemDisk::new(alloc, image, Vec::new(alloc))
    }

    // How many bytes the next call puts down, where it is to fail.
    fn failing(&self) -> Option<u64>
        ensures { result ≡ puts_of self.now.fails.items (length self.now.calls.items) }
    {
        let number = self.calls.len() as u64;
        self.fails.iter().find(|f| f.call == number).map(|f| f.put)
    }

    // A call that fails, and is put down where there is memory.
    fn fail(&mut self) -> DiskFailed
        ensures rose { Rose self.old.faults self.new.faults }
        ensures bytes { bytes_of self.new ≡ bytes_of self.old }
        ensures rests { Rests (told_of self.old) (told_of self.new) }
        ensures keeps { Keeps (told_of self.old) (told_of self.new) }
        ensures ready { self.new.ready ≡ self.old.ready }
    {
        let _noted = note(&mut self.calls, MemCall::Quiet);
        self.faults = raised(self.faults);
        DiskFailed
    }

    // A call that writes nothing.
    fn pass(&mut self) -> Result<(), DiskFailed>
        ensures rose { OnErr result (Rose self.old.faults self.new.faults) }
        ensures bytes { bytes_of self.new ≡ bytes_of self.old }
        ensures rests { Rests (told_of self.old) (told_of self.new) }
        ensures keeps { Keeps (told_of self.old) (told_of self.new) }
    {
        if self.failing().is_some() {
            return Err(self.fail());
        }
        if note(&mut self.calls, MemCall::Quiet).is_err() {
            return Err(self.fail());
        }
        Ok(())
    }
}

impl Disk for MemDisk {
    ghost use Rattle.vs_disk.specs.Memory.{told_of};
    ghost use Rattle.vs_disk.specs.Kept.{memory_lawful};

    ghost told = { told_of };

    ghost lawful = { memory_lawful };

    fn faults(&self) -> u64 {
        self.faults
    }

    fn open(&mut self) -> Result<(), DiskOpen> {
        if self.ready {
            return Ok(());
        }
        match self.pass() {
            Ok(()) => {
                self.ready = true;
                Ok(())
            }
            Err(DiskFailed) => Err(DiskOpen::Failed),
        }
    }

    fn reserve(&mut self, len: u64) -> Result<(), NoMemory> {
        if len <= self.room {
            return Ok(());
        }
        self.bytes
            .reserve((len as usize).saturating_sub(self.bytes.len()))?;
        self.room = len;
        Ok(())
    }

    fn len(&mut self) -> Result<u64, DiskFailed> {
        self.pass()?;
        Ok(self.bytes.len() as u64)
    }

    fn read(&mut self, at: u64, into: &mut [u8]) -> Result<usize, DiskFailed> {
        self.pass()?;
        Ok(read_from(&self.bytes, at, into))
    }

    fn write_at(&mut self, at: u64, bytes: &[u8]) -> Result<(), DiskFailed> {
        let failing = self.failing();
        let put = match failing {
            Some(put) => bytes.len().min(put as usize),
            None => bytes.len(),
        };
        let Ok(piece) = bytes[..put].to_vec(*self.bytes.allocator()) else {
            return Err(self.fail());
        };
        if note(&mut self.calls, MemCall::Write(at, piece)).is_err() {
            return Err(self.fail());
        }
        overwrite(&mut self.bytes, at as usize, &bytes[..put]);
        if failing.is_some() {
            self.faults = raised(self.faults);
            return Err(DiskFailed);
        }
        Ok(())
    }

    fn sync(&mut self) -> Result<(), DiskFailed> {
        if self.failing().is_some() {
            return Err(self.fail());
        }
        if note(&mut self.calls, MemCall::Sync).is_err() {
            return Err(self.fail());
        }
        Ok(())
    }
}
