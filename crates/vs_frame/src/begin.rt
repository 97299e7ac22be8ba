//! The beginning of a scan.

ghost use Rattle.std.specs.Prelude.{◌≡◌, ◌≢◌, ◌≤◌, ◌^◌, min, List, ℕ, length, IfOk, IfErr, OnOk};
ghost use Rattle.std.specs.Result.{IsErrOf};
ghost use Rattle.vs_disk.specs.Told.{IsOpen, Failed, Reads, IsSynced};
ghost use Rattle.vs_frame.specs.Ahead.{IsPieceOf};
ghost use Rattle.vs_frame.specs.Head.{version_in as version_of, HasHead, IsHead};
ghost use Rattle.vs_frame.specs.Journal.{IsWrongFirst};
ghost use Rattle.vs_frame.specs.Unwritten.{IsUnwritten};

use crate::ahead::ReadAhead;
use crate::entry::LARGEST_BODY;
use crate::fault::FrameFault;
use crate::head::{Head, SECOND};
use std::alloc::Global;
use vs_disk::Disk;

// The version that a journal's bytes name.
fn version_in(bytes: &[u8]) -> u8
    requires { 8 ≤ length bytes.now }
    ensures named { result ≡ version_of bytes.now }
    ensures known { (1 ≤ result) × (result ≤ 2) }
{
    if bytes[7] == SECOND { 2 } else { 1 }
}

// The head of a disk, its version, and the disk's length.
fn read_head<D: Disk>(disk: &mut D) -> Result<(Head, u8, u64), FrameFault>
    requires open { IsOpen (D.told disk.old) }
    ensures len { IfOk result (λ r. Reads (D.told disk.old) (λ file. r.2 ≡ length file)) }
    ensures head { IfOk result (λ r. Reads (D.told disk.old) (λ file. HasHead file r.0)) }
    ensures lawful { IfOk result (λ r. IsHead r.0) }
    ensures version { IfOk result (λ r. Reads (D.told disk.old) (λ file. r.1 ≡ version_of file)) }
    ensures known { IfOk result (λ r. (1 ≤ r.1) × (r.1 ≤ 2)) }
    ensures refused { IfErr result (λ e. (place : ℕ) → e ≡ FrameFault.NotAJournal place
        → Reads (D.told disk.old) (λ file. IsWrongFirst file place)) }
    ensures durable { OnOk result (IsSynced (D.told disk.new)) }
    ensures unwritten { IsUnwritten (D.told disk.old) (D.told disk.new) }
    ensures fault { IsErrOf result FrameFault.DiskFault
        → Failed (D.told disk.old) (D.told disk.new) }
    ensures cause { IfErr result (λ e. e ≢ FrameFault.NoMemory) }
{
    disk.sync()?;
    let len = disk.len()?;
    let mut start = [0; 37];
    let count = disk.read(0, &mut start)?;
    let Some(head) = Head::read(&start[..count]) else {
        return Err(FrameFault::NotAJournal(0));
    };
    if count < 37 {
        return Err(FrameFault::NotAJournal(Head::LEN as u64));
    }
    Ok((head, version_in(&start), len))
}

// The head of a disk, its version, the disk's length, and room for a body and for reading ahead.
pub fn begin<D: Disk>(
    alloc: Global,
    disk: &mut D,
) -> Result<(Head, u8, u64, Vec<u8>, ReadAhead), FrameFault>
    requires open { IsOpen (D.told disk.old) }
    ensures len { IfOk result (λ r. Reads (D.told disk.old) (λ file. r.2 ≡ length file)) }
    ensures head { IfOk result (λ r. Reads (D.told disk.old) (λ file. HasHead file r.0)) }
    ensures lawful { IfOk result (λ r. IsHead r.0) }
    ensures version { IfOk result (λ r. Reads (D.told disk.old) (λ file. r.1 ≡ version_of file)) }
    ensures known { IfOk result (λ r. (1 ≤ r.1) × (r.1 ≤ 2)) }
    ensures reserved { IfOk result (λ r. r.2 ≤ (D.told disk.new).reserved) }
    ensures room { IfOk result (λ r. min r.2 (2 ^ 20) ≤ length r.3.items) }
    ensures ahead { IfOk result (λ r. (file : List ℕ) → IsPieceOf file r.4) }
    ensures refused { IfErr result (λ e. (place : ℕ) → e ≡ FrameFault.NotAJournal place
        → Reads (D.told disk.old) (λ file. IsWrongFirst file place)) }
    ensures durable { OnOk result (IsSynced (D.told disk.new)) }
    ensures unwritten { IsUnwritten (D.told disk.old) (D.told disk.new) }
    ensures fault { IsErrOf result FrameFault.DiskFault
        → Failed (D.told disk.old) (D.told disk.new) }
{
    let (head, version, len) = read_head(disk)?;
    disk.reserve(len)?;
    let size = len.min(LARGEST_BODY as u64);
    let room = vec![in alloc; 0; size as usize]?;
    let ahead = ReadAhead::new(alloc)?;
    Ok((head, version, len, room, ahead))
}
