//! Looking at a gate of a disk.

ghost use Rattle.std.specs.Prelude.{◌≡◌, ◌≢◌, ◌+◌, ◌<◌, ◌≤◌, ◌^◌, min, ℕ, length, take, drop, get_or, IsNone, IfSome, IfOk, IfErr};
ghost use Rattle.std.specs.Result.{IsErrOf};
ghost use Rattle.vs_disk.specs.Told.{IsOpen, Failed, Reads};
ghost use Rattle.vs_frame.specs.Ahead.{IsPieceOf};
ghost use Rattle.vs_frame.specs.Gate.{IsGate};
ghost use Rattle.vs_frame.specs.Head.{four_bytes};
ghost use Rattle.vs_frame.specs.Journal.{IsEntry, Breaks};
ghost use Rattle.vs_frame.specs.Unwritten.{IsUnwritten};

use crate::ahead::ReadAhead;
use crate::entry::{CLOSED, FRAMING, LARGEST_BODY, OPEN, number_at};
use crate::fault::FrameFault;
use vs_disk::Disk;

// The size of the body behind the gate at a place, where that is open. The disk has this length.
fn size_at<D: Disk>(
    disk: &mut D,
    ahead: &mut ReadAhead,
    at: u64,
    len: u64,
) -> Result<Option<u32>, FrameFault>
    requires open { IsOpen (D.told disk.old) }
    requires len { Reads (D.told disk.old) (λ file. len ≡ length file) }
    requires piece { Reads (D.told disk.old) (λ file. IsPieceOf file ahead.old) }
    ensures shut { IfOk result (λ found. IsNone found → (at < len)
        × Reads (D.told disk.old) (λ file. IsGate file at)) }
    ensures gate { IfOk result (λ found. IfSome found (λ size. Reads (D.told disk.old) (λ file.
        get_or file at 0 ≡ 165))) }
    ensures bytes { IfOk result (λ found. IfSome found (λ size. Reads (D.told disk.old) (λ file.
        four_bytes size ≡ take 4 (drop (at + 1) file)))) }
    ensures fits { IfOk result (λ found. IfSome found (λ size.
        (1 ≤ size) × (size ≤ 2 ^ 20) × (at + (5 + size) ≤ len))) }
    ensures place { IfErr result (λ e. (place : ℕ) → e ≡ FrameFault.NotAJournal place → place ≡ at) }
    ensures wrong { IfErr result (λ e. (place : ℕ) → e ≡ FrameFault.NotAJournal place
        → Reads (D.told disk.old) (λ file. at ≤ length file → Breaks file at)) }
    ensures piece { Reads (D.told disk.old) (λ file. IsPieceOf file ahead.new) }
    ensures unwritten { IsUnwritten (D.told disk.old) (D.told disk.new) }
    ensures fault { IsErrOf result FrameFault.DiskFault
        → Failed (D.told disk.old) (D.told disk.new) }
    ensures cause { IfErr result (λ e. e ≢ FrameFault.NoMemory) }
{
    if at >= len {
        return Err(FrameFault::NotAJournal(at));
    }
    let mut start = [CLOSED; 5];
    let count = ahead.read(disk, at, &mut start)?;
    if start[0] != OPEN {
        return Ok(None);
    }
    let size = number_at(&start, 1);
    if count < 5 {
        return Err(FrameFault::NotAJournal(at));
    }
    if size == 0 {
        return Err(FrameFault::NotAJournal(at));
    }
    if size > LARGEST_BODY {
        return Err(FrameFault::NotAJournal(at));
    }
    if len - at < FRAMING + size as u64 {
        return Err(FrameFault::NotAJournal(at));
    }
    Ok(Some(size))
}

// Reads the body behind the gate at a place, where that is open, and tells its size.
pub fn look<D: Disk>(
    disk: &mut D,
    ahead: &mut ReadAhead,
    at: u64,
    len: u64,
    into: &mut [u8],
) -> Result<Option<usize>, FrameFault>
    requires open { IsOpen (D.told disk.old) }
    requires len { Reads (D.told disk.old) (λ file. len ≡ length file) }
    requires piece { Reads (D.told disk.old) (λ file. IsPieceOf file ahead.old) }
    requires room { min len (2 ^ 20) ≤ length into.old }
    ensures shut { IfOk result (λ found. IsNone found → (at < len)
        × Reads (D.told disk.old) (λ file. IsGate file at)) }
    ensures entry { IfOk result (λ found. IfSome found (λ size. Reads (D.told disk.old) (λ file.
        IsEntry file at (take size into.new)))) }
    ensures size { IfOk result (λ found. IfSome found (λ size.
        (size ≤ length into.new) × (at + (5 + size) ≤ len))) }
    ensures place { IfErr result (λ e. (place : ℕ) → e ≡ FrameFault.NotAJournal place → place ≡ at) }
    ensures wrong { IfErr result (λ e. (place : ℕ) → e ≡ FrameFault.NotAJournal place
        → Reads (D.told disk.old) (λ file. at ≤ length file → Breaks file at)) }
    ensures piece { Reads (D.told disk.old) (λ file. IsPieceOf file ahead.new) }
    ensures unwritten { IsUnwritten (D.told disk.old) (D.told disk.new) }
    ensures fault { IsErrOf result FrameFault.DiskFault
        → Failed (D.told disk.old) (D.told disk.new) }
    ensures cause { IfErr result (λ e. e ≢ FrameFault.NoMemory) }
{
    let Some(size) = size_at(disk, ahead, at, len)? else {
        return Ok(None);
    };
    let size = size as usize;
    let count = ahead.read(disk, at + FRAMING, &mut into[..size])?;
    if count < size {
        return Err(FrameFault::NotAJournal(at));
    }
    Ok(Some(size))
}
