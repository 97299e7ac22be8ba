//! Reading ahead.

ghost use Rattle.std.specs.Prelude.{◌≡◌, ◌+◌, ◌-◌, ◌<◌, ◌≤◌, ◌++◌, ◌^◌, min, List, ℕ, length, take, drop, IsNone, IfSome, IfOk, OnOk, OnErr};
ghost use Rattle.vs_disk.specs.Told.{IsOpen, Failed, Reads};
ghost use Rattle.vs_frame.specs.Unwritten.{IsUnwritten};

use std::alloc::{AllocError, Global};
use vs_disk::{Disk, DiskFailed};

// How many bytes are read at once.
const PIECE: usize = 1 << 16;

/// A piece of a disk's bytes that was read ahead.
#[derive(Drop)]
pub struct ReadAhead {
    piece: Vec<u8>,
    // The place of its first byte, and how many of its bytes the disk had.
    start: u64,
    count: usize,
    ghost size: { length piece.items ≡ 2 ^ 16 },
    ghost within: { count ≤ length piece.items },
}

impl ReadAhead {
    ghost use Rattle.vs_frame.specs.Ahead.{IsPieceOf};

    // Room for a piece, with none read.
    pub fn new(alloc: Global) -> Result<ReadAhead, AllocError>
        ensures { IfOk result (λ ahead. (file : List ℕ) → IsPieceOf file ahead) }
    {
        let piece = vec![in alloc; 0; PIECE]?;
        Ok(ReadAhead {
            piece,
            start: 0,
            count: 0,
        })
    }

    // Where the piece has so many bytes from a place on.
    fn find(&self, at: u64, size: usize) -> Option<usize>
        ensures within { IfSome result (λ from. from + size ≤ self.now.count) }
        ensures place { IfSome result (λ from. at ≡ self.now.start + from) }
    {
        let from = at.checked_sub(self.start)?;
        if from > self.count as u64 {
            return None;
        }
        let from = from as usize;
        if size > self.count - from {
            None
        } else {
            Some(from)
        }
    }

    // Reads a piece from a place on.
    fn fill<D: Disk>(&mut self, disk: &mut D, at: u64) -> Result<(), DiskFailed>
        requires open { IsOpen (D.told disk.old) }
        ensures place { OnOk result (self.new.start ≡ at) }
        ensures count { OnOk result (Reads (D.told disk.old) (λ file.
            self.new.count ≡ min (2 ^ 16) (length file - at))) }
        ensures piece { Reads (D.told disk.old) (λ file. IsPieceOf file self.new) }
        ensures unwritten { IsUnwritten (D.told disk.old) (D.told disk.new) }
        ensures fault { OnErr result (Failed (D.told disk.old) (D.told disk.new)) }
    {
        self.count = 0;
        let count = disk.read(at, &mut self.piece)?;
        self.start = at;
        self.count = count;
        Ok(())
    }

    // Reads from a place on, and tells how many bytes there were, up to the end. It asks the disk
    // where the piece doesn't have them.
    pub fn read<D: Disk>(
        &mut self,
        disk: &mut D,
        at: u64,
        into: &mut [u8],
    ) -> Result<usize, DiskFailed>
        requires open { IsOpen (D.told disk.old) }
        requires piece { Reads (D.told disk.old) (λ file. IsPieceOf file self.old) }
        ensures within { IfOk result (λ n. n ≤ length into.old) }
        ensures count { IfOk result (λ n. Reads (D.told disk.old) (λ file.
            n ≡ min (length into.old) (length file - at))) }
        ensures bytes { IfOk result (λ n. Reads (D.told disk.old) (λ file.
            into.new ≡ take n (drop at file) ++ drop n into.old)) }
        ensures piece { Reads (D.told disk.old) (λ file. IsPieceOf file self.new) }
        ensures unwritten { IsUnwritten (D.told disk.old) (D.told disk.new) }
        ensures fault { OnErr result (Failed (D.told disk.old) (D.told disk.new)) }
    {
        let size = into.len();
        if let Some(from) = self.find(at, size) {
            into.copy_from_slice(&self.piece[from..from + size]);
            return Ok(size);
        }
        if size > PIECE {
            return disk.read(at, into);
        }
        self.fill(disk, at)?;
        let count = size.min(self.count);
        into[..count].copy_from_slice(&self.piece[..count]);
        Ok(count)
    }
}
