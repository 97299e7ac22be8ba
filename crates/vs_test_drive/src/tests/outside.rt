//! The program's call, and the files and disks that it is given.

ghost use Rattle.std.specs.Prelude.{◌≡◌, length, IfOk};

use std::alloc::{AllocError, Global};
use std::sync::Wait;
use std::test::Fail;
use std::thread::Threads;
use vs_disk::{FailingCall, MemDisk};
use vs_gate::Gate;
use vs_host::{MemHost, NamedFile};
use vs_main::vshard_main;

/// A cluster of which set 1 begins with buckets 1 to 3, and set 2 with bucket 4.
pub const TWO_SETS: &[u8] =
    b"bucket_count = 4\n[[set]]\nuuid = \"00000000-0000-4000-8000-000000000001\"\nweight = 3\n[[set]]\nuuid = \"00000000-0000-4000-8000-000000000002\"\nweight = 1\n";

/// How a call of the program ended, and what it put out and logged.
#[derive(Drop)]
pub struct Ending {
    pub status: u8,
    pub host: MemHost,
}

/// Calls the program with this command, and the names of these files. The first is a configuration of two sets.
pub fn call<R: Threads + Wait + Sync, G: Gate + Sync>(
    rt: &R,
    alloc: Global,
    command: &str,
    files: &[(&str, &[u8])],
    disks: &mut Vec<MemDisk>,
    gate: &G,
) -> Result<Ending, AllocError>
    requires { length disks.old.items ≡ 32 }
    ensures { length disks.new.items ≡ 32 }
{
    let mut words = vec![in alloc; String::from_str(alloc, command)?]?;
    let mut given = Vec::new(alloc);
    for (name, bytes) in files {
        words.push(String::from_str(alloc, name)?)?;
        given.push(NamedFile {
            name: String::from_str(alloc, name)?,
            bytes: Vec::from_slice(alloc, bytes)?,
        })?;
    }
    let mut host = MemHost::new(alloc, given, Vec::new(alloc));
    let status = vshard_main(rt, alloc, &words, &mut host, disks, gate);
    Ok(Ending { status, host })
}

/// These calls of a disk. A write of them puts three bytes down at most.
fn failing_calls(alloc: Global, numbers: &[u64]) -> Result<Vec<FailingCall>, AllocError> {
    let mut calls = Vec::new(alloc);
    for &call in numbers {
        calls.push(FailingCall { call, put: 3 })?;
    }
    Ok(calls)
}

/// Disks for 32 sets. Those of sets 1 and 2 are new, and each of the others has one byte, the number of its set. Of the disk of one set
/// the calls with these numbers fail, counted from 0.
pub fn disks(alloc: Global, set: u8, failing: &[u64]) -> Result<Vec<MemDisk>, Fail>
    ensures { IfOk result (λ disks. length disks.items ≡ 32) }
{
    let mut disks = Vec::with_capacity(alloc, 32)?;
    for place in 0..32u8 {
        let mut bytes = Vec::new(alloc);
        if 2 <= place {
            bytes.push(place + 1)?;
        }
        let fails = if place + 1 == set {
            failing_calls(alloc, failing)?
        } else {
            Vec::new(alloc)
        };
        disks.push(MemDisk::new(alloc, bytes, fails)?)?;
    }
    Ok(disks)
}

/// Disks with the bytes of these, no call of which fails.
pub fn copies(alloc: Global, disks: &[MemDisk]) -> Result<Vec<MemDisk>, Fail>
    requires { length disks.now ≡ 32 }
    ensures { IfOk result (λ copies. length copies.items ≡ 32) }
{
    let mut copies = Vec::with_capacity(alloc, 32)?;
    for place in 0..32usize {
        let bytes = disks[place].bytes().to_vec(alloc)?;
        copies.push(MemDisk::new(alloc, bytes, Vec::new(alloc))?)?;
    }
    Ok(copies)
}

/// Whether each disk from that of set 3 on is in its place, with its byte, and had no call.
pub fn are_others_untouched(disks: &[MemDisk]) -> bool
    requires { length disks.now ≡ 32 }
{
    disks[2..].iter().zip(3..33u8).all(|(disk, set)| disk.calls() == 0
        && disk.bytes() == [set].as_slice())
}
