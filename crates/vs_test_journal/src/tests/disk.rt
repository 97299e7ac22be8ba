//! Disks of all three kinds.

use std::sync::Mutex;
use std::test::Fail;
use vs_base::NoMemory;
use vs_disk::{Disk, DiskFailed, DiskOpen, FailingCall, FileDisk, MemDisk, PlainDisk};

// A disk that threads may share.
fn shared<T: Disk + Send>(disk: T) -> Mutex<T> {
    Mutex::new(disk)
}

#[test]
fn a_file_reads_back_what_was_written(rt: HostRuntime) -> Result<(), Fail> {
    let path = String::from_str(rt.alloc(), "disk.bin")?;
    let mut disk = FileDisk::new(rt, path);
    assert!(rt; disk.open().is_ok());
    assert!(rt; disk.open().is_ok());
    assert!(rt; disk.reserve(8).is_ok());
    assert_eq!(rt; disk.len(), Ok(0));
    assert!(rt; disk.write_at(0, b"abcde").is_ok());
    assert!(rt; disk.write_at(3, b"XYZ").is_ok());
    assert!(rt; disk.sync().is_ok());
    assert_eq!(rt; disk.len(), Ok(6));
    let mut into = *b"........";
    assert_eq!(rt; disk.read(1, &mut into), Ok(5));
    assert_eq!(rt; &into, b"bcXYZ...");
    assert_eq!(rt; disk.faults(), 0);

    let same = String::from_str(rt.alloc(), "./disk.bin")?;
    let mut second = FileDisk::new(rt, same);
    assert_eq!(rt; second.open(), Err(DiskOpen::Failed));
    assert_eq!(rt; second.faults(), 1);
    assert_eq!(rt; disk.len(), Ok(6));
    drop(shared(disk));
    assert!(rt; second.open().is_ok());
    assert_eq!(rt; second.len(), Ok(6));

    let none = String::from_str(rt.alloc(), "no_folder/disk.bin")?;
    let mut disk = FileDisk::new(rt, none);
    assert_eq!(rt; disk.open(), Err(DiskOpen::Failed));
    assert_eq!(rt; disk.faults(), 1);
    Ok(())
}

#[test]
fn a_plain_disk_reads_back_what_was_written(rt: HostRuntime) {
    let mut disk = PlainDisk::new(rt.alloc());
    assert!(rt; disk.open().is_ok());
    assert!(rt; disk.reserve(8).is_ok());
    assert_eq!(rt; disk.reserve((1 << 62) + 1), Err(NoMemory));
    assert!(rt; disk.write_at(0, b"abcde").is_ok());
    assert!(rt; disk.write_at(0, b"XYZ").is_ok());
    let mut into = *b"........";
    assert_eq!(rt; disk.read(2, &mut into), Ok(3));
    assert_eq!(rt; &into, b"Zde.....");
    let _shared = shared(disk);
}

#[test]
fn a_crash_leaves_old_bytes_new_ones_or_others(rt: HostRuntime) -> Result<(), Fail> {
    let alloc = rt.alloc();
    let fails = vec![in alloc; FailingCall { call: 4, put: 2 }]?;
    let bytes = Vec::from_slice(alloc, b"abc")?;
    let mut disk = MemDisk::new(alloc, bytes, fails).expect(&rt, "memory");
    assert!(rt; disk.open().is_ok());
    assert!(rt; disk.reserve(8).is_ok());
    assert!(rt; disk.write_at(0, b"WXYZ").is_ok());
    assert!(rt; disk.sync().is_ok());
    assert!(rt; disk.write_at(1, b"12").is_ok());
    assert_eq!(rt; disk.write_at(0, b"fail"), Err(DiskFailed));
    assert_eq!(rt; disk.faults(), 1);
    assert_eq!(rt; disk.bytes(), b"fa2Z".as_slice());
    let images: [[&[u8]; 3]; 5] = [
        [b"abc", b"abc", b"abc"],
        [b"abc", b"WXYZ", b"\xa5\xa5\xa5\xa5"],
        [b"WXYZ", b"WXYZ", b"WXYZ"],
        [b"WXYZ", b"W12Z", b"W\xa5\xa5Z"],
        [b"WXYZ", b"fa2Z", b"\xa5\xa5\xa5Z"],
    ];
    for (before, picks) in images.iter().enumerate() {
        let calls = before as u64 + 1;
        assert!(rt; calls <= disk.calls());
        for (pick, image) in picks.iter().enumerate() {
            let left = disk.after_crash(calls, pick as u8).expect(&rt, "memory");
            assert_eq!(rt; left.bytes(), *image, "{pick} after {calls} calls");
        }
    }
    let _shared = shared(disk);
    Ok(())
}
