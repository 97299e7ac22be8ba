//! Journals read, appended to, migrated and damaged.

ghost use Rattle.std.specs.Prelude.{◌≡◌, IfOk, IsTrue};
ghost use Rattle.vs_frame.specs.Frame.{version_of, IsReady};

use super::opened;
use crate::{FIRST, JOURNAL, NEVER, head};
use std::alloc::Global;
use std::process::Abort;
use std::test::Fail;
use vs_disk::{Disk, FailingCall, MemDisk};
use vs_frame::{Frame, FrameFault};

// A write of `a` to `1` in bucket 3, as the first call of client 1 and the first body.
const WRITE: [u8; 25] = [
    1, 0, 0, 0, 0, 0, 0, 0, 3, 1, 1, 0, 0, 0, 3, 0, 0, 0, 1, 2, 1, b'a', 1, 0, b'1',
];

// A new journal on an empty disk, one call of which is to fail.
fn created(rt: &impl Abort, alloc: Global, fails: FailingCall) -> Result<Frame<MemDisk>, FrameFault>
    ensures { IfOk result (λ frame. (version_of frame ≡ 2) × IsReady frame) }
{
    let head = head();
    assert!(rt; head.is_lawful());
    match Frame::create(alloc, opened(rt, alloc, b"", fails), &head) {
        Ok(frame) => Ok(frame),
        Err((fault, disk)) => {
            assert!(rt; disk.bytes().len() <= 38);
            Err(fault)
        }
    }
}

// How many bodies each part of a journal has, and its frame.
fn read(alloc: Global, disk: MemDisk) -> Result<(usize, usize, Frame<MemDisk>), FrameFault>
    requires { IsTrue (⟦<MemDisk as Disk>⟧.told disk).is_open }
    ensures { IfOk result (λ r. IsReady r.2) }
{
    let (mut scan, _head) = match Frame::scan(alloc, disk) {
        Ok(begun) => begun,
        Err((fault, _disk)) => return Err(fault),
    };
    let mut first = 0;
    for total in 0..1000 {
        if !scan.next()? {
            return Ok((first, total - first, scan.into_frame()));
        }
        if scan.part() == 1 {
            first = total + 1;
        }
    }
    Err(FrameFault::NoMemory)
}

// The same, without the frame.
fn counted(
    rt: &impl Abort,
    alloc: Global,
    bytes: &[u8],
    fails: FailingCall,
) -> Result<(usize, usize), FrameFault> {
    let (first, second, _frame) = read(alloc, opened(rt, alloc, bytes, fails))?;
    Ok((first, second))
}

// The journal of version 1.
fn first(rt: &impl Abort, alloc: Global, fails: FailingCall) -> Result<Frame<MemDisk>, FrameFault>
    ensures { IfOk result (λ frame. (version_of frame ≡ 1) × IsReady frame) }
{
    let (first, second, frame) = read(alloc, opened(rt, alloc, FIRST, fails))?;
    assert_eq!(rt; (first, second), (1, 0));
    assert!(rt; frame.version() == 1);
    Ok(frame)
}

#[test]
fn a_set_and_its_first_write_are_68_bytes(rt: HostRuntime) -> Result<(), Fail> {
    let alloc = rt.alloc();
    let mut frame = created(&rt, alloc, NEVER).expect(&rt, "creates");
    assert_eq!(rt; frame.gate(), 37);
    assert_eq!(rt; frame.version(), 2);
    assert!(rt; frame.append(&WRITE).is_ok());
    assert_eq!(rt; frame.gate(), 67);
    assert_eq!(rt; frame.into_disk().bytes(), JOURNAL.as_slice());

    let Ok((mut scan, found)) = Frame::scan(alloc, opened(&rt, alloc, JOURNAL, NEVER)) else {
        panic!(rt; "no journal");
    };
    assert_eq!(rt; found, head());
    assert_eq!(rt; scan.place(), 36);
    let Ok(true) = scan.next() else {
        panic!(rt; "no body");
    };
    assert_eq!(rt; scan.part(), 2);
    assert_eq!(rt; scan.place(), 67);
    assert_eq!(rt; scan.body(), WRITE.as_slice());
    let Ok(false) = scan.next() else {
        panic!(rt; "another body");
    };
    assert_eq!(rt; scan.into_frame().gate(), 67);
    Ok(())
}

#[test]
fn a_journal_is_refused_at_the_least_place_that_is_wrong(rt: HostRuntime) -> Result<(), Fail> {
    let alloc = rt.alloc();
    for len in 0..69 {
        let wanted = match len {
            68 => Ok((0, 1)),
            67 => Err(FrameFault::NotAJournal(67)),
            37..=66 => Err(FrameFault::NotAJournal(37)),
            36 => Err(FrameFault::NotAJournal(36)),
            _ => Err(FrameFault::NotAJournal(0)),
        };
        assert_eq!(rt;
            counted(&rt, alloc, &JOURNAL[..len], NEVER),
            wanted,
            "cut to {len}"
        );
    }
    for len in 0..59 {
        let wanted = match len {
            58 => Ok((1, 0)),
            57 => Err(FrameFault::NotAJournal(57)),
            36..=56 => Err(FrameFault::NotAJournal(36)),
            _ => Err(FrameFault::NotAJournal(0)),
        };
        assert_eq!(rt;
            counted(&rt, alloc, &FIRST[..len], NEVER),
            wanted,
            "version 1 cut to {len}"
        );
    }
    let mut other = *JOURNAL;
    other[37] = 0;
    assert_eq!(rt; counted(&rt, alloc, &other, NEVER), Ok((0, 0)));
    other[36] = 0xa5;
    assert_eq!(rt;
        counted(&rt, alloc, &other, NEVER),
        Err(FrameFault::NotAJournal(36))
    );
    let mut third = *FIRST;
    third[7] = b'3';
    assert_eq!(rt; counted(&rt, alloc, &third, NEVER), Ok((1, 0)));
    third[7] = b'2';
    assert_eq!(rt;
        counted(&rt, alloc, &third, NEVER),
        Err(FrameFault::NotAJournal(58))
    );
    for call in 1..5 {
        let fails = FailingCall { call, put: 0 };
        assert_eq!(rt;
            counted(&rt, alloc, JOURNAL, fails),
            Err(FrameFault::DiskFault)
        );
    }
    Ok(())
}

#[test]
fn each_crash_leaves_the_old_list_or_the_new_one(rt: HostRuntime) -> Result<(), Fail> {
    let alloc = rt.alloc();
    let mut frame = created(&rt, alloc, NEVER).expect(&rt, "creates");
    assert!(rt; frame.append(&WRITE).is_ok());
    let disk = frame.into_disk();
    // open; the head, a sync; the entry, a sync; the gate, a sync
    assert_eq!(rt; disk.calls(), 7);
    let none = Err(FrameFault::NotAJournal(0));
    let old = Ok((0, 0));
    let new = Ok((0, 1));
    let wanted = [
        [none; 3],
        [none, old, none],
        [old; 3],
        [old; 3],
        [old; 3],
        [old, new, new],
        [new; 3],
    ];
    for step in 0..7 {
        for pick in 0..3 {
            let calls = step as u64 + 1;
            assert!(rt; calls <= disk.calls());
            let left = disk.after_crash(calls, pick as u8).expect(&rt, "memory");
            assert_eq!(rt;
                counted(&rt, alloc, left.bytes(), NEVER),
                wanted[step][pick],
                "pick {pick} after {calls} calls"
            );
        }
    }
    Ok(())
}

#[test]
fn a_failed_append_is_there_or_not(rt: HostRuntime) -> Result<(), Fail> {
    let alloc = rt.alloc();
    for call in 1..3 {
        for put in [0, 37, 38] {
            let fault = created(&rt, alloc, FailingCall { call, put }).map(|_frame| ());
            assert_eq!(rt; fault, Err(FrameFault::DiskFault));
        }
    }
    for call in 3..7 {
        for put in [0, 1] {
            let mut frame = created(&rt, alloc, FailingCall { call, put }).expect(&rt, "creates");
            assert_eq!(rt; frame.append(&WRITE), Err(FrameFault::DiskFault));
            assert!(rt; frame.must_reopen());
            assert_eq!(rt; frame.gate(), 37);
            let is_there = call == 6 || (call == 5 && put == 1);
            assert_eq!(rt; frame.reopen(), Ok(is_there), "call {call} put {put}");
            assert_eq!(rt; frame.gate(), if is_there { 67 } else { 37 });
        }
    }
    Ok(())
}

#[test]
fn a_body_that_was_found_is_dropped(rt: HostRuntime) {
    let alloc = rt.alloc();
    let mut frame = created(&rt, alloc, FailingCall { call: 6, put: 0 }).expect(&rt, "creates");
    assert_eq!(rt; frame.append(&WRITE), Err(FrameFault::DiskFault));
    let Ok(true) = frame.reopen() else {
        panic!(rt; "not found");
    };
    assert!(rt; frame.drop_last().is_ok());
    assert_eq!(rt; frame.gate(), 37);
    assert_eq!(rt; frame.reopen(), Ok(false));
    assert!(rt; !frame.must_reopen());
    assert!(rt; frame.append(b"other").is_ok());
    assert_eq!(rt; frame.reopen(), Ok(false));
    assert_eq!(rt;
        counted(&rt, alloc, frame.into_disk().bytes(), NEVER),
        Ok((0, 1))
    );
}

#[test]
fn a_journal_of_version_1_is_migrated_whatever_stops_it(rt: HostRuntime) -> Result<(), Fail> {
    let alloc = rt.alloc();
    let mut frame = first(&rt, alloc, NEVER)?;
    assert_eq!(rt; frame.gate(), 57);
    let before = frame.into_disk().calls();
    frame = first(&rt, alloc, NEVER)?;
    assert!(rt; frame.migrate().is_ok());
    assert_eq!(rt; frame.version(), 2);
    assert_eq!(rt; frame.gate(), 58);
    let disk = frame.into_disk();
    assert_eq!(rt; disk.bytes().len(), 59);
    assert_eq!(rt; disk.bytes()[7], b'2');
    assert_eq!(rt; &disk.bytes()[57..], b"\x00\x00".as_slice());
    assert_eq!(rt; disk.calls(), before + 4);
    for calls in before..disk.calls() + 1 {
        for pick in 0..3 {
            let left = disk.after_crash(calls, pick).expect(&rt, "memory");
            assert_eq!(rt;
                counted(&rt, alloc, left.bytes(), NEVER),
                Ok((1, 0)),
                "pick {pick} after {calls} calls"
            );
        }
    }
    for call in before..before + 4 {
        for put in [0, 1] {
            let fails = FailingCall { call, put };
            let mut frame = first(&rt, alloc, fails)?;
            assert_eq!(rt; frame.migrate(), Err(FrameFault::DiskFault));
            assert_eq!(rt;
                counted(&rt, alloc, frame.into_disk().bytes(), NEVER),
                Ok((1, 0))
            );
        }
    }
    let (_, _, mut frame) = read(alloc, opened(&rt, alloc, disk.bytes(), NEVER))?;
    assert!(rt; frame.version() == 2);
    assert!(rt; frame.append(&WRITE).is_ok());
    assert_eq!(rt;
        counted(&rt, alloc, frame.into_disk().bytes(), NEVER),
        Ok((1, 1))
    );
    Ok(())
}
