//! Stores over disks in memory, each call of which fails or is the last before a crash, and over a
//! real file.

ghost use Rattle.std.specs.Prelude.{None};
ghost use Rattle.vs_record.specs.Body.{HasCounts};
ghost use Rattle.vs_record.specs.Change.{change};
ghost use Rattle.vs_record.specs.States.{durable};
ghost use Rattle.vs_store.specs.Holding.{Holds};
ghost use Rattle.vs_store.specs.Store.{IsReady};

use super::opened;
use crate::{FIRST, JOURNAL, NEVER, head};
use std::alloc::Global;
use std::process::Abort;
use std::test::Fail;
use uuid::Uuid;
use vs_base::{BucketId, CallId, ClientNo};
use vs_disk::{Disk, FailingCall, FileDisk, MemDisk, PlainDisk};
use vs_frame::Head;
use vs_record::{Change, SetState};
use vs_rows::{Key, Op, Ops, Val};
use vs_store::{Store, StoreFault};

// A write of bucket 3, `put KEY 1`, as the first call of client 1.
fn write(rt: &impl Abort, alloc: Global, key: &[u8]) -> Change
    ensures { HasCounts (change result) }
{
    let client = ClientNo::new(1).expect(rt, "a client");
    let bucket = BucketId::new(3).expect(rt, "a bucket");
    let key = Key::new(alloc, key).expect(rt, "memory");
    let value = Val::new(alloc, b"1").expect(rt, "memory");
    let ops = Ops::one(alloc, Op::Put(key, value)).expect(rt, "memory");
    Change::Write(CallId { client, call: 1 }, bucket, ops)
}

// How many rows bucket 3 has in the state that bytes stand for, and the disk that they are on.
fn looked_at(
    rt: &impl Abort,
    alloc: Global,
    head: &Head,
    bytes: &[u8],
    fails: FailingCall,
    limit: u64,
) -> (Result<usize, StoreFault>, MemDisk) {
    let three = BucketId::new(3).expect(rt, "a bucket");
    assert!(rt; head.is_lawful());
    assert!(rt; limit >= 38);
    match Store::open(alloc, opened(rt, alloc, bytes, fails), head, limit) {
        Ok((store, state)) => {
            let rows = match state.rows.get(three) {
                Some(rows) => rows.len(),
                None => 0,
            };
            (Ok(rows), store.into_disk())
        }
        Err((fault, disk)) => (Err(fault), disk),
    }
}

// The rows alone.
fn rows_of(rt: &impl Abort, alloc: Global, head: &Head, bytes: &[u8]) -> Result<usize, StoreFault> {
    let (rows, _disk) = looked_at(rt, alloc, head, bytes, NEVER, 1_000);
    rows
}

// What an append of the write answers on an empty disk, and the store.
fn added(
    rt: &impl Abort,
    alloc: Global,
    fails: FailingCall,
) -> (Result<(), StoreFault>, Store<MemDisk>) {
    let head = head();
    assert!(rt; head.is_lawful());
    match Store::open(alloc, opened(rt, alloc, b"", fails), &head, 1_000) {
        Ok((mut store, state)) => {
            let change = write(rt, alloc, b"a");
            assert!(rt; state.fits(&change, head.bucket_count));
            let done = store.append(alloc, &change);
            (done, store)
        }
        Err((_fault, _disk)) => panic!(rt; "creates"),
    }
}

#[test]
fn a_set_and_its_first_write_are_68_bytes(rt: HostRuntime) {
    let alloc = rt.alloc();
    let (done, store) = added(&rt, alloc, NEVER);
    assert_eq!(rt; done, Ok(()));
    assert_eq!(rt; store.journal_len(), 68);
    assert_eq!(rt; store.into_disk().bytes(), JOURNAL.as_slice());
}

#[test]
fn a_journal_is_refused_at_the_least_place_that_is_wrong(rt: HostRuntime) {
    let alloc = rt.alloc();
    let head = head();
    for len in 0..69 {
        let wanted = match len {
            68 => Ok(1),
            67 => Err(StoreFault::NotAJournal(67)),
            37..=66 => Err(StoreFault::NotAJournal(37)),
            36 => Err(StoreFault::NotAJournal(36)),
            0 => Ok(0),
            _ => Err(StoreFault::NotAJournal(0)),
        };
        assert_eq!(rt;
            rows_of(&rt, alloc, &head, &JOURNAL[..len]),
            wanted,
            "cut to {len}"
        );
    }
    // Each byte that makes the head, a gate or the body wrong, its place, and where it is refused.
    let wrong = [
        (b'v', 0, 0),
        (0, 24, 0),
        (0xa5, 36, 36),
        (2, 42, 37),
        (4, 50, 37),
        (4, 57, 37),
        (9, 61, 37),
        (1, 65, 37),
        (0xa5, 67, 67),
    ];
    for (byte, place, refused) in wrong {
        let mut other = *JOURNAL;
        other[place] = byte;
        assert_eq!(rt;
            rows_of(&rt, alloc, &head, &other),
            Err(StoreFault::NotAJournal(refused)),
            "{byte} at {place}"
        );
    }
    let mut other = *JOURNAL;
    other[37] = 0;
    assert_eq!(rt; rows_of(&rt, alloc, &head, &other), Ok(0));
    // A body is wrong before the file ends too early.
    other = *JOURNAL;
    other[42] = 2;
    assert_eq!(rt;
        rows_of(&rt, alloc, &head, &other[..67]),
        Err(StoreFault::NotAJournal(37))
    );
    // In the first part a body has no number.
    let mut first = *FIRST;
    first[41] = 9;
    assert_eq!(rt;
        rows_of(&rt, alloc, &head, &first[..57]),
        Err(StoreFault::NotAJournal(36))
    );
}

#[test]
fn a_journal_of_others_is_refused(rt: HostRuntime) {
    let alloc = rt.alloc();
    let mut wanted = head();
    wanted.bucket_count = 5;
    for bytes in [JOURNAL.as_slice(), FIRST.as_slice()] {
        let (refused, disk) = looked_at(&rt, alloc, &wanted, bytes, NEVER, 58);
        assert_eq!(rt; refused, Err(StoreFault::OtherCount(4)));
        assert_eq!(rt; disk.bytes(), bytes);
    }
    wanted.uuid = Uuid::from_u128(7);
    assert_eq!(rt;
        rows_of(&rt, alloc, &wanted, JOURNAL),
        Err(StoreFault::OtherSet(Uuid::from_u128(0x4000_8000_0000_0000_0001)))
    );
    assert_eq!(rt;
        rows_of(&rt, alloc, &wanted, &JOURNAL[..67]),
        Err(StoreFault::NotAJournal(67))
    );
}

#[test]
fn a_journal_of_version_1_is_migrated_whatever_stops_it(rt: HostRuntime) -> Result<(), Fail> {
    let alloc = rt.alloc();
    let head = head();
    let (full, disk) = looked_at(&rt, alloc, &head, FIRST, NEVER, 58);
    assert_eq!(rt; full, Err(StoreFault::Full(59)));
    assert_eq!(rt; disk.bytes(), FIRST.as_slice());
    let (rows, disk) = looked_at(&rt, alloc, &head, FIRST, NEVER, 59);
    assert_eq!(rt; rows, Ok(1));
    assert_eq!(rt; disk.bytes().len(), 59);
    assert_eq!(rt; disk.bytes()[7], b'2');
    assert_eq!(rt; &disk.bytes()[57..], b"\x00\x00".as_slice());
    assert_eq!(rt; rows_of(&rt, alloc, &head, disk.bytes()), Ok(1));
    for calls in 1..disk.calls() + 1 {
        for pick in 0..3 {
            let left = disk.after_crash(calls, pick).expect(&rt, "memory");
            assert_eq!(rt;
                rows_of(&rt, alloc, &head, left.bytes()),
                Ok(1),
                "pick {pick} after {calls} calls"
            );
        }
    }
    for call in 1..disk.calls() {
        for put in [0, 1] {
            let fails = FailingCall { call, put };
            let (failed, stopped) = looked_at(&rt, alloc, &head, FIRST, fails, 59);
            assert_eq!(rt; failed, Err(StoreFault::DiskFault));
            assert_eq!(rt;
                rows_of(&rt, alloc, &head, stopped.bytes()),
                Ok(1),
                "call {call} put {put}"
            );
        }
    }
    Ok(())
}

#[test]
fn each_crash_leaves_the_old_state_or_the_new_one(rt: HostRuntime) -> Result<(), Fail> {
    let alloc = rt.alloc();
    let head = head();
    let (done, store) = added(&rt, alloc, NEVER);
    assert_eq!(rt; done, Ok(()));
    let disk = store.into_disk();
    // open; its length; the head, a sync; the entry, a sync; the gate, a sync
    assert_eq!(rt; disk.calls(), 8);
    let none = Err(StoreFault::NotAJournal(0));
    let wanted = [
        [Ok(0); 3],
        [Ok(0); 3],
        [Ok(0), Ok(0), none],
        [Ok(0); 3],
        [Ok(0); 3],
        [Ok(0); 3],
        [Ok(0), Ok(1), Ok(1)],
        [Ok(1); 3],
    ];
    for step in 0..8 {
        for pick in 0..3 {
            let calls = step as u64 + 1;
            assert!(rt; calls <= disk.calls());
            let left = disk.after_crash(calls, pick as u8).expect(&rt, "memory");
            assert_eq!(rt;
                rows_of(&rt, alloc, &head, left.bytes()),
                wanted[step][pick],
                "pick {pick} after {calls} calls"
            );
        }
    }
    Ok(())
}

#[test]
fn each_failing_call_is_told(rt: HostRuntime) -> Result<(), Fail> {
    let alloc = rt.alloc();
    let head = head();
    for call in 1..6 {
        let fails = FailingCall { call, put: 0 };
        let (read, _disk) = looked_at(&rt, alloc, &head, JOURNAL, fails, 1_000);
        assert_eq!(rt; read, Err(StoreFault::DiskFault));
    }
    for call in 1..4 {
        let fails = FailingCall { call, put: 0 };
        let (made, _disk) = looked_at(&rt, alloc, &head, b"", fails, 1_000);
        assert_eq!(rt; made, Err(StoreFault::DiskFault));
    }
    for call in 4..8 {
        for put in [0, 1] {
            let (done, mut store) = added(&rt, alloc, FailingCall { call, put });
            assert_eq!(rt; done, Err(StoreFault::DiskFault));
            assert!(rt; store.must_reopen());
            assert_eq!(rt; store.journal_len(), 38);
            let is_there = call == 7 || (call == 6 && put == 1);
            assert_eq!(rt; store.reopen(), Ok(is_there), "call {call} put {put}");
            assert_eq!(rt; store.journal_len(), if is_there { 68 } else { 38 });
            assert_eq!(rt; store.reopen(), Ok(is_there), "call {call} put {put}");
        }
    }
    Ok(())
}

#[test]
fn a_change_that_was_found_is_dropped(rt: HostRuntime) {
    let alloc = rt.alloc();
    let (done, mut store) = added(&rt, alloc, FailingCall { call: 7, put: 0 });
    assert_eq!(rt; done, Err(StoreFault::DiskFault));
    let Ok(true) = store.reopen() else {
        panic!(rt; "not found");
    };
    assert!(rt; store.drop_last().is_ok());
    assert_eq!(rt; store.journal_len(), 38);
    assert_eq!(rt;
        rows_of(&rt, alloc, &head(), store.into_disk().bytes()),
        Ok(0)
    );
}

#[test]
fn a_file_is_full_above_its_limit(rt: HostRuntime) -> Result<(), Fail> {
    let alloc = rt.alloc();
    let path = String::from_str(alloc, "journal.bin")?;
    let mut file = FileDisk::new(rt, path);
    file.open().expect(&rt, "opens");
    let head = head();
    assert!(rt; head.is_lawful());
    let Ok((mut store, _state)) = Store::open(alloc, file, &head, 70) else {
        panic!(rt; "creates");
    };
    let change = write(&rt, alloc, b"a");
    assert_eq!(rt; store.append(alloc, &change), Ok(()));
    assert_eq!(rt; store.journal_len(), 68);
    assert_eq!(rt; store.append(alloc, &change), Err(StoreFault::Full(98)));
    let Ok((_store, state)) = Store::open(alloc, store.into_disk(), &head, 70) else {
        panic!(rt; "opens again");
    };
    let three = BucketId::new(3).expect(&rt, "a bucket");
    assert!(rt; state.rows.get(three).is_some_and(|rows| rows.len() == 1));
    Ok(())
}

// Appends so many writes, each of a key of its own, and makes them of the state, too.
fn fill(
    rt: &impl Abort,
    alloc: Global,
    store: &mut Store<PlainDisk>,
    state: &mut SetState,
    head: &Head,
    count: u32,
)
    requires holds { Holds store.old head.now (durable state.old) None }
    requires ready { IsReady store.old }
{
    for number in 0..count {
        let key = [
            b'a' + (number / 676 % 26) as u8,
            b'a' + (number / 26 % 26) as u8,
            b'a' + (number % 26) as u8,
        ];
        let change = write(rt, alloc, &key);
        assert!(rt; state.fits(&change, head.bucket_count));
        store.append(alloc, &change).expect(rt, "appends");
        state.apply(alloc, change).expect(rt, "memory");
    }
}

#[test]
fn a_journal_of_3000_bodies_opens_to_their_fold(rt: HostRuntime) {
    let alloc = rt.alloc();
    let head = head();
    assert!(rt; head.is_lawful());
    let Ok((mut store, mut state)) = Store::open(alloc, PlainDisk::new(alloc), &head, 1_000_000)
    else {
        panic!(rt; "creates");
    };
    fill(&rt, alloc, &mut store, &mut state, &head, 3_000);
    assert_eq!(rt; store.journal_len(), 38 + 3_000 * 32);
    let Ok((_again, read)) = Store::open(alloc, store.into_disk(), &head, 1_000_000) else {
        panic!(rt; "opens");
    };
    let three = BucketId::new(3).expect(&rt, "a bucket");
    assert!(rt; read.rows.get(three).is_some_and(|rows| rows.len() == 3_000));
    assert!(rt; read.equals(&state));
}
