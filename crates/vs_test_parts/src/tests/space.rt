//! The tables of verdicts and of changes, case by case, and a space in use.

use std::test::Fail;
use vs_base::{BucketId, Mode, SetNo};
use vs_space::{Cause, Space, Status, StatusKind, Verdict, may_change, verdict};

// What a call meets, without the set that a cause names.
fn name(verdict: Verdict) -> &'static str {
    match verdict {
        Verdict::Granted => "granted",
        Verdict::Refused(cause) => match cause {
            Cause::WrongBucket(None) => "wrong",
            Cause::WrongBucket(Some(_)) => "wrong, sent",
            Cause::TransferInProgress(_) => "transfer",
            Cause::BucketIsLocked => "locked",
            Cause::Down => "down",
        },
    }
}

// Every status, by its place: none, active, pinned, sending to 2 and 3, receiving, sent to 2 and 3, garbage.
fn statuses(two: SetNo, three: SetNo) -> [Option<Status>; 9] {
    [
        None,
        Some(Status::Active),
        Some(Status::Pinned),
        Some(Status::Sending(two)),
        Some(Status::Sending(three)),
        Some(Status::Receiving(two)),
        Some(Status::Sent(two)),
        Some(Status::Sent(three)),
        Some(Status::Garbage),
    ]
}

// A read, a write, and a write while the bucket is locked, for each status.
const VERDICTS: [(&str, &str, &str); 9] = [
    ("wrong", "wrong", "wrong"),
    ("granted", "granted", "locked"),
    ("granted", "granted", "locked"),
    ("granted", "transfer", "transfer"),
    ("granted", "transfer", "transfer"),
    ("transfer", "transfer", "transfer"),
    ("wrong, sent", "wrong, sent", "wrong, sent"),
    ("wrong, sent", "wrong, sent", "wrong, sent"),
    ("wrong", "wrong", "wrong"),
];

// For each status, a letter for each new one: y where it may become that.
const CHANGES: [&str; 9] = [
    "-----y---",
    "--yyy----",
    "-y-------",
    "-y----y--",
    "-y-----y-",
    "-y------y",
    "--------y",
    "--------y",
    "y--------",
];

#[test]
fn tables(rt: HostRuntime) {
    let two = SetNo::new(2).expect(&rt, "2 is a set");
    let three = SetNo::new(3).expect(&rt, "3 is a set");
    let statuses = statuses(two, three);
    for (i, old) in statuses.iter().enumerate() {
        let (read, write, locked) = VERDICTS[i];
        let calls = [
            (Mode::Ro, false, read),
            (Mode::Ro, true, read),
            (Mode::Rw, false, write),
            (Mode::Rw, true, locked),
        ];
        for (mode, is_locked, want) in calls {
            assert_eq!(rt; name(verdict(*old, is_locked, mode)), want, "at {i}");
        }
        for (j, new) in statuses.iter().enumerate() {
            let allowed = CHANGES[i].as_bytes().get(j) == Some(&b'y');
            assert_eq!(rt; may_change(old, new), allowed, "from {i} to {j}");
        }
    }
}

// Buckets at the borders of the parts of the table that a search passes as a whole.
const BORDERS: [u32; 7] = [1, 40, 41, 1_000, 1_001, 29_999, 30_000];

#[test]
fn space(rt: HostRuntime) -> Result<(), Fail> {
    let alloc = rt.alloc();
    let two = SetNo::new(2).expect(&rt, "2 is a set");
    let three = BucketId::new(3).expect(&rt, "3 is a bucket");
    let mut space = Space::booted(alloc, 3, 4)?;
    space.reserve()?;
    assert_eq!(rt; space.count(StatusKind::Active), 4);
    let refused = space.change(three, Some(Status::Garbage));
    assert!(rt; refused.is_err());
    let changed = space.change(three, Some(Status::Sending(two)));
    assert!(rt; changed.is_ok());
    let copy = space.try_clone()?;
    assert_eq!(rt; copy.get(three), Some(Status::Sending(two)));
    assert_eq!(rt; copy.count(StatusKind::Active), 3);
    assert_eq!(rt; copy.count(StatusKind::Sending), 1);
    assert_eq!(rt; copy.next_active(None), BucketId::new(4));
    assert_eq!(rt; copy.next_active(BucketId::new(6)), None);
    assert_eq!(rt; copy.next_open(None), Some(three));
    assert_eq!(rt; copy.next_open(Some(three)), None);

    let mut sparse = Space::new(alloc);
    assert_eq!(rt; sparse.next_open(None), None);
    for number in BORDERS {
        let id = BucketId::new(number).expect(&rt, "a border is a bucket");
        sparse.reserve()?;
        let changed = sparse.change(id, Some(Status::Receiving(two)));
        assert!(rt; changed.is_ok());
    }
    let mut before = 0;
    for number in BORDERS {
        let id = BucketId::new(number).expect(&rt, "a border is a bucket");
        assert_eq!(rt;
            sparse.next_active(BucketId::new(before)),
            None,
            "at {number}"
        );
        assert_eq!(rt;
            sparse.next_open(BucketId::new(before)),
            Some(id),
            "at {number}"
        );
        assert_eq!(rt; sparse.next_open(None), Some(id), "at {number}");
        sparse.reserve()?;
        let changed = sparse.change(id, Some(Status::Active));
        assert!(rt; changed.is_ok());
        assert_eq!(rt;
            sparse.next_active(BucketId::new(before)),
            Some(id),
            "at {number}"
        );
        before = number;
    }
    assert_eq!(rt; sparse.next_open(None), None);
    Ok(())
}
