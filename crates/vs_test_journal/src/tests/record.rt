//! Changes of a set as bodies of a journal, and back.

ghost use Rattle.std.specs.Prelude.{◌≤◌, IfOk};
ghost use Rattle.vs_record.specs.Body.{HasCounts};
ghost use Rattle.vs_record.specs.Change.{change as plain};

use std::alloc::{AllocError, Global};
use std::process::Abort;
use std::test::Fail;
use vs_base::{BucketId, CallId, ClientNo, SetNo};
use vs_record::{Change, RecordFault, SetState, read_change, write_change};
use vs_rows::{Key, Op, Ops, Page, Val};
use vs_space::Status;

// `put a 1` on bucket 3 as call 1 of client 1, as a journal's first part has it.
const WRITE: &[u8] = &[3, 1, 1, 0, 0, 0, 3, 0, 0, 0, 1, 2, 1, b'a', 1, b'1'];

// The same as the first change of the second part.
const NUMBERED: &[u8] = &[
    1, 0, 0, 0, 0, 0, 0, 0, 3, 1, 1, 0, 0, 0, 3, 0, 0, 0, 1, 2, 1, b'a', 1, 0, b'1',
];

fn read(alloc: Global, body: &[u8], version: u8) -> Result<Option<u64>, RecordFault>
    requires { (1 ≤ version) × (version ≤ 2) }
{
    let (number, _change) = read_change(alloc, body, version)?;
    Ok(number)
}

#[test]
fn bodies_of_the_first_part_are_read(rt: HostRuntime) {
    let alloc = rt.alloc();
    let bodies: [&[u8]; 9] = [
        WRITE,
        b"\x01\x03\x00\x00\x00\x01\x00",
        b"\x01\x03\x00\x00\x00\x05\x20",
        b"\x02\x30\x75\x00\x00\x01\x00\x00",
        b"\x02\x03\x00\x00\x00\x01\x02\x00\x01a\x011\x01b\x012",
        b"\x03\x40\xff\xff\xff\xff\x01\x00\x00\x00\x02\x06\x05\x01a\x011\x012",
        b"\x04\x03\x00\x00\x00\xe8\x03",
        b"\x04\x03\x00\x00\x00\x01\x00",
        b"\x05\x03\x00\x00\x00",
    ];
    for body in bodies {
        assert_eq!(rt; read(alloc, body, 1), Ok(None));
        assert_eq!(rt; read(alloc, body, 2), Err(RecordFault::BadBody));
    }
}

#[test]
fn bodies_of_the_second_part_are_read(rt: HostRuntime) {
    let alloc = rt.alloc();
    let bodies: [(&[u8], u64); 5] = [
        (NUMBERED, 1),
        (
            b"\x00\x00\x00\x00\x00\x00\x00\x00\x04\x03\x00\x00\x00\xe8\x03",
            0,
        ),
        (
            b"\xff\xff\xff\xff\xff\xff\xff\xff\x05\x03\x00\x00\x00",
            u64::MAX,
        ),
        (
            b"\x00\x01\x00\x00\x00\x00\x00\x00\x02\x03\x00\x00\x00\x01\x02\x00\x01a\x01\x001\x01b\x02\x0034",
            256,
        ),
        (
            b"\x02\x00\x00\x00\x00\x00\x00\x00\x03\x40\xff\xff\xff\xff\x01\x00\x00\x00\x01\x05\x01a\x01\x001\x01\x002",
            2,
        ),
    ];
    for (body, number) in bodies {
        assert_eq!(rt; read(alloc, body, 2), Ok(Some(number)));
        assert_eq!(rt; read(alloc, body, 1), Err(RecordFault::BadBody));
    }
}

#[test]
fn other_bytes_are_refused(rt: HostRuntime) {
    let alloc = rt.alloc();
    let others: [(&[u8], u8); 24] = [
        (b"", 1),
        (b"\x00\x03\x00\x00\x00", 1),
        (b"\x06\x03\x00\x00\x00", 1),
        (b"\x05\x00\x00\x00\x00", 1),
        (b"\x05\x31\x75\x00\x00", 1),
        (b"\x05\x03\x00\x00", 1),
        (b"\x05\x03\x00\x00\x00\x00", 1),
        (b"\x01\x03\x00\x00\x00\x01\x01", 1),
        (b"\x01\x03\x00\x00\x00\x03\x00", 1),
        (b"\x01\x03\x00\x00\x00\x03\x21", 1),
        (b"\x01\x03\x00\x00\x00\x07\x00", 1),
        (b"\x02\x03\x00\x00\x00\x01\x02\x00\x01b\x011\x01a\x012", 1),
        (b"\x02\x03\x00\x00\x00\x01\x02\x00\x01a\x011\x01a\x012", 1),
        (b"\x02\x03\x00\x00\x00\x01\x01\x00\x01;\x011", 1),
        (b"\x02\x03\x00\x00\x00\x01\x01\x00\x00\x011", 1),
        (b"\x04\x03\x00\x00\x00\xe9\x03", 1),
        (b"\x04\x03\x00\x00\x00\x00\x00", 1),
        (b"\x03\x01\x01\x00\x00\x00\x03\x00\x00\x00\x00", 1),
        (b"", 2),
        (b"\x01\x00\x00\x00\x00\x00\x00", 2),
        (b"\x01\x00\x00\x00\x00\x00\x00\x00", 2),
        (b"\x01\x00\x00\x00\x00\x00\x00\x00\x05\x03\x00\x00", 2),
        (
            b"\x01\x00\x00\x00\x00\x00\x00\x00\x05\x03\x00\x00\x00\x00",
            2,
        ),
        (
            b"\x01\x00\x00\x00\x00\x00\x00\x00\x02\x03\x00\x00\x00\x01\x01\x00\x01a\x00\x00",
            2,
        ),
    ];
    for (body, version) in others {
        assert_eq!(rt; read(alloc, body, version), Err(RecordFault::BadBody));
    }
}

// The body of a write, `put a` with a value of so many bytes, of this number and length.
fn put_of(alloc: Global, number: &[u8], length: &[u8], size: usize) -> Result<Vec<u8>, AllocError> {
    let mut body = Vec::from_slice(alloc, number)?;
    body.extend_from_slice(&WRITE[..14])?;
    body.extend_from_slice(length)?;
    for _ in 0..size {
        body.push(b'v')?;
    }
    Ok(body)
}

#[test]
fn values_have_up_to_64_bytes_and_then_256(rt: HostRuntime) -> Result<(), Fail> {
    let alloc = rt.alloc();
    let seven = &[7, 0, 0, 0, 0, 0, 0, 0];
    assert_eq!(rt; read(alloc, &put_of(alloc, b"", b"\x40", 64)?, 1), Ok(None));
    let long = put_of(alloc, b"", b"\x41", 65)?;
    assert_eq!(rt; read(alloc, &long, 1), Err(RecordFault::BadBody));
    let longest = put_of(alloc, seven, b"\x00\x01", 256)?;
    assert_eq!(rt; read(alloc, &longest, 2), Ok(Some(7)));
    let long = put_of(alloc, seven, b"\x01\x01", 257)?;
    assert_eq!(rt; read(alloc, &long, 2), Err(RecordFault::BadBody));

    let change = put(&rt, alloc, &[b'v'; 256])?;
    assert_eq!(rt;
        write_change(alloc, &change, 7)?.as_slice(),
        longest.as_slice()
    );
    Ok(())
}

// Call 1 of client 1 on bucket 3, which puts this value at `a`.
fn put(rt: &impl Abort, alloc: Global, value: &[u8]) -> Result<Change, Fail>
    ensures { IfOk result (λ change. HasCounts (plain change)) }
{
    let client = ClientNo::new(1).expect(rt, "a client");
    let bucket = BucketId::new(3).expect(rt, "a bucket");
    let op = Op::Put(Key::new(alloc, b"a")?, Val::new(alloc, value)?);
    let ops = Ops::one(alloc, op)?;
    Ok(Change::Write(CallId { client, call: 1 }, bucket, ops))
}

#[test]
fn changes_are_written(rt: HostRuntime) -> Result<(), Fail> {
    let alloc = rt.alloc();
    let bucket = BucketId::new(3).expect(&rt, "a bucket");
    let two = SetNo::new(2).expect(&rt, "a set");
    let change = put(&rt, alloc, b"1")?;
    assert_eq!(rt;
        write_change(alloc, &change.try_clone()?, 1)?.as_slice(),
        NUMBERED
    );
    let mut page = Page::new(alloc);
    page.reserve()?;
    page.push((Key::new(alloc, b"a")?, Val::new(alloc, b"1")?));
    let body = write_change(alloc, &Change::RowsPage(bucket, two, page), 258)?;
    assert_eq!(rt;
        body.as_slice(),
        b"\x02\x01\x00\x00\x00\x00\x00\x00\x02\x03\x00\x00\x00\x02\x01\x00\x01a\x01\x001".as_slice()
    );
    let body = write_change(alloc, &Change::Status(bucket, Status::Sent(two)), 2)?;
    assert_eq!(rt;
        body.as_slice(),
        b"\x02\x00\x00\x00\x00\x00\x00\x00\x01\x03\x00\x00\x00\x05\x02".as_slice()
    );
    let body = write_change(alloc, &Change::Wipe(bucket, 1_000), u64::MAX)?;
    assert_eq!(rt;
        body.as_slice(),
        b"\xff\xff\xff\xff\xff\xff\xff\xff\x04\x03\x00\x00\x00\xe8\x03".as_slice()
    );
    Ok(())
}

// A bucket's change, made where it fits.
fn make(rt: &impl Abort, alloc: Global, state: &mut SetState, body: &[u8]) -> bool {
    let change = read_change(alloc, body, 1).expect(rt, "a body").1;
    if !state.fits(&change, 4) {
        return false;
    }
    assert!(rt; state.apply(alloc, change).is_ok());
    true
}

#[test]
fn changes_that_fit_are_made(rt: HostRuntime) {
    let alloc = rt.alloc();
    let mut state = SetState::booted(alloc, 1, 3).expect(&rt, "memory");
    let bodies: [(&[u8], bool); 14] = [
        (WRITE, true),
        (b"\x05\x03\x00\x00\x00", false),
        (b"\x01\x03\x00\x00\x00\x05\x02", false),
        (b"\x01\x03\x00\x00\x00\x03\x02", true),
        (WRITE, false),
        (b"\x01\x03\x00\x00\x00\x05\x02", true),
        (b"\x01\x03\x00\x00\x00\x06\x00", true),
        (b"\x04\x03\x00\x00\x00\x02\x00", false),
        (b"\x05\x03\x00\x00\x00", false),
        (b"\x04\x03\x00\x00\x00\x01\x00", true),
        (b"\x05\x03\x00\x00\x00", true),
        (b"\x02\x05\x00\x00\x00\x02\x00\x00", false),
        (b"\x02\x04\x00\x00\x00\x02\x01\x00\x01a\x011", true),
        (b"\x02\x04\x00\x00\x00\x01\x00\x00", false),
    ];
    for (body, fits) in bodies {
        let before = state.try_clone(alloc).expect(&rt, "memory");
        assert_eq!(rt; make(&rt, alloc, &mut state, body), fits, "{body:?}");
        assert_eq!(rt; state.equals(&before), !fits);
    }
    let four = BucketId::new(4).expect(&rt, "a bucket");
    assert!(rt; state.rows.get(four).is_some_and(|rows| rows.len() == 1));
    assert!(rt; state.space.get(four).is_some());
}
