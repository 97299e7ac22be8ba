//! Plays on a host each of whose calls fails in turn.

use crate::plain_disks;
use std::alloc::{AllocError, Global};
use std::test::Fail;
use vs_host::{MemHost, NamedFile};
use vs_top::play_main;

const CONFIG: &[u8] =
    b"bucket_count = 4\n[[set]]\nuuid = \"00000000-0000-4000-8000-000000000001\"\nweight = 3\n";

const SCRIPT: &[u8] = b"client\nrw 3 put a 1\n";

const REPORT: &[u8] =
    b"cluster 1 4\nset 1 up 4 0 0 0 0 0\nbucket 1 1 active\nbucket 2 1 active\nbucket 3 1 active\nbucket 4 1 active\ncall 1 1 open\nend\n";

/// The events, the call of the host that fails, counted from 1, the status, and what is to be logged.
const PLAYS: [(&[u8], u64, u8, &[u8]); 7] = [
    (b"post 1 1\n", 0, 0, b""),
    (b"post 1 1\n", 1, 5, b"vshard: read input 1\n"),
    (b"post 1 1\n", 2, 5, b"vshard: read input 2\n"),
    (b"post 1 1\n", 3, 5, b"vshard: read input 3\n"),
    (b"post 1 1\n", 4, 6, b"vshard: write\n"),
    (b"act 1\n", 0, 4, b"vshard: event 1: Stage\n"),
    (b"act 01\n", 0, 3, b"vshard: input 2 line 1: BadEvent\n"),
];

fn file(alloc: Global, name: &str, bytes: &[u8]) -> Result<NamedFile, AllocError> {
    Ok(NamedFile {
        name: String::from_str(alloc, name)?,
        bytes: Vec::from_slice(alloc, bytes)?,
    })
}

/// Plays these events. The call of the host with this number fails.
fn played(alloc: Global, events: &[u8], failing: u64) -> Result<(u8, MemHost), AllocError> {
    let mut words = Vec::new(alloc);
    for word in ["play", "config", "events", "script"] {
        words.push(String::from_str(alloc, word)?)?;
    }
    let files = vec![in alloc;
        file(alloc, "config", CONFIG)?,
        file(alloc, "events", events)?,
        file(alloc, "script", SCRIPT)?,
    ]?;
    let mut host = MemHost::new(alloc, files, vec![in alloc; failing]?);
    let mut disks = plain_disks(alloc)?;
    let status = play_main(&words, &mut host, &mut disks);
    Ok((status, host))
}

#[test]
fn plays(rt: HostRuntime) -> Result<(), Fail> {
    for (events, failing, wanted, line) in PLAYS {
        let (status, host) = played(rt.alloc(), events, failing)?;
        assert_eq!(rt; status, wanted, "at call {failing}");
        assert_eq!(rt; host.logged(), line, "at call {failing}");
        if wanted == 0 {
            assert_eq!(rt; host.put_out(), REPORT);
        } else if wanted == 6 {
            assert!(rt; REPORT.starts_with(host.put_out()));
        } else {
            assert_eq!(rt; host.put_out(), b"".as_slice());
        }
    }
    Ok(())
}

// The line can't be logged, or not all of it, and the status stands.
#[test]
fn a_log_that_fails(rt: HostRuntime) -> Result<(), Fail> {
    for (events, failing, wanted, line) in [
        (
            b"act 1\n".as_slice(),
            4,
            4,
            b"vshard: event 1: Stage\n".as_slice(),
        ),
        (b"act 01\n", 3, 3, b"vshard: input 2 line 1: BadEvent\n"),
    ] {
        let (status, host) = played(rt.alloc(), events, failing)?;
        assert_eq!(rt; status, wanted);
        assert!(rt; line.starts_with(host.logged()));
        assert!(rt; host.logged().len() < line.len());
        assert_eq!(rt; host.put_out(), b"".as_slice());
    }
    Ok(())
}
