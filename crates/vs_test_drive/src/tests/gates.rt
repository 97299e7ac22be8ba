//! Threads that a gate holds up until others have come.

use super::outside::{TWO_SETS, call, disks};
use std::sync::atomic::{AtomicBool, AtomicU32, Ordering};
use std::test::Fail;
use std::thread;
use vs_gate::Gate;

/// Waits until the flag is set, for at most 100,000,000 turns. Answers whether it was.
fn is_set_in_time(flag: &AtomicBool) -> bool {
    for _ in 0..100_000_000u32 {
        if flag.load(Ordering::SeqCst) {
            return true;
        }
        thread::yield_now();
    }
    false
}

/// Holds client 2 when it has posted its call until client 1 has begun its own, and client 1 from then on until client 2 has taken its
/// reply.
#[derive(Drop)]
struct Crossing {
    has_first_begun: AtomicBool,
    has_second_taken: AtomicBool,
    /// Whether somebody was held for too long.
    is_late: AtomicBool,
}

impl Crossing {
    fn wait_for(&self, flag: &AtomicBool) {
        if !is_set_in_time(flag) {
            self.is_late.store(true, Ordering::SeqCst);
        }
    }
}

impl Gate for Crossing {
    fn pass(&self, who: u32, _call: u32, stage: u8) {
        match (who, stage) {
            (1, 2) => {
                self.has_first_begun.store(true, Ordering::SeqCst);
                self.wait_for(&self.has_second_taken);
            }
            (2, 1) => self.wait_for(&self.has_first_begun),
            (2, 5) => self.has_second_taken.store(true, Ordering::SeqCst),
            _ => {}
        }
    }
}

const CROSSED: &[u8] =
    b"cluster 2 4\nset 1 up 3 0 0 0 0 0\nset 2 up 1 0 0 0 0 0\nbucket 1 1 active\nbucket 2 1 active\nbucket 3 1 active\nbucket 4 2 active\nhistory 3 0 1 1\nwrite 1 2 1 put b 1 => done\nread 1 1 1 get a => none\ncall 1 1 reply 1 none\ncall 2 1 reply 1 done\nend\n";

/// The call of client 2, once it is posted, and the next event of client 1.
const CROSSING: &str = "\nbegin 2\nact 2\nend 2\ntake 2\nact 1\n";

#[test]
fn a_write_crosses_a_read(rt: HostRuntime) -> Result<(), Fail> {
    let alloc = rt.alloc();
    let gate = Crossing {
        has_first_begun: AtomicBool::new(false),
        has_second_taken: AtomicBool::new(false),
        is_late: AtomicBool::new(false),
    };
    let files: [(&str, &[u8]); 3] = [
        ("config", TWO_SETS),
        ("reads", b"client\nro 3 get a\n"),
        ("writes", b"client\nrw 3 put b 1\n"),
    ];
    let mut disks = disks(alloc, 1, &[])?;
    let ending = call(&rt, alloc, "run", &files, &mut disks, &gate)?;
    assert_eq!(rt; ending.status, 0);
    assert!(rt;
        !gate.is_late.load(Ordering::SeqCst),
        "nobody waits for a thread that doesn't run"
    );
    assert_eq!(rt; ending.host.put_out(), CROSSED);
    let log = str::from_utf8(ending.host.logged())?;
    let after_begin = log.split_once("begin 1").ok_or("client 1 began")?.1;
    assert!(rt; after_begin.contains(CROSSING), "{log}");
    assert_eq!(rt; log.lines().count(), 10);
    Ok(())
}

/// Holds the first worker until another one has come.
#[derive(Drop)]
struct Meeting {
    first: AtomicU32,
    has_another_come: AtomicBool,
    is_late: AtomicBool,
}

impl Gate for Meeting {
    fn pass(&self, who: u32, _call: u32, _stage: u8) {
        match self
            .first
            .compare_exchange(0, who, Ordering::SeqCst, Ordering::SeqCst)
        {
            Ok(_) => {
                if !is_set_in_time(&self.has_another_come) {
                    self.is_late.store(true, Ordering::SeqCst);
                }
            }
            Err(first) => {
                if first != who {
                    self.has_another_come.store(true, Ordering::SeqCst);
                }
            }
        }
    }
}

#[test]
fn two_workers_meet(rt: HostRuntime) -> Result<(), Fail> {
    let alloc = rt.alloc();
    let gate = Meeting {
        first: AtomicU32::new(0),
        has_another_come: AtomicBool::new(false),
        is_late: AtomicBool::new(false),
    };
    let files: [(&str, &[u8]); 3] = [
        ("config", TWO_SETS),
        ("rows", b"client\nrw 3 put a 1\n"),
        ("reads", b"client\nro 3 get a\nro 2 count\n"),
    ];
    let mut disks = disks(alloc, 1, &[])?;
    let ending = call(&rt, alloc, "reads", &files, &mut disks, &gate)?;
    assert_eq!(rt; ending.status, 0);
    assert!(rt;
        gate.has_another_come.load(Ordering::SeqCst) && !gate.is_late.load(Ordering::SeqCst)
    );
    let answers = b"reads 2\ncall 1 1 value 1\ncall 1 2 number 0\nend\n";
    assert_eq!(rt; ending.host.put_out(), answers.as_slice());
    assert_eq!(rt; ending.host.logged(), b"".as_slice());
    Ok(())
}
