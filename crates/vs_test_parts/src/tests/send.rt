//! The causes for which a transfer is given up, phase by phase.

use vs_base::{OpNo, SetNo};
use vs_send::{AbortCause, By, Phase, RecvFault, Transfer};

// A cause, without what it names.
fn name(cause: Option<AbortCause>) -> &'static str {
    match cause {
        None => "none",
        Some(cause) => match cause {
            AbortCause::Drained => "drained",
            AbortCause::Receiver(_) => "receiver",
            AbortCause::Closed => "closed",
            AbortCause::SetDown(_) => "down",
            AbortCause::Stopped => "stopped",
        },
    }
}

// Every phase. A connection that waits was opened with epoch 5.
fn phases() -> [Phase; 10] {
    [
        Phase::Draining(0),
        Phase::Draining(255),
        Phase::Draining(256),
        Phase::Ready(None),
        Phase::Waiting(5, 1, None),
        Phase::Copied,
        Phase::Sealed,
        Phase::WaitingLast(5, 2),
        Phase::Refused(RecvFault::SetLocked),
        Phase::Done,
    ]
}

// How many writes are running, whether the receiver is up, and the epoch.
const MOMENTS: [(u32, bool, u64); 4] = [(0, true, 5), (1, true, 5), (0, true, 6), (1, false, 6)];

// For each phase: no write and a write running while the epoch is 5, no write while it is 6, a write while the receiver
// is down.
const CAUSES: [[&str; 4]; 10] = [
    ["none", "none", "none", "down"],
    ["none", "none", "none", "down"],
    ["none", "drained", "none", "down"],
    ["none", "none", "none", "down"],
    ["none", "none", "closed", "down"],
    ["none", "none", "none", "down"],
    ["none", "none", "none", "down"],
    ["none", "none", "closed", "down"],
    ["receiver", "receiver", "receiver", "receiver"],
    ["none", "none", "none", "none"],
];

#[test]
fn causes(rt: HostRuntime) {
    let dest = SetNo::new(2).expect(&rt, "2 is a set");
    let operator = OpNo::new(1).expect(&rt, "1 is an operator");
    for (i, phase) in phases().into_iter().enumerate() {
        let mut transfer = Transfer::start(dest, By::Command(operator));
        transfer.phase = phase;
        for (j, (writes, is_up, epoch)) in MOMENTS.iter().enumerate() {
            let cause = transfer.abort_cause(*writes, *is_up, *epoch);
            assert_eq!(rt; name(cause), CAUSES[i][j], "at {i}, {j}");
        }
    }
}
