//! An ask that is kept, and the table of decisions.

use vs_base::{BucketId, SetNo};
use vs_recover::{Asks, Decision, decide};
use vs_space::Status;

#[test]
fn keeps_one_ask_a_bucket(rt: HostRuntime) {
    let id = BucketId::new(3).expect(&rt, "3 is a bucket");
    let mut asks = Asks::new(rt.alloc());
    assert_eq!(rt; asks.reserve(), Ok(()));
    asks.put(id, 4, 9);
    assert_eq!(rt; asks.get(id), Some((4, 9)));
    assert_eq!(rt; asks.matches(id, 4, 9), true);
    assert_eq!(rt; asks.matches(id, 5, 9), false);
    asks.drop_ask(id);
    assert_eq!(rt; asks.get(id), None);
}

#[test]
fn decides_by_the_table(rt: HostRuntime) {
    use Decision::{Stay, ToActive, ToGarbage};
    let peer = SetNo::new(2).expect(&rt, "2 is a set");
    let remotes = [
        None,
        Some(Status::Active),
        Some(Status::Pinned),
        Some(Status::Sending(peer)),
        Some(Status::Receiving(peer)),
        Some(Status::Sent(peer)),
        Some(Status::Garbage),
    ];
    let locals = [
        Status::Active,
        Status::Pinned,
        Status::Sending(peer),
        Status::Receiving(peer),
        Status::Sent(peer),
        Status::Garbage,
    ];
    let sending = [ToActive, Stay, Stay, Stay, Stay, ToActive, ToActive];
    let receiving = [
        ToActive, ToGarbage, ToGarbage, ToGarbage, Stay, ToActive, ToActive,
    ];
    let stay = [Stay; 7];
    // a row for each status here, while a transfer is live at the other set, and else
    let live = [stay, stay, sending, stay, stay, stay];
    let idle = [stay, stay, sending, receiving, stay, stay];
    for (i, local) in locals.iter().enumerate() {
        for (j, remote) in remotes.iter().enumerate() {
            assert!(rt;
                decide(*local, *remote, true) == live[i][j],
                "live, at {i}, {j}"
            );
            assert!(rt;
                decide(*local, *remote, false) == idle[i][j],
                "idle, at {i}, {j}"
            );
        }
    }
}
