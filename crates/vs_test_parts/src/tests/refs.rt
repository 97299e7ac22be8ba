//! References that are counted, and a lock.

use vs_base::{BucketId, Mode};
use vs_refs::{Counts, Locked, Refs};

#[test]
fn counts_references_and_refuses_under_a_lock(rt: HostRuntime) {
    let id = BucketId::new(3).expect(&rt, "3 is a bucket");
    let mut refs = Refs::new(rt.alloc());
    assert_eq!(rt; refs.reserve(), Ok(()));
    assert_eq!(rt; refs.take(id, Mode::Rw), Ok(()));
    assert_eq!(rt; refs.reserve(), Ok(()));
    refs.lock(id, Mode::Rw);
    let held = Counts {
        rw: 1,
        rw_lock: true,
        ..Counts::default()
    };
    assert!(rt; refs.counts(id) == held);
    assert!(rt; refs.counts(id).count(Mode::Rw) == 1);
    assert_eq!(rt; refs.reserve(), Ok(()));
    assert_eq!(rt; refs.take(id, Mode::Rw), Err(Locked));
    assert!(rt; refs.counts(id).count(Mode::Rw) == 1);
    refs.give(id, Mode::Rw);
    refs.unlock(id, Mode::Rw);
    assert!(rt; refs.counts(id) == Counts::default());
    refs.drop_bucket(id);
    refs.clear();
    assert!(rt; refs.counts(id) == Counts::default());
}
