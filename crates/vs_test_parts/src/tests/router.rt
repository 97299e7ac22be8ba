//! Hints that are followed, and a search.

use vs_base::{BucketId, Ids, SetNo};
use vs_router::{Router, SetSaid};
use vs_space::Cause;

#[test]
fn follows_a_hint_once(rt: HostRuntime) {
    let first = SetNo::new(1).expect(&rt, "1 is a set");
    let second = SetNo::new(2).expect(&rt, "2 is a set");
    let id = BucketId::new(3).expect(&rt, "3 is a bucket");
    let mut ids = Ids::new(rt.alloc());
    assert_eq!(rt; ids.reserve(), Ok(()));
    ids.push(id);
    let mut router = Router::new(rt.alloc(), 4).expect(&rt, "memory");
    assert!(rt; router.buckets() == 4);
    router.learn(first, &ids);
    assert_eq!(rt; router.cached(id), Some(first));
    router.refused(id, Cause::BucketIsLocked);
    assert_eq!(rt; router.cached(id), Some(first));
    router.refused(id, Cause::WrongBucket(Some(second)));
    assert_eq!(rt; router.cached(id), Some(second));
    router.refused(id, Cause::WrongBucket(Some(first)));
    assert_eq!(rt; router.cached(id), None);
}

#[test]
fn finds_the_lowest_set_that_serves(rt: HostRuntime) {
    let first = SetNo::new(1).expect(&rt, "1 is a set");
    let second = SetNo::new(2).expect(&rt, "2 is a set");
    let id = BucketId::new(3).expect(&rt, "3 is a bucket");
    for (up, serves, found) in [
        ([true, true], [true, true], Some(first)),
        ([true, true], [false, true], Some(second)),
        ([false, true], [true, true], Some(second)),
        ([false, false], [true, true], None),
    ] {
        let said = [
            SetSaid {
                set: second,
                up: up[1],
                serves: serves[1],
            },
            SetSaid {
                set: first,
                up: up[0],
                serves: serves[0],
            },
        ];
        let mut router = Router::new(rt.alloc(), 4).expect(&rt, "memory");
        assert!(rt; router.buckets() == 4);
        assert_eq!(rt; router.search(id, &said), found);
        assert!(rt; router.buckets() == 4);
        assert_eq!(rt; router.cached(id), found);
    }
}
