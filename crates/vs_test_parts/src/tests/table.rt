//! A sorted map in use.

use vs_base::BucketId;
use vs_table::Table;

#[test]
fn keeps_keys_in_order(rt: HostRuntime) {
    let mut table = Table::new(rt.alloc());
    for (number, value) in [(7, 'a'), (2, 'b'), (9, 'c'), (2, 'd')] {
        let id = BucketId::new(number).expect(&rt, "it is a bucket");
        assert_eq!(rt; table.reserve(), Ok(()));
        table.insert(id, value);
    }
    let low = BucketId::new(2).expect(&rt, "2 is a bucket");
    assert_eq!(rt; table.get(&low), Some(&'d'));
    *table.get_mut(&low).expect(&rt, "a value") = 'e';
    assert_eq!(rt;
        table.after(&low).map(|entry| (entry.0.get(), entry.1)),
        Some((7, 'a'))
    );
    assert_eq!(rt; table.remove(&low), Some('e'));
    assert_eq!(rt; table.contains(&low), false);
    assert_eq!(rt; table.len(), 2);
    table.clear();
    assert_eq!(rt; table.is_empty(), true);
}
