//! What configurations say that no report shows, and a list of sets.

use std::alloc::Global;
use std::process::Abort;
use std::test::Fail;
use uuid::Uuid;
use vs_config::{SetConfig, SetList, read_config};

const NO_NUMBERS: &str = "[[set]]\nuuid = \"00000000-0000-4000-8000-000000000001\"\n";

const EACH_KEY: &str =
    "rebalancer_max_sending = 15\nrebalancer_max_receiving = 30_000\nrebalancer_disbalance_threshold = 0\nbucket_count = 0x7530\n[[set]]\nname = \"storage_1\"\nuuid = \"{00000000-0000-4000-8000-000000000001}\"\nweight = 0\nlock = true\n[[set]]\nuuid = \"00000000000040008000000000000002\"\n";

fn set(number: u8, weight: u32, lock: bool) -> SetConfig {
    let uuid = Uuid::from_u128(0x4000_8000_0000_0000_0000 + u128::from(number));
    SetConfig { uuid, weight, lock }
}

/// Whether the sets are these.
fn are_sets(sets: &SetList, wanted: &[SetConfig]) -> bool {
    sets.len() == wanted.len()
        && sets.as_slice().iter().zip(wanted).all(|(set, wanted)| {
            set.uuid == wanted.uuid && set.weight == wanted.weight && set.lock == wanted.lock
        })
}

/// A text is read as these four numbers and these sets, and so is its copy.
fn expect(
    rt: &impl Abort,
    alloc: Global,
    text: &str,
    numbers: [u32; 4],
    sets: &[SetConfig],
) -> Result<(), Fail> {
    let config = read_config(alloc, text.as_bytes())?.try_clone()?;
    let read = [
        config.bucket_count,
        config.threshold,
        config.max_receiving,
        config.max_sending,
    ];
    assert_eq!(rt; read, numbers, "of {text}");
    assert!(rt; are_sets(&config.sets, sets), "of {text}");
    Ok(())
}

#[test]
fn configurations_are_read(rt: HostRuntime) -> Result<(), Fail> {
    let alloc = rt.alloc();
    expect(
        &rt,
        alloc,
        NO_NUMBERS,
        [3_000, 1, 100, 1],
        &[set(1, 1, false)],
    )?;
    let sets = [set(1, 0, true), set(2, 1, false)];
    expect(&rt, alloc, EACH_KEY, [30_000, 0, 30_000, 15], &sets)
}

#[test]
fn sets_are_listed(rt: HostRuntime) -> Result<(), Fail> {
    let mut sets = SetList::new(rt.alloc());
    sets.reserve()?;
    sets.push(set(1, 2, false));
    sets.reserve_many(1)?;
    sets.push(set(2, 0, true));
    let copy = sets.try_clone()?;
    assert!(rt; copy.len() == 2 && !copy.is_empty());
    assert!(rt; copy.get(1).is_some_and(|set| set.weight == 0 && set.lock));
    assert!(rt; are_sets(&copy, &[set(1, 2, false), set(2, 0, true)]));
    Ok(())
}
