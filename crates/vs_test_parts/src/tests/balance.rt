//! Worked examples of the balancer.

ghost use Rattle.std.specs.Prelude.{◌≡◌, ◌≤◌, length};
ghost use Rattle.std.specs.List.{sum_by};

use crate::total;
use std::alloc::Global;
use std::process::Abort;
use std::test::Fail;
use vs_balance::{Route, SetView, disbalanced, ideal, routes};
use vs_base::SetNo;

fn view(count: u32, pinned: u32, weight: u32, locked: bool) -> SetView {
    SetView {
        count,
        pinned,
        weight,
        locked,
    }
}

fn expect_ideals(
    rt: &impl Abort,
    alloc: Global,
    views: &[SetView],
    want: &[u32],
) -> Result<(), Fail> {
    assert!(rt; views.len() <= 32);
    assert!(rt; views.iter().all(|view| view.pinned <= view.count));
    assert!(rt; total(views) < 1 << 32);
    let ideals = ideal(alloc, views)?;
    assert_eq!(rt; ideals.as_slice(), want);
    Ok(())
}

#[test]
fn gives_ideals(rt: HostRuntime) -> Result<(), Fail> {
    let even = [
        view(10, 0, 1, false),
        view(0, 0, 1, false),
        view(0, 0, 1, false),
    ];
    expect_ideals(&rt, rt.alloc(), &even, &[3, 3, 4])?;
    let pinned = [view(10, 8, 1, false), view(0, 0, 1, false)];
    expect_ideals(&rt, rt.alloc(), &pinned, &[8, 2])?;
    let weightless = [view(4, 0, 1, false), view(6, 0, 0, false)];
    expect_ideals(&rt, rt.alloc(), &weightless, &[10, 0])?;
    let locked = [view(7, 0, 1, true), view(3, 1, 2, true)];
    expect_ideals(&rt, rt.alloc(), &locked, &[7, 3])?;
    let uneven = [
        view(750, 0, 2, false),
        view(750, 0, 1, false),
        view(750, 0, 1, false),
        view(750, 0, 1, false),
    ];
    expect_ideals(&rt, rt.alloc(), &uneven, &[1200, 600, 600, 600])
}

#[test]
fn gives_routes(rt: HostRuntime) -> Result<(), Fail> {
    let uneven = [
        view(750, 0, 2, false),
        view(750, 0, 1, false),
        view(750, 0, 1, false),
        view(750, 0, 1, false),
    ];
    let ideals = [1200, 600, 600, 600];
    let one = SetNo::new(1).expect(&rt, "a set's number");
    let two = SetNo::new(2).expect(&rt, "a set's number");
    let capped = routes(rt.alloc(), &uneven, &ideals, 100)?;
    let want = [Route {
        giver: two,
        taker: one,
        number: 100,
    }];
    assert!(rt; capped.as_slice() == want.as_slice());

    let locked = [view(7, 0, 1, true), view(3, 1, 2, true)];
    let none = routes(rt.alloc(), &locked, &[7, 3], 100)?;
    assert!(rt; none.is_empty());
    Ok(())
}

#[test]
fn tells_disbalance(rt: HostRuntime) {
    let views = [
        view(110, 0, 1, false),
        view(90, 0, 1, false),
        view(7, 0, 1, true),
    ];
    let ideals = [100, 100, 0];
    assert!(rt; disbalanced(&views, &ideals, 9));
    assert!(rt; !disbalanced(&views, &ideals, 10));
}
