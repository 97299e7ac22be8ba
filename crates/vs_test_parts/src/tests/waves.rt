//! Plans of the moves of a rebalancing in waves.

use std::alloc::Global;
use std::process::Abort;
use std::test::Fail;
use vs_balance::{Route, Routes};
use vs_base::SetNo;
use vs_waves::{Forced, Waves, can_plan, check_waves, forced, waves};

fn set_no(rt: &impl Abort, set: u8) -> SetNo {
    SetNo::new(set).expect(rt, "a set's number")
}

fn listed(rt: &impl Abort, alloc: Global, moves: &[(u8, u8, u32)]) -> Result<Routes, Fail> {
    let mut routes = Routes::new(alloc);
    for &(giver, taker, number) in moves {
        routes.reserve()?;
        routes.push(Route {
            giver: set_no(rt, giver),
            taker: set_no(rt, taker),
            number,
        });
    }
    Ok(routes)
}

/// Plans routes between 32 sets: there are so many waves, in a plan that is right, and this set forces them.
fn expect_plan(
    rt: &impl Abort,
    alloc: Global,
    routes: &Routes,
    (max_sending, max_receiving): (u32, u32),
    number: u32,
    by: Option<Forced>,
) -> Result<Waves, Fail> {
    assert!(rt; can_plan(routes, 32, max_sending, max_receiving));
    let plan = waves(alloc, routes, 32, max_sending, max_receiving)?;
    assert_eq!(rt; plan.len(), number as usize);
    assert!(rt; check_waves(routes, &plan, max_sending, max_receiving)?);
    assert!(rt; forced(routes, 32, number, max_sending, max_receiving) == by);
    assert!(rt;
        forced(
            routes,
            32,
            number.saturating_add(1),
            max_sending,
            max_receiving
        )
        .is_none()
    );
    assert!(rt; forced(routes, 32, 0, max_sending, max_receiving).is_none());
    Ok(plan)
}

fn by(rt: &impl Abort, set: u8, gives: bool, load: u32, limit: u32) -> Option<Forced> {
    Some(Forced {
        set: set_no(rt, set),
        gives,
        load,
        limit,
    })
}

#[test]
fn plans_the_fewest_waves(rt: HostRuntime) -> Result<(), Fail> {
    let alloc = rt.alloc();
    // All in one wave, which is then the routes themselves.
    let few = listed(&rt, alloc, &[(1, 2, 1), (1, 3, 1)])?;
    let plan = expect_plan(&rt, alloc, &few, (2, 100), 1, by(&rt, 1, true, 2, 2))?;
    for wave in plan.as_slice() {
        assert!(rt; wave.as_slice() == few.as_slice());
    }

    // Three sets give 150 each, a bucket at a time.
    let uneven = listed(&rt, alloc, &[(2, 1, 150), (3, 1, 150), (4, 1, 150)])?;
    let one_each = listed(&rt, alloc, &[(2, 1, 1), (3, 1, 1), (4, 1, 1)])?;
    let plan = expect_plan(&rt, alloc, &uneven, (1, 100), 150, by(&rt, 2, true, 150, 1))?;
    for wave in plan.as_slice() {
        assert!(rt; wave.as_slice() == one_each.as_slice());
    }
    Ok(())
}

// A load at a multiple of its limit, and one above: what is given, and what is taken.
#[test]
fn plans_loads_at_a_limit(rt: HostRuntime) -> Result<(), Fail> {
    let alloc = rt.alloc();
    for (moves, limits, number, by) in [
        ([(1, 2, 3), (1, 3, 3)], (3, 100), 2, by(&rt, 1, true, 6, 3)),
        ([(1, 2, 4), (1, 3, 3)], (3, 100), 3, by(&rt, 1, true, 7, 3)),
        ([(1, 3, 4), (2, 3, 4)], (100, 4), 2, by(&rt, 3, false, 8, 4)),
        ([(1, 3, 5), (2, 3, 4)], (100, 4), 3, by(&rt, 3, false, 9, 4)),
    ] {
        let routes = listed(&rt, alloc, &moves)?;
        expect_plan(&rt, alloc, &routes, limits, number, by)?;
    }
    Ok(())
}

// Each set gives to two others or takes from two, so that moves have to make way for others.
#[test]
fn plans_crossed_routes(rt: HostRuntime) -> Result<(), Fail> {
    let alloc = rt.alloc();
    let moves = [
        (1, 4, 2),
        (1, 5, 1),
        (2, 4, 1),
        (2, 6, 2),
        (3, 5, 2),
        (3, 6, 1),
    ];
    let routes = listed(&rt, alloc, &moves)?;
    let plan = expect_plan(&rt, alloc, &routes, (1, 1), 3, by(&rt, 1, true, 3, 1))?;
    assert!(rt; can_plan(&routes, 6, 1, 1));
    assert!(rt; !check_waves(&routes, &plan, 0, 1)?);
    assert!(rt; !check_waves(&routes, &plan, 1, 0)?);
    assert!(rt; !check_waves(&routes, &Waves::new(alloc), 1, 1)?);

    let none = Routes::new(alloc);
    assert!(rt; !check_waves(&none, &plan, 1, 1)?);
    expect_plan(&rt, alloc, &none, (1, 1), 0, None)?;
    Ok(())
}

#[test]
fn tells_what_can_be_planned(rt: HostRuntime) -> Result<(), Fail> {
    let alloc = rt.alloc();
    let routes = listed(&rt, alloc, &[(1, 3, 2), (2, 3, 29_998)])?;
    assert!(rt; can_plan(&routes, 3, 1, 1));
    assert!(rt; !can_plan(&routes, 2, 1, 1));
    assert!(rt; !can_plan(&routes, 33, 1, 1));
    assert!(rt; !can_plan(&routes, 3, 0, 1));
    assert!(rt; !can_plan(&routes, 3, 1, 0));
    for moves in [
        [(1, 3, 2), (2, 3, 29_999)],
        [(1, 3, 2), (2, 3, 0)],
        [(2, 3, 2), (1, 3, 2)],
        [(1, 3, 2), (1, 3, 2)],
        [(1, 3, 2), (3, 2, 2)],
    ] {
        let routes = listed(&rt, alloc, &moves)?;
        assert!(rt; !can_plan(&routes, 32, 1, 1));
    }
    Ok(())
}

/// What a set gives or takes.
fn load(routes: &Routes, set: u8) -> u32 {
    let mut load: u32 = 0;
    for route in routes.as_slice() {
        if route.giver.get() == set || route.taker.get() == set {
            load = load.saturating_add(route.number);
        }
    }
    load
}

// A set forces a number of waves, so a plan of that number has the fewest.
#[test]
fn plans_random_routes(rt: HostRuntime) -> Result<(), Fail> {
    let alloc = rt.alloc();
    let mut seed: u32 = 12345;
    for _ in 0..100 {
        let mut routes = Routes::new(alloc);
        for giver in 1..9 {
            for taker in 9..17 {
                seed = seed.wrapping_mul(1664525).wrapping_add(1013904223);
                let number = (seed >> 16) % 90;
                if number > 29 {
                    routes.reserve()?;
                    routes.push(Route {
                        giver: set_no(&rt, giver),
                        taker: set_no(&rt, taker),
                        number,
                    });
                }
            }
        }
        let max_sending = (seed >> 8) % 15 + 1;
        let max_receiving = (seed >> 12) % 15 + 1;
        let mut number: u32 = 0;
        for set in 1..17 {
            let limit = if set < 9 { max_sending } else { max_receiving };
            number = number.max(load(&routes, set).div_ceil(limit));
        }

        assert!(rt; can_plan(&routes, 16, max_sending, max_receiving));
        let plan = waves(alloc, &routes, 16, max_sending, max_receiving)?;
        assert_eq!(rt; plan.len(), number as usize);
        assert!(rt; check_waves(&routes, &plan, max_sending, max_receiving)?);
    }
    Ok(())
}
