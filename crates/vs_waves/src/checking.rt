//! Whether a plan is right.

ghost use Rattle.std.specs.Prelude.{◌≡◌, ◌↔◌, ◌≤◌, ◌-◌, ◌<◌, ◌&&◌, ◌==◌, ℕ, IsTrue, IsOk, IfOk, IfSome, IfNone, true, nat_le, slice_index_or};
ghost use Rattle.std.specs.List.{sum_by, list_any, All};
ghost use Rattle.std.specs.Option.{SomeIff};
ghost use Rattle.vs_balance.specs.Moves.{given, taken, IsBefore};
ghost use Rattle.vs_waves.specs.Plan.{between, between_in_all, has_route, IsListed, IsWave, IsRightPlan, plan_of};

use crate::wave::{Move, Wave, Waves};
use vs_balance::{Route, Routes};
use vs_base::NoMemory;

/// Whether a plan is right for these routes: whether in each of its waves every set keeps to its limit,
/// and all waves together move what the routes say and nothing else.
///
/// The limits are what a set may give and what it may take in one wave. It takes no memory, so it never
/// fails.
pub fn check_waves(
    routes: &Routes,
    waves: &Waves,
    max_sending: u32,
    max_receiving: u32,
) -> Result<bool, NoMemory>
    requires { IsListed routes.now.items }
    ensures right { IfOk result (λ right. IsTrue right ↔
        IsRightPlan max_sending max_receiving routes.now.items (plan_of waves.now.items)) }
    ensures memory { IsOk result }
{
    Ok(is_right(routes, waves, max_sending, max_receiving))
}

// Whether a plan is right: each wave is one, along routes alone, and the numbers of each route sum to its own.
fn is_right(routes: &Routes, waves: &Waves, max_sending: u32, max_receiving: u32) -> bool
    requires { IsListed routes.now.items }
    ensures { IsTrue result ↔
        IsRightPlan max_sending max_receiving routes.now.items (plan_of waves.now.items) }
{
    let routes = routes.as_slice();
    let waves = waves.as_slice();
    for wave in waves {
        let moves = wave.as_slice();
        if !is_wave(moves, max_sending, max_receiving) || !has_routes(routes, moves) {
            return false;
        }
    }
    for route in routes {
        if !sums_to(waves, route.giver.get(), route.taker.get(), route.number) {
            return false;
        }
    }
    true
}

// Whether a wave is listed in order, and no set passes its limit in it.
fn is_wave(moves: &[Move], max_sending: u32, max_receiving: u32) -> bool
    ensures { IsTrue result ↔ IsWave max_sending max_receiving moves.now }
{
    if !is_listed(moves) {
        return false;
    }
    for m in moves {
        if !given_within(moves, m.giver.get(), max_sending)
            || !taken_within(moves, m.taker.get(), max_receiving)
        {
            return false;
        }
    }
    true
}

// Whether these moves stand in order, with no pair twice, and each moves something.
pub(crate) fn is_listed(moves: &[Move]) -> bool
    ensures { IsTrue result ↔ IsListed moves.now }
{
    for i in 0..moves.len() {
        if moves[i].number == 0 || i > 0 && !is_before(&moves[i - 1], &moves[i]) {
            return false;
        }
    }
    true
}

// Whether a move comes before another.
fn is_before(a: &Move, b: &Move) -> bool
    ensures { IsTrue result ↔ IsBefore a.now b.now }
{
    let (giver, next) = (a.giver.get(), b.giver.get());
    giver < next || giver == next && a.taker.get() < b.taker.get()
}

// Whether a set gives at most this much.
fn given_within(moves: &[Move], set: u8, limit: u32) -> bool
    ensures { IsTrue result ↔ (given set moves.now ≤ limit) }
{
    let mut left = limit;
    for m in moves {
        if m.giver.get() == set {
            if m.number > left {
                return false;
            }
            left -= m.number;
        }
    }
    true
}

// Whether a set takes at most this much.
fn taken_within(moves: &[Move], set: u8, limit: u32) -> bool
    ensures { IsTrue result ↔ (taken set moves.now ≤ limit) }
{
    let mut left = limit;
    for m in moves {
        if m.taker.get() == set {
            if m.number > left {
                return false;
            }
            left -= m.number;
        }
    }
    true
}

// Whether each move is along a route.
fn has_routes(routes: &[Route], moves: &[Move]) -> bool
    ensures { IsTrue result ↔ All (λ m. has_route m.giver m.taker routes.now ≡ true) moves.now }
{
    for m in moves {
        if !has_route(routes, m.giver.get(), m.taker.get()) {
            return false;
        }
    }
    true
}

// Whether there is a route between two sets.
fn has_route(routes: &[Route], giver: u8, taker: u8) -> bool
    ensures { result ≡ has_route giver taker routes.now }
{
    routes.iter().any(|route| route.giver.get() == giver && route.taker.get() == taker)
}

// Whether all waves together move just this much between two sets.
fn sums_to(waves: &[Wave], giver: u8, taker: u8, number: u32) -> bool
    ensures { IsTrue result ↔ (between_in_all giver taker (plan_of waves.now) ≡ number) }
{
    let mut left = number;
    for wave in waves {
        match left_of(wave.as_slice(), giver, taker, left) {
            Some(less) => left = less,
            None => return false,
        }
    }
    left == 0
}

// What is left of a number after these moves between two sets.
fn left_of(moves: &[Move], giver: u8, taker: u8, number: u32) -> Option<u32>
    ensures { SomeIff result (between giver taker moves.now ≤ number) (number - between giver taker moves.now) }
{
    let mut left = number;
    for m in moves {
        if m.giver.get() == giver && m.taker.get() == taker {
            if m.number > left {
                return None;
            }
            left -= m.number;
        }
    }
    Some(left)
}
