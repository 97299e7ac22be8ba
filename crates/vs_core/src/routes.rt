//! What is left of the routes of a round.

ghost use Rattle.std.specs.Prelude.{◌≡◌, if◌then◌else◌, IfOk};
ghost use Rattle.vs_machine.specs.Kinds.Rebalancing as rebalancing;

use vs_balance::{Route, Routes};
use vs_base::{NoMemory, SetNo};

/// Whether a route leads from this set to that.
fn is_route(route: &Route, from: SetNo, to: SetNo) -> bool
    ensures { result ≡ rebalancing.is_route from to route.now }
{
    route.giver == from && route.taker == to
}

/// How many buckets are left on a route, and 0 where it leads from other sets.
fn number_on(route: &Route, from: SetNo, to: SetNo) -> u32
    ensures { result ≡ (if rebalancing.is_route from to route.now then route.now.number else 0) }
{
    if is_route(route, from, to) {
        route.number
    } else {
        0
    }
}

/// How many buckets are left on the route from a set to another. No number above 2^32 - 1 is answered.
pub(crate) fn left_on(routes: &Routes, from: SetNo, to: SetNo) -> Result<u32, NoMemory>
    ensures { IfOk result (λ left. left ≡ rebalancing.left_on routes.now.items from to) }
{
    let mut left: u32 = 0;
    for route in routes.as_slice() {
        left = left
            .checked_add(number_on(route, from, to))
            .ok_or(NoMemory)?;
    }
    Ok(left)
}

/// A route, of which so many are left where it leads from this set to that.
fn route_with(route: &Route, from: SetNo, to: SetNo, left: u32) -> Route
    ensures { result ≡ (if rebalancing.is_route from to route.now then record route.now { number = left } else route.now) }
{
    let mut route = *route;
    if is_route(&route, from, to) {
        route.number = left;
    }
    route
}

/// The routes, of which so many are left on that from a set to another.
pub(crate) fn with_left(
    routes: &Routes,
    from: SetNo,
    to: SetNo,
    left: u32,
) -> Result<Routes, NoMemory>
    ensures { IfOk result (λ rest. rest.items ≡ rebalancing.with_left routes.now.items from to left) }
{
    let mut rest = Routes::new(routes.allocator());
    rest.reserve_many(routes.len())?;
    for route in routes.as_slice() {
        let route = route_with(route, from, to, left);
        rest.push(route);
    }
    Ok(rest)
}
