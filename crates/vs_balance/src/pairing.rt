//! Which sets give buckets to which.

ghost use Rattle.std.specs.Prelude.{◌≡◌, ◌+◌, ◌<◌, ◌≤◌, ◌++◌, length, slice_index, OnOk, IfOk};
ghost use Rattle.vs_balance.specs.Routes.{excesses, lacks, route_of, routes_of};
ghost use Rattle.vs_balance.specs.Moves.{AreRoutes};

use crate::route::{Route, Routes};
use crate::view::SetView;
use std::alloc::Global;
use vs_base::{NoMemory, SetNo};

/// The routes by which sets come to their ideals, in order of giver and then of taker.
///
/// An unlocked set gives what it has above its ideal. One that has less takes the difference, but
/// at most `max_receiving` buckets, vshard's `rebalancer_max_receiving`. Givers and takers are gone
/// through in order of number.
///
/// The one error is want of memory.
pub fn routes(
    alloc: Global,
    views: &[SetView],
    ideals: &[u32],
    max_receiving: u32,
) -> Result<Routes, NoMemory>
    requires same { length views.now ≡ length ideals.now }
    requires sets { length views.now ≤ 32 }
    ensures value { IfOk result (λ routes. routes.items ≡ routes_of views.now ideals.now max_receiving) }
    ensures right { IfOk result (λ routes. AreRoutes views.now ideals.now max_receiving routes.items) }
{
    let mut routes = Routes::new(alloc);
    let mut giver = 0;
    let mut taker = 0;
    let mut excess = excess_at(views, ideals, giver);
    let mut lack = lack_at(views, ideals, max_receiving, taker);
    while giver < views.len() && taker < views.len() {
        let number = excess.min(lack);
        add_route(&mut routes, giver, taker, number)?;
        if excess <= lack {
            giver += 1;
            excess = excess_at(views, ideals, giver);
            lack -= number;
        } else {
            taker += 1;
            excess -= number;
            lack = lack_at(views, ideals, max_receiving, taker);
        }
    }
    Ok(routes)
}

// What the set at this index gives, and 0 past the last.
fn excess_at(views: &[SetView], ideals: &[u32], index: usize) -> u32
    requires { length views.now ≡ length ideals.now }
    ensures { result ≡ slice_index (excesses views.now ideals.now) index }
{
    if index < views.len() {
        views[index].excess(ideals[index])
    } else {
        0
    }
}

// What the set at this index takes, and 0 past the last.
fn lack_at(views: &[SetView], ideals: &[u32], limit: u32, index: usize) -> u32
    requires { length views.now ≡ length ideals.now }
    ensures { result ≡ slice_index (lacks limit views.now ideals.now) index }
{
    if index < views.len() {
        views[index].lack(ideals[index], limit)
    } else {
        0
    }
}

// Adds a route between the sets at these indexes, unless it would move nothing.
fn add_route(routes: &mut Routes, giver: usize, taker: usize, number: u32) -> Result<(), NoMemory>
    requires giver { giver < 32 }
    requires taker { taker < 32 }
    ensures { OnOk result (routes.new.items ≡ routes.old.items ++ route_of (giver + 1) (taker + 1) number) }
{
    if number > 0 {
        let route = Route {
            giver: set_no(giver),
            taker: set_no(taker),
            number,
        };
        routes.reserve()?;
        routes.push(route);
    }
    Ok(())
}

// The number of the set at this index.
fn set_no(index: usize) -> SetNo
    requires { index < 32 }
    ensures { result ≡ index + 1 }
{
    SetNo::new(index as u8 + 1).unwrap()
}
