//! Whether routes can be planned.

ghost use Rattle.std.specs.Prelude.{◌≡◌, ◌≢◌, ◌↔◌, ◌≤◌, IsTrue};
ghost use Rattle.std.specs.List.{All};
ghost use Rattle.vs_balance.specs.Moves.{moved};
ghost use Rattle.vs_waves.specs.Plan.{CanPlan};

use crate::checking::is_listed;
use crate::wave::Move;
use vs_balance::Routes;

/// Whether [`waves`](crate::waves) can plan these routes under these limits. Where the limits are above 0,
/// those of [`vs_balance::routes`] for a cluster of at most 30,000 buckets are such. It takes no memory.
pub fn can_plan(routes: &Routes, sets: u8, max_sending: u32, max_receiving: u32) -> bool
    ensures { IsTrue result ↔ CanPlan sets max_sending max_receiving routes.now.items }
{
    let moves = routes.as_slice();
    if max_sending == 0 || max_receiving == 0 || sets == 0 || sets > 32 {
        return false;
    }
    if !is_listed(moves) || !are_named(moves, sets) {
        return false;
    }
    if !is_one_way(moves) {
        return false;
    }
    are_few(moves)
}

// Whether all sets are among these.
fn are_named(moves: &[Move], sets: u8) -> bool
    ensures { IsTrue result ↔ All (λ m. (m.giver ≤ sets) × (m.taker ≤ sets)) moves.now }
{
    for m in moves {
        if m.giver.get() > sets || m.taker.get() > sets {
            return false;
        }
    }
    true
}

// Whether no set gives and takes.
fn is_one_way(moves: &[Move]) -> bool
    ensures { IsTrue result ↔ All (λ a. All (λ b. a.giver ≢ b.taker) moves.now) moves.now }
{
    for m in moves {
        if !takes_nothing(moves, m.giver.get()) {
            return false;
        }
    }
    true
}

// Whether a set takes nothing.
fn takes_nothing(moves: &[Move], set: u8) -> bool
    ensures { IsTrue result ↔ All (λ m. set ≢ m.taker) moves.now }
{
    for m in moves {
        if m.taker.get() == set {
            return false;
        }
    }
    true
}

// Whether at most 30,000 buckets are moved.
fn are_few(moves: &[Move]) -> bool
    ensures { IsTrue result ↔ (moved moves.now ≤ 30000) }
{
    let mut left = 30_000;
    for m in moves {
        if m.number > left {
            return false;
        }
        left -= m.number;
    }
    true
}
