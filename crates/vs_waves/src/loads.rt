//! What sets give or take.

ghost use Rattle.std.specs.Prelude.{◌≡◌, ◌<◌, ◌^◌};
ghost use Rattle.vs_balance.specs.Moves.{given, taken, moved};

use crate::wave::Move;

/// What this set gives by these moves.
pub fn given(moves: &[Move], set: u8) -> u32
    requires { moved moves.now < 2 ^ 32 }
    ensures { result ≡ given set moves.now }
{
    let mut sum = 0;
    for m in moves {
        if m.giver.get() == set {
            sum += m.number;
        }
    }
    sum
}

/// What this set takes by these moves.
pub fn taken(moves: &[Move], set: u8) -> u32
    requires { moved moves.now < 2 ^ 32 }
    ensures { result ≡ taken set moves.now }
{
    let mut sum = 0;
    for m in moves {
        if m.taker.get() == set {
            sum += m.number;
        }
    }
    sum
}
