//! Which set forces a number of waves.

ghost use Rattle.std.specs.Prelude.{◌≡◌, ◌≤◌, ◌↔◌, IsSome, IfSome};
ghost use Rattle.vs_balance.specs.Moves.{moved};
ghost use Rattle.vs_waves.specs.Plan.{CanPlan};
ghost use Rattle.vs_waves.specs.Forcing.{load, gives, HasForced, IsForced};

use crate::forcing_set::Forced;
use crate::loads::{given, taken};
use crate::wave::Move;
use vs_balance::Routes;
use vs_base::SetNo;

/// The lowest set that can't give or take what it has to in one wave less than `waves`, and None where
/// there is no such set or `waves` is 0.
///
/// The sets and the limits are those of [`waves`](crate::waves). It takes no memory.
pub fn forced(
    routes: &Routes,
    sets: u8,
    waves: u32,
    max_sending: u32,
    max_receiving: u32,
) -> Option<Forced>
    requires { CanPlan sets max_sending max_receiving routes.now.items }
    ensures some { IsSome result ↔ HasForced waves sets max_sending max_receiving routes.now.items }
    ensures lowest { IfSome result (IsForced waves sets max_sending max_receiving routes.now.items) }
{
    if waves == 0 {
        return None;
    }
    let moves = routes.as_slice();
    for number in 1..sets + 1 {
        let (gives, load) = side(moves, number);
        let limit = if gives { max_sending } else { max_receiving };
        if u64::from(load) > u64::from(waves - 1) * u64::from(limit) {
            return Some(Forced {
                set: SetNo::new(number).unwrap(),
                gives,
                load,
                limit,
            });
        }
    }
    None
}

/// Whether a set gives, and what it gives or takes in all.
pub fn side(moves: &[Move], set: u8) -> (bool, u32)
    requires { moved moves.now ≤ 30000 }
    ensures gives { result.0 ≡ gives set moves.now }
    ensures load { result.1 ≡ load set moves.now }
{
    let given = given(moves, set);
    (given > 0, given + taken(moves, set))
}
