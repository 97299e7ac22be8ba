//! A round of an operator's `balance` command moves a bucket.

ghost use Rattle.std.specs.Prelude.{◌≡◌, ◌≤◌, ◌-◌, Ok, IfOk};
ghost use Rattle.vs_machine.specs.Kinds.Rebalancing as rebalancing;
ghost use Rattle.vs_state.specs.Guard.{verdict};
ghost use Rattle.vs_state.specs.Plain.{plain};
ghost use Rattle.vs_core.specs.Keeps.{IsKnown, IsSound};
ghost use Rattle.vs_core.specs.Hauling.{left_after, IsHaulReady};

use crate::commands::set_routes;
use crate::moves;
use crate::routes::{left_on, with_left};
use vs_balance::Routes;
use vs_base::{BucketId, NoMemory, OpNo, SetNo};
use vs_send::By;
use vs_state::State;

/// The bucket that is moved, if there is one, and the routes with what is left of them after that.
#[derive(Drop)]
pub struct PreparedHaul {
    pub bucket: Option<BucketId>,
    pub routes: Routes,
}

/// What is left of the routes once this bucket is moved. Where there is none, nothing is left on that route.
fn routes_after(
    routes: &Routes,
    from: SetNo,
    to: SetNo,
    bucket: &Option<BucketId>,
) -> Result<Routes, NoMemory>
    requires { 1 ≤ rebalancing.left_on routes.now.items from to }
    ensures { IfOk result (λ rest. rest.items ≡ left_after routes.now.items from to bucket.now) }
{
    if bucket.is_none() {
        return with_left(routes, from, to, 0);
    }
    let left = left_on(routes, from, to)?;
    with_left(routes, from, to, left - 1)
}

/// Makes ready what a haul needs: the bucket, the routes after it, and room for its transfer.
pub(crate) fn reserve_haul(
    state: &mut State,
    operator: OpNo,
    from: SetNo,
    to: SetNo,
) -> Result<PreparedHaul, NoMemory>
    requires possible { verdict (rebalancing.haul (plain state.old) operator from to) ≡ Ok tt }
    requires known { IsKnown (plain state.old) }
    requires sound { IsSound state.old }
    ensures ready { IfOk result (λ prepared. IsHaulReady state.new operator from to prepared) }
    ensures same { plain state.new ≡ plain state.old }
    ensures sound { IsSound state.new }
{
    let bucket = state.bucket_to_haul(from, to);
    let Some(tables) = state.operator(operator) else {
        unreachable!()
    };
    let routes = routes_after(&tables.routes, from, to, &bucket)?;
    moves::reserve_begin(state, from)?;
    Ok(PreparedHaul { bucket, routes })
}

/// A round moves one bucket more, where there is one that can be moved.
pub(crate) fn haul(
    state: &mut State,
    operator: OpNo,
    from: SetNo,
    to: SetNo,
    prepared: PreparedHaul,
)
    requires possible { verdict (rebalancing.haul (plain state.old) operator from to) ≡ Ok tt }
    requires known { IsKnown (plain state.old) }
    requires sound { IsSound state.old }
    requires ready { IsHaulReady state.old operator from to prepared }
    ensures step { rebalancing.haul (plain state.old) operator from to ≡ Ok (plain state.new) }
    ensures sound { IsSound state.new }
{
    let PreparedHaul { bucket, routes } = prepared;
    set_routes(state, operator, routes);
    if let Some(bucket) = bucket {
        moves::begin(state, from, bucket, to, By::Haul(operator));
    }
}
