//! Plans of as few waves as can be.

ghost use Rattle.std.specs.Prelude.{◌≡◌, ◌≢◌, ◌+◌, ◌*◌, ◌<◌, ◌≤◌, ◌^◌, List, [], map, length, IfOk};
ghost use Rattle.std.specs.List.{flat_map, All};
ghost use Rattle.vs_balance.specs.declared.route.Route.{Route};
ghost use Rattle.vs_waves.specs.Plan.{CanPlan, IsRightPlan, plan_of};
ghost use Rattle.vs_waves.specs.Forcing.{HasForced, AreLeastWaves};
ghost use Rattle.vs_waves.specs.Flows.{flow_of, move_of, Fits, HasSetNos};

use crate::flow::Flow;
use crate::forcing::side;
use crate::laying::{end_wave, lay};
use crate::wave::{Move, Wave, Waves};
use std::alloc::Global;
use vs_balance::Routes;
use vs_base::{NoMemory, SetNo};

/// A plan that moves what the routes say, in as few waves as can be.
///
/// `sets` is the number of sets of the cluster. In one wave a set gives at most `max_sending` buckets and
/// takes at most `max_receiving`, vshard's `rebalancer_max_sending` and `rebalancer_max_receiving`. Whether
/// routes can be planned at all is told by [`can_plan`](crate::can_plan). The one error is want of memory.
pub fn waves(
    alloc: Global,
    routes: &Routes,
    sets: u8,
    max_sending: u32,
    max_receiving: u32,
) -> Result<Waves, NoMemory>
    requires { CanPlan sets max_sending max_receiving routes.now.items }

    ensures right { IfOk result (λ waves.
        IsRightPlan max_sending max_receiving routes.now.items (plan_of waves.items)) }
    // no right plan has fewer waves
    ensures least { IfOk result (λ waves. (plan : List (List Route)) →
        IsRightPlan max_sending max_receiving routes.now.items plan
        → length (plan_of waves.items) ≤ length plan) }
    // some set forces that number
    ensures forced { IfOk result (λ waves. routes.now.items ≢ [] →
        HasForced (length (plan_of waves.items)) sets max_sending max_receiving routes.now.items) }
{
    let mut left = least_waves(routes.as_slice(), sets, max_sending, max_receiving);
    let mut flows = flows_of(alloc, routes.as_slice())?;
    let mut waves = Waves::new(alloc);
    while left > 0 {
        left -= 1;
        lay(&mut flows, left, max_sending, max_receiving);
        let wave = wave_of(alloc, &flows)?;
        waves.reserve()?;
        waves.push(wave);
        end_wave(&mut flows);
    }
    Ok(waves)
}

// The least number of waves into which each set's load fits.
fn least_waves(moves: &[Move], sets: u8, max_sending: u32, max_receiving: u32) -> u32
    requires { CanPlan sets max_sending max_receiving moves.now }
    ensures { AreLeastWaves result (sets + 1) max_sending max_receiving moves.now }
{
    let mut waves: u32 = 0;
    for set in 1..sets + 1 {
        let (gives, load) = side(moves, set);
        let limit = if gives { max_sending } else { max_receiving };
        waves = waves.max(load.div_ceil(limit));
    }
    waves
}

// The routes, with nothing in a wave.
fn flows_of(alloc: Global, routes: &[Move]) -> Result<Vec<Flow>, NoMemory>
    ensures flows { IfOk result (λ flows. flows.items ≡ map flow_of routes.now) }
    ensures numbered { IfOk result (λ _. All HasSetNos routes.now) }
{
    let mut flows = Vec::with_capacity(alloc, routes.len())?;
    for route in routes {
        flows.push(Flow {
            near: route.giver.get(),
            far: route.taker.get(),
            rest: route.number,
            now: 0,
        })?;
    }
    Ok(flows)
}

// The moves of this wave.
fn wave_of(alloc: Global, flows: &[Flow]) -> Result<Wave, NoMemory>
    requires { Fits flows.now }
    ensures { IfOk result (λ wave. wave.items ≡ flat_map move_of flows.now) }
{
    let mut wave = Wave::new(alloc);
    for flow in flows {
        if flow.now > 0 {
            wave.reserve()?;
            wave.push(Move {
                giver: SetNo::new(flow.near).unwrap(),
                taker: SetNo::new(flow.far).unwrap(),
                number: flow.now,
            });
        }
    }
    Ok(wave)
}
