//! The plan for the sets of a configuration that have given counts.

ghost use Rattle.std.specs.Prelude.{◌≡◌, ◌≤◌, length, IfOk};
ghost use Rattle.vs_balance.specs.Moves.{AreRoutes};
ghost use Rattle.vs_config.specs.Configuration.{configuration};
ghost use Rattle.vs_config.specs.Lawful.{IsLawful};
ghost use Rattle.vs_waves.specs.Plan.{CanPlan, plan_of};
ghost use Rattle.vs_plan.specs.Planning.{views_of, ideals_for, routes_for, IsLeastPlan, IsForcedIn};
ghost use Rattle.vs_plan.specs.Reading.{AreCounts};
ghost use Rattle.vs_plan.specs.Text.{IsPlanText};

use crate::counts::SetCount;
use crate::text::plan_text;
use std::alloc::Global;
use vs_balance::{Routes, SetView, ideal, routes};
use vs_base::{BucketId, NoMemory};
use vs_config::{Config, SetConfig};
use vs_waves::{Forced, Waves, forced, waves};

/// The sets, as the rebalancer sees them.
fn views_of(
    alloc: Global,
    sets: &[SetConfig],
    counts: &[SetCount],
) -> Result<Vec<SetView>, NoMemory>
    ensures { IfOk result (λ views. views.items ≡ views_of sets.now counts.now) }
{
    let views = sets.iter().zip(counts).map(|(set, c)| SetView {
        count: c.count,
        pinned: c.pinned,
        weight: set.weight,
        locked: set.lock,
    });
    Ok(views.collect(alloc)?)
}

/// The ideal counts, and the routes to them.
fn routes_for(
    alloc: Global,
    config: &Config,
    counts: &[SetCount],
) -> Result<(Vec<u32>, Routes), NoMemory>
    requires lawful { IsLawful (configuration config.now) }
    requires counts { AreCounts (length config.now.sets.items) counts.now }
    ensures ideals { IfOk result (λ found.
        found.0.items ≡ ideals_for (configuration config.now) counts.now) }
    ensures routes { IfOk result (λ found.
        found.1.items ≡ routes_for (configuration config.now) counts.now) }
    ensures can_plan { IfOk result (λ found. CanPlan (length config.now.sets.items)
        config.now.max_sending config.now.max_receiving found.1.items) }
{
    let views = views_of(alloc, config.sets.as_slice(), counts)?;
    let ideals = ideal(alloc, &views)?;
    let routes = routes(alloc, &views, &ideals, BucketId::MAX)?;
    Ok((ideals, routes))
}

/// As few waves as can be, and the set that forces their number.
fn waves_for(
    alloc: Global,
    config: &Config,
    routes: &Routes,
) -> Result<(Waves, Option<Forced>), NoMemory>
    requires { CanPlan (length config.now.sets.items) config.now.max_sending
        config.now.max_receiving routes.now.items }
    ensures few { IfOk result (λ found. length found.0.items ≤ 60000) }
    ensures least { IfOk result (λ found.
        IsLeastPlan (configuration config.now) routes.now.items (plan_of found.0.items)) }
    ensures forces { IfOk result (λ found. IsForcedIn (configuration config.now) routes.now.items
        (length (plan_of found.0.items)) found.1) }
{
    let sets = config.sets.len() as u8;
    let (max_sending, max_receiving) = (config.max_sending, config.max_receiving);
    let waves = waves(alloc, routes, sets, max_sending, max_receiving)?;
    let forced = forced(routes, sets, waves.len() as u32, max_sending, max_receiving);
    Ok((waves, forced))
}

/// The text of the plan.
pub fn planned_text(
    alloc: Global,
    config: &Config,
    counts: &[SetCount],
) -> Result<Vec<u8>, NoMemory>
    requires lawful { IsLawful (configuration config.now) }
    requires counts { AreCounts (length config.now.sets.items) counts.now }
    ensures { IfOk result (λ text. IsPlanText (configuration config.now) counts.now text.items) }
{
    let (ideals, routes) = routes_for(alloc, config, counts)?;
    let (waves, forced) = waves_for(alloc, config, &routes)?;
    plan_text(alloc, &ideals, &waves, forced)
}
