//! What the sets of a new cluster have.

ghost use Rattle.std.specs.Prelude.{◌≡◌, ◌≤◌, length, sum, All, IfOk};
ghost use Rattle.vs_config.specs.Configuration.{configuration};
ghost use Rattle.vs_machine.specs.Opening.{IsLawful};
ghost use Rattle.vs_machine.specs.Runs.{IsOpening};
ghost use Rattle.vs_script.specs.Lawful.{IsWithin};
ghost use Rattle.vs_script.specs.Scripts.{Scripts};
ghost use Rattle.vs_core.specs.Booted.{views_of, shares_of, booted};
ghost use Rattle.vs_core.specs.Booting.{AreNewStates};
ghost use Rattle.vs_core.specs.Opened.{held, IsOfBuckets};

use std::alloc::Global;
use vs_balance::{SetView, ideal};
use vs_base::NoMemory;
use vs_config::Config;
use vs_record::SetState;

/// What is seen of the sets where the first has all buckets, none is pinned and no set is locked.
fn views(alloc: Global, config: &Config) -> Result<Vec<SetView>, NoMemory>
    ensures { IfOk result (λ views. views.items ≡ views_of config.now.bucket_count config.now.sets.items) }
{
    let mut views = Vec::with_capacity(alloc, config.sets.len())?;
    let mut count = config.bucket_count;
    for set in config.sets.as_slice() {
        views.push(SetView {
            count,
            pinned: 0,
            weight: set.weight,
            locked: false,
        })?;
        count = 0;
    }
    Ok(views)
}

/// How many buckets each set of a new cluster gets, in order of set number: the sets share out the buckets by their weights.
pub fn new_shares(alloc: Global, config: &Config) -> Result<Vec<u32>, NoMemory>
    requires sets { IsWithin 32 (length config.now.sets.items) }
    requires buckets { IsWithin 30000 config.now.bucket_count }
    ensures shares { IfOk result (λ shares. shares.items ≡ shares_of (configuration config.now)) }
    ensures sets { IfOk result (λ shares. length shares.items ≡ length config.now.sets.items) }
    ensures buckets { IfOk result (λ shares. sum shares.items ≤ config.now.bucket_count) }
{
    let views = views(alloc, config)?;
    ideal(alloc, &views)
}

/// What each set has, where the sets get the buckets in order, as many as their shares are.
fn states_of(alloc: Global, shares: &[u32]) -> Result<Vec<SetState>, NoMemory>
    requires { sum shares.now ≤ 30000 }
    ensures { IfOk result (λ states. AreNewStates 1 shares.now states.items) }
{
    let mut states = Vec::with_capacity(alloc, shares.len())?;
    let mut first = 1;
    for share in shares {
        states.push(SetState::booted(alloc, first, *share)?)?;
        first += *share;
    }
    Ok(states)
}

/// What the sets of a new cluster have, as vshard's `router.bootstrap` makes it: all buckets are active and without rows.
/// The sets share out the buckets by their weights, and set by set gets the next ids, from 1 on.
///
/// A lock counts for nothing here: a locked set gets its share too. Where no set has a weight, the first gets all
/// buckets. The one error is want of memory.
pub fn new_states(alloc: Global, config: &Config) -> Result<Vec<SetState>, NoMemory>
    requires sets { IsWithin 32 (length config.now.sets.items) }
    requires buckets { IsWithin 30000 config.now.bucket_count }
    ensures states { IfOk result (λ states. held states.items ≡ booted (configuration config.now)) }
    ensures sets { IfOk result (λ states. length states.items ≡ length config.now.sets.items) }
    ensures buckets { IfOk result (λ states. All (IsOfBuckets config.now.bucket_count) states.items) }

    // A run with whatever lawful scripts may begin with them.
    ensures opens { (scripts : Scripts) → IsLawful (configuration config.now) scripts
        → IsOpening (configuration config.now) scripts (booted (configuration config.now)) }
{
    let shares = new_shares(alloc, config)?;
    states_of(alloc, &shares)
}
