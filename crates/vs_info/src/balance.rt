//! Whether the sets are far from their ideal counts.

ghost use Rattle.std.specs.Prelude.{◌≡◌, ◌≤◌, length, IfOk};
ghost use Rattle.vs_machine.specs.Causes.Commands.{is_unbalanced};
ghost use Rattle.vs_machine.specs.Kinds.Rebalancing.{views_of};
ghost use Rattle.vs_state.specs.Plain.{plain};
ghost use Rattle.vs_state.specs.Sized.{IsSized, OnlyItsBuckets};

use std::alloc::Global;
use vs_balance::{SetView, disbalanced, ideal};
use vs_base::{NoMemory, SetNo};
use vs_state::State;

/// What the rebalancer sees of each set.
fn views(alloc: Global, state: &State) -> Result<Vec<SetView>, NoMemory>
    requires sized { IsSized state.now }
    requires buckets { OnlyItsBuckets (plain state.now) }
    ensures { IfOk result (λ views. views.items ≡ views_of (plain state.now)) }
{
    let count = state.set_count();
    let mut views = Vec::with_capacity(alloc, usize::from(count))?;
    for index in 0..count {
        let Some(set) = SetNo::new(index + 1) else {
            unreachable!()
        };
        views.push(state.view(set))?;
    }
    Ok(views)
}

/// Whether some set that isn't locked is too far from its ideal count.
pub(crate) fn is_disbalanced(alloc: Global, state: &State) -> Result<bool, NoMemory>
    requires sets { length state.now.config.sets.items ≤ 32 }
    requires sized { IsSized state.now }
    requires buckets { OnlyItsBuckets (plain state.now) }
    ensures { IfOk result (λ is_far. is_far ≡ is_unbalanced (plain state.now)) }
{
    let views = views(alloc, state)?;
    let ideals = ideal(alloc, &views)?;
    let is_far = disbalanced(&views, &ideals, state.config.threshold);
    Ok(is_far)
}
