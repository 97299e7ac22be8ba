//! The report of a cluster.

ghost use Rattle.std.specs.Prelude.{◌≡◌, ◌≢◌, ℕ, None, true, IfOk};
ghost use Rattle.vs_machine.specs.State as machine;
ghost use Rattle.vs_machine.specs.Report.{report};
ghost use Rattle.vs_state.specs.Plain.{plain};
ghost use Rattle.vs_state.specs.Sized.{IsSized};

use crate::buckets::put_buckets;
use crate::clients::put_clients;
use crate::histories::put_histories;
use crate::operators::put_operators;
use crate::sets::{put_cluster, put_sets};
use crate::words::put_text;
use std::alloc::Global;
use vs_base::NoMemory;
use vs_state::State;

/// The report of a cluster: its sets and buckets, the histories, and what calls and commands were answered. Each line
/// ends by a line feed, and the last is `end`.
pub fn report(alloc: Global, state: &State) -> Result<Vec<u8>, NoMemory>
    requires sized { IsSized state.now }

    // Only buckets of the cluster have entries, as in each state that is reached.
    requires within { (b x : ℕ) → ((plain state.now).bucket b).entry x ≢ None
        → machine.has_bucket (plain state.now) b ≡ true }
    ensures { IfOk result (λ text. text.items ≡ report (plain state.now)) }
{
    let mut out = Vec::new(alloc);
    put_cluster(&mut out, state)?;
    put_sets(&mut out, state)?;
    put_buckets(&mut out, state)?;
    put_histories(&mut out, state)?;
    put_clients(&mut out, state)?;
    put_operators(&mut out, state)?;
    put_text(&mut out, b"end\n")?;
    Ok(out)
}
