//! The line of a cluster.

ghost use Rattle.std.specs.Prelude.{◌≡◌, ◌++◌, codes, IfOk};
ghost use Rattle.serde_json.specs.Written.{compact_text};
ghost use Rattle.vs_config.specs.Configuration.{configuration};
ghost use Rattle.vs_core.specs.Core.{means};
ghost use Rattle.vs_info.specs.Info.{info_text};
ghost use Rattle.vs_info.specs.Json.{cluster_json};

use crate::balance::is_disbalanced;
use crate::summary::{SetSummary, summaries};
use crate::values::cluster_value;
use std::alloc::Global;
use vs_base::NoMemory;
use vs_config::Config;
use vs_core::Core;
use vs_machine::{every_event, given_inputs};

/// The line of a cluster of so many buckets.
fn cluster_line(
    alloc: Global,
    bucket_count: u32,
    sets: &[SetSummary],
    is_unbalanced: bool,
) -> Result<Vec<u8>, NoMemory>
    ensures { IfOk result (λ line. line.items
        ≡ compact_text (cluster_json bucket_count sets.now is_unbalanced) ++ codes "\n") }
{
    let mut line = cluster_value(alloc, bucket_count, sets, is_unbalanced)?.to_vec(alloc)?;
    line.push(b'\n')?;
    Ok(line)
}

/// What is told of a cluster, as one line of compact JSON that ends by a line feed.
///
/// Its object has `alerts`, `bucket_count` and `sets`. Each set has its `uuid`, and the number of its buckets in each
/// status. The alerts are texts: of each set in order `set S moving N`, with its sending and receiving buckets, and
/// `set S garbage N`, with its sent and garbage ones, each where N is above 0; last `disbalanced`, where some set that
/// isn't locked is further from its ideal count than the threshold allows, as vshard's `rebalancer_disbalance_threshold`
/// has it. They stand for what `vshard.storage.info` warns of.
pub fn info(alloc: Global, core: &Core, config: &Config) -> Result<Vec<u8>, NoMemory>
    requires { configuration config.now ≡ (means core.now).config }
    ensures { IfOk result (λ line. line.items ≡ info_text (means core.now)) }
{
    every_event();
    given_inputs();
    let state = core.state();
    let sets = summaries(alloc, state, config)?;
    let is_unbalanced = is_disbalanced(alloc, state)?;
    cluster_line(alloc, config.bucket_count, &sets, is_unbalanced)
}
