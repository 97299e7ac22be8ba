//! The heads of the journals.

ghost use Rattle.std.specs.Prelude.{◌≡◌, ◌≤◌, length, sum, All, IfOk};
ghost use Rattle.vs_config.specs.Configuration.{configuration};
ghost use Rattle.vs_frame.specs.Head.{IsHead};
ghost use Rattle.vs_script.specs.Lawful.{IsWithin};
ghost use Rattle.vs_world.specs.Heads.{heads_from, shares_in, AreHeads};

use std::alloc::Global;
use vs_base::NoMemory;
use vs_config::Config;
use vs_core::new_shares;
use vs_frame::Head;

/// With how many buckets each set begins: in a new cluster with its share of them, else with none.
fn shares(alloc: Global, config: &Config, is_new: bool) -> Result<Vec<u32>, NoMemory>
    requires sets { IsWithin 32 (length config.now.sets.items) }
    requires buckets { IsWithin 30000 config.now.bucket_count }
    ensures sets { IfOk result (λ shares. length shares.items ≡ length config.now.sets.items) }
    ensures buckets { IfOk result (λ shares. sum shares.items ≤ config.now.bucket_count) }
    ensures shares { IfOk result (λ shares. shares.items ≡ shares_in (configuration config.now) is_new) }
{
    if is_new {
        return new_shares(alloc, config);
    }
    let none = vec![in alloc; 0; config.sets.len()]?;
    Ok(none)
}

/// The heads of sets that begin with these numbers of buckets.
fn heads_of(alloc: Global, config: &Config, shares: &[u32]) -> Result<Vec<Head>, NoMemory>
    requires sets { length shares.now ≡ length config.now.sets.items }
    requires buckets { sum shares.now ≤ 30000 }
    ensures { IfOk result (λ heads. heads.items
        ≡ heads_from config.now.bucket_count 1 config.now.sets.items shares.now) }
{
    let mut heads = Vec::with_capacity(alloc, config.sets.len())?;
    let mut first = 1;
    for (i, set) in config.sets.as_slice().iter().enumerate() {
        let count = shares[i];
        heads.push(Head {
            uuid: set.uuid,
            bucket_count: config.bucket_count,
            boot_first: if count == 0 { 0 } else { first },
            boot_count: count,
        })?;
        first += count;
    }
    Ok(heads)
}

/// The head of each set's journal, set 1 first. In a new cluster it names the buckets with which the set begins.
pub(crate) fn heads(alloc: Global, config: &Config, is_new: bool) -> Result<Vec<Head>, NoMemory>
    requires sets { IsWithin 32 (length config.now.sets.items) }
    requires buckets { IsWithin 30000 config.now.bucket_count }
    ensures heads { IfOk result (λ heads. AreHeads (configuration config.now) is_new heads.items) }
    ensures count { IfOk result (λ heads. length heads.items ≡ length config.now.sets.items) }
    ensures lawful { IfOk result (λ heads. All IsHead heads.items) }
    ensures buckets { IfOk result (λ heads. All (λ head. head.bucket_count ≡ config.now.bucket_count) heads.items) }
{
    let shares = shares(alloc, config, is_new)?;
    heads_of(alloc, config, &shares)
}
