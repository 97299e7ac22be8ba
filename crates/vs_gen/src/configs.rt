//! The configurations that are generated.

ghost use Rattle.std.specs.Prelude.{◌≡◌, IfOk};
ghost use Rattle.vs_config.specs.Configuration.{configuration};
ghost use Rattle.vs_gen.specs.Configurations.{configuration_of, set_of};

use std::alloc::Global;
use uuid::Uuid;
use vs_base::NoMemory;
use vs_config::{Config, SetConfig, SetList};

/// The set of this number.
fn set(number: u8, weight: u32) -> SetConfig
    ensures { result ≡ set_of number weight }
{
    let uuid = Uuid::from_bytes([0, 0, 0, 0, 0, 0, 0x40, 0, 0x80, 0, 0, 0, 0, 0, 0, number]);
    SetConfig {
        uuid,
        weight,
        lock: false,
    }
}

/// 3,000 buckets over four sets, of which all but the first have the weight 1.
pub(crate) fn config(alloc: Global, weight_of_first: u32) -> Result<Config, NoMemory>
    ensures { IfOk result (λ c. configuration c ≡ configuration_of weight_of_first) }
{
    let mut sets = SetList::new(alloc);
    sets.reserve_many(4)?;
    sets.push(set(1, weight_of_first));
    sets.push(set(2, 1));
    sets.push(set(3, 1));
    sets.push(set(4, 1));
    Ok(Config {
        bucket_count: 3_000,
        threshold: 1,
        max_receiving: 100,
        max_sending: 1,
        sets,
    })
}
