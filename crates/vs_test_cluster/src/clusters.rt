ghost use Rattle.std.specs.Prelude.{◌≡◌, length, IfOk};
ghost use Rattle.vs_config.specs.Configuration.{configuration};
ghost use Rattle.vs_machine.specs.Opening.{IsLawful};
ghost use Rattle.vs_script.specs.Scripts as script;

use std::alloc::{AllocError, Global};
use uuid::Uuid;
use vs_base::NoMemory;
use vs_config::{Config, SetConfig, SetList};
use vs_core::{Core, CoreFault, new_states};
use vs_disk::PlainDisk;
use vs_script::Scripts;

fn set_config(number: u8, weight: u32) -> SetConfig {
    SetConfig {
        uuid: Uuid::from_u128(0x4000_8000_0000_0000_0000 + u128::from(number)),
        weight,
        lock: false,
    }
}

/// A configuration of four buckets and two sets, the first of which begins with buckets 1 to 3, the second with bucket 4. Fails
/// where memory is wanted.
pub fn config(alloc: Global) -> Result<Config, NoMemory>
    ensures buckets { IfOk result (λ c. c.bucket_count ≡ 4) }
    ensures sets { IfOk result (λ c. length c.sets.items ≡ 2) }
    ensures threshold { IfOk result (λ c. c.threshold ≡ 1) }
    ensures receiving { IfOk result (λ c. c.max_receiving ≡ 100) }
    ensures sending { IfOk result (λ c. c.max_sending ≡ 1) }
{
    let mut sets = SetList::new(alloc);
    sets.reserve_many(2)?;
    sets.push(set_config(1, 3));
    sets.push(set_config(2, 1));
    Ok(Config {
        bucket_count: 4,
        threshold: 1,
        max_receiving: 100,
        max_sending: 1,
        sets,
    })
}

/// A new cluster. Fails where memory is wanted.
pub fn new_core(alloc: Global, config: &Config, scripts: Scripts) -> Result<Core, NoMemory>
    requires { IsLawful (configuration config.now) (script.scripts scripts) }
{
    let states = new_states(alloc, config)?;
    match Core::new(config, scripts, states) {
        Ok(core) => Ok(core),
        Err(CoreFault::NoMemory) => Err(NoMemory),
        Err(CoreFault::Incoherent { .. }) => unreachable!(),
    }
}

/// Disks in memory for as many sets as a cluster may have. Fails where memory is wanted.
pub fn plain_disks(alloc: Global) -> Result<Vec<PlainDisk>, AllocError>
    ensures { IfOk result (λ disks. length disks.items ≡ 32) }
{
    let mut disks = Vec::with_capacity(alloc, 32)?;
    for made in 0..32u64 {
        let _made = made;
        disks.push(PlainDisk::new(alloc))?;
    }
    Ok(disks)
}
