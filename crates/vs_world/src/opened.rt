//! Worlds that are opened.

ghost use Rattle.std.specs.Prelude.{◌≡◌, ◌<◌, ◌≤◌, ℕ, suc, false, length, slice_index, All, IfOk, IfErr};
ghost use Rattle.vs_config.specs.Configuration.{configuration};
ghost use Rattle.vs_core.specs.Core.{means};
ghost use Rattle.vs_core.specs.Opened.{held};
ghost use Rattle.vs_machine.specs.Journals.{held_as, nothing};
ghost use Rattle.vs_machine.specs.Opening.{IsLawful};
ghost use Rattle.vs_machine.specs.Runs.{IsOpening};
ghost use Rattle.vs_record.specs.States.{durable, IsOfBuckets};
ghost use Rattle.vs_script.specs.Scripts as script;
ghost use Rattle.vs_state.specs.Tables.{numbered};
ghost use Rattle.vs_stores.specs.Stores.{stores_of, disks_of, faults_at};
ghost use Rattle.vs_world.specs.Began.{begun, start_of};
ghost use Rattle.vs_world.specs.Beginning.{AreReadyToBegin, BeginsWith, IsBeginFault};
ghost use Rattle.vs_world.specs.NotOpened.{IsNotOpened};
ghost use Rattle.vs_world.specs.Opened.{IsOpened};

use crate::fault::WorldFault;
use crate::heads::heads;
use crate::opening::{Opening, copy_states};
use crate::world::World;
use std::alloc::Global;
use vs_base::{NoMemory, SetNo};
use vs_config::Config;
use vs_core::Core;
use vs_disk::Disk;
use vs_event::Trace;
use vs_record::SetState;
use vs_script::Scripts;
use vs_stores::{Stores, make_ready};

/// How often the disk of each set failed.
fn fault_counts<D: Disk + Drop>(alloc: Global, stores: &Stores<D>) -> Result<Vec<u64>, NoMemory>
    requires { length (stores_of stores.now) ≤ 32 }
    ensures count { IfOk result (λ counts. length counts.items ≡ length (stores_of stores.now)) }
    ensures counts { IfOk result (λ counts. (k : ℕ) → k < length counts.items
        → slice_index counts.items k ≡ faults_at stores.now (suc k)) }
{
    let sets = stores.sets();
    let mut counts = Vec::with_capacity(alloc, sets)?;
    for i in 0..sets {
        let Some(set) = SetNo::new(i as u8 + 1) else {
            unreachable!()
        };
        counts.push(stores.faults(set))?;
    }
    Ok(counts)
}

/// The cluster of what the journals stand for, and what it begins with.
fn begin_core(
    alloc: Global,
    config: Config,
    scripts: Scripts,
    limit: u64,
    states: Vec<SetState>,
    faults: Vec<u64>,
) -> Result<(Core, Opening), WorldFault>
    requires lawful { IsLawful (configuration config) (script.scripts scripts) }
    requires sets { length states.items ≡ length config.sets.items }
    requires faults { length faults.items ≡ length config.sets.items }
    requires buckets { All (IsOfBuckets config.bucket_count) states.items }
    ensures state { IfOk result (λ r. means r.0 ≡ start_of (begun r.1)) }
    ensures opens { IfOk result (λ r. IsOpening (begun r.1).config (begun r.1).scripts (held_as (begun r.1).states)) }
    ensures unreserved { IfOk result (λ r. r.0.is_reserved ≡ false) }
    ensures config { IfOk result (λ r. (begun r.1).config ≡ configuration config) }
    ensures scripts { IfOk result (λ r. (begun r.1).scripts ≡ script.scripts scripts) }
    ensures limit { IfOk result (λ r. (begun r.1).limit ≡ limit) }
    ensures states { IfOk result (λ r. (begun r.1).states ≡ numbered durable nothing states.items) }
    ensures faults { IfOk result (λ r. (begun r.1).faults ≡ numbered (λ n. n) 0 faults.items) }
    ensures fault { IfErr result (IsBeginFault (length config.sets.items) config.bucket_count (held states.items)) }
{
    let copies = copy_states(alloc, &states)?;
    let given = scripts.try_clone()?;
    let core = Core::new(&config, given, states)?;
    Ok((core, Opening::new(config, scripts, limit, copies, faults)))
}

/// A world in which nothing has happened, of these journals and what they stand for. Else the disks come back.
fn begin<D: Disk + Drop>(
    alloc: Global,
    config: Config,
    scripts: Scripts,
    limit: u64,
    stores: Stores<D>,
    states: Vec<SetState>,
) -> Result<World<D>, (WorldFault, Vec<D>)>
    requires lawful { IsLawful (configuration config) (script.scripts scripts) }
    requires ready { AreReadyToBegin (configuration config) limit states.items stores }
    requires buckets { All (IsOfBuckets config.bucket_count) states.items }
    ensures begins { IfOk result (BeginsWith (configuration config) (script.scripts scripts) limit states.items stores) }
    ensures disks { IfErr result (λ e. e.1.items ≡ disks_of stores) }
    ensures fault { IfErr result (λ e. IsBeginFault (length config.sets.items) config.bucket_count (held states.items) e.0) }
{
    let Ok(faults) = fault_counts(alloc, &stores) else {
        return Err((WorldFault::NoMemory, stores.close()));
    };
    match begin_core(alloc, config, scripts, limit, states, faults) {
        Ok((core, opening)) => Ok(World {
            core,
            stores,
            opening,
            events: Trace::new(alloc),
        }),
        Err(fault) => Err((fault, stores.close())),
    }
}

impl<D: Disk + Drop> World<D> {
    /// Opens the journals of all sets on the first of the 32 disks, set 1 on the first. First the disks of all sets are opened
    /// and their lengths read, then the journals, and the first set that is refused ends it. A journal of length 0 is created.
    /// Where all are so, it is a new cluster, whose buckets are shared out among the sets by their weights; else a set with a
    /// new journal has no buckets. No journal is to be longer than the limit, in bytes.
    pub fn open(
        alloc: Global,
        config: Config,
        scripts: Scripts,
        disks: Vec<D>,
        limit: u64,
    ) -> Result<World<D>, (WorldFault, Vec<D>)>
        requires lawful { IsLawful (configuration config) (script.scripts scripts) }
        requires disks { length disks.items ≡ 32 }
        requires limit { 38 ≤ limit }
        ensures opened { IfOk result (λ w.
            IsOpened D.told (configuration config) (script.scripts scripts) limit disks.items w) }
        ensures refused { IfErr result (λ e.
            IsNotOpened D.told (configuration config) limit disks.items e.0 e.1.items) }
    {
        let mut disks = disks;
        let is_new = match make_ready(&mut disks, config.sets.len()) {
            Ok(is_new) => is_new,
            Err(fault) => return Err((WorldFault::from(fault), disks)),
        };
        let heads = match heads(alloc, &config, is_new) {
            Ok(heads) => heads,
            Err(NoMemory) => return Err((WorldFault::NoMemory, disks)),
        };
        match Stores::open(alloc, disks, &heads, limit) {
            Ok((stores, states)) => begin(alloc, config, scripts, limit, stores, states),
            Err((fault, disks)) => Err((WorldFault::from(fault), disks)),
        }
    }
}
