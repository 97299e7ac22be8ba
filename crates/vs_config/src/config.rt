//! What a cluster is told when it opens.

ghost use Rattle.std.specs.Prelude.{◌≡◌, ◌↔◌, IfOk, IsTrue};
ghost use Rattle.vs_config.specs.Configuration.{configuration};

use crate::set_list::SetList;
use uuid::Uuid;
use vs_base::NoMemory;

/// The configuration of a cluster, after the keys of the same names in vshard's.
#[derive(Drop)]
pub struct Config {
    /// How many buckets the cluster has, from 1 to 30,000.
    pub bucket_count: u32,
    /// By how many percent of its ideal count a set may be off before buckets are moved, from 0
    /// to 100.
    pub threshold: u32,
    /// How many buckets a set may be receiving at once, from 1 to 30,000.
    pub max_receiving: u32,
    /// How many buckets of one round a set may be sending at once, from 1 to 15.
    pub max_sending: u32,
    /// The sets, in the order of their numbers. The first has number 1.
    pub sets: SetList,
}

/// The configuration of one set, which is one replica set of vshard.
#[derive(Clone, Copy, PartialEq, Eq)]
pub struct SetConfig {
    /// What names the set in its journal. No two sets of a cluster have the same.
    pub uuid: Uuid,
    /// The set's share of the buckets against that of the other sets, from 0 to 1,000,000.
    pub weight: u32,
    /// Whether the set keeps the buckets that it has, and gets no further one.
    pub lock: bool,
}

impl Config {
    /// Whether both have equal numbers and sets. It takes no memory.
    pub fn equals(&self, other: &Config) -> bool
        ensures { IsTrue result ↔ (configuration self.now ≡ configuration other.now) }
    {
        self.bucket_count == other.bucket_count
            && self.threshold == other.threshold
            && self.max_receiving == other.max_receiving
            && self.max_sending == other.max_sending
            && self.sets.equals(&other.sets)
    }

    /// A configuration that equals this one.
    pub fn try_clone(&self) -> Result<Config, NoMemory>
        ensures { IfOk result (λ c. configuration c ≡ configuration self.now) }
    {
        let sets = self.sets.try_clone()?;
        Ok(Config {
            bucket_count: self.bucket_count,
            threshold: self.threshold,
            max_receiving: self.max_receiving,
            max_sending: self.max_sending,
            sets,
        })
    }
}
