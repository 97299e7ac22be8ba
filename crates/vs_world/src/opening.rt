//! What a world began with.

ghost use Rattle.std.specs.Prelude.{◌≡◌, ◌↔◌, length, map, IfOk, IsTrue};
ghost use Rattle.vs_record.specs.States.{durable};

use std::alloc::Global;
use vs_base::{NoMemory, SetNo};
use vs_config::Config;
use vs_record::SetState;
use vs_script::Scripts;

/// What a world began with, when the journals of its sets had been opened: the configuration, the scripts, the greatest length
/// that a journal may have, and of each set, set 1 first, what its journal stood for, and how often its disk had failed.
#[derive(Drop)]
pub struct Opening {
    config: Config,
    scripts: Scripts,
    limit: u64,
    states: Vec<SetState>,
    faults: Vec<u64>,
    ghost with_states: { length states.items ≡ length config.sets.items },
    ghost with_faults: { length faults.items ≡ length config.sets.items },
}

/// Copies of these states.
pub(crate) fn copy_states(alloc: Global, states: &[SetState]) -> Result<Vec<SetState>, NoMemory>
    ensures { IfOk result (λ copies. map durable copies.items ≡ map durable states.now) }
{
    let mut copies = Vec::with_capacity(alloc, states.len())?;
    for state in states {
        copies.push(state.try_clone(alloc)?)?;
    }
    Ok(copies)
}

/// Whether the sets have the same entries and rows in both.
fn are_same(some: &[SetState], others: &[SetState]) -> bool
    ensures { IsTrue result ↔ (map durable some.now ≡ map durable others.now) }
{
    for (i, state) in some.iter().enumerate() {
        let Some(other) = others.get(i) else {
            return false;
        };
        if !state.equals(other) {
            return false;
        }
    }
    some.len() == others.len()
}

impl Opening {
    ghost use Rattle.vs_config.specs.Configuration.{configuration};
    ghost use Rattle.vs_machine.specs.Journals.{nothing};
    ghost use Rattle.vs_script.specs.Scripts as script;
    ghost use Rattle.vs_state.specs.Tables.{numbered};
    ghost use Rattle.vs_world.specs.Began.{begun};

    /// What a world begins with.
    pub(crate) fn new(
        config: Config,
        scripts: Scripts,
        limit: u64,
        states: Vec<SetState>,
        faults: Vec<u64>,
    ) -> Opening
        requires states { length states.items ≡ length config.sets.items }
        requires faults { length faults.items ≡ length config.sets.items }
        ensures config { (begun result).config ≡ configuration config }
        ensures scripts { (begun result).scripts ≡ script.scripts scripts }
        ensures limit { (begun result).limit ≡ limit }
        ensures states { (begun result).states ≡ numbered durable nothing states.items }
        ensures faults { (begun result).faults ≡ numbered (λ n. n) 0 faults.items }
    {
        Opening {
            config,
            scripts,
            limit,
            states,
            faults,
        }
    }

    /// The greatest length that a journal may have, in bytes.
    pub fn limit(&self) -> u64
        ensures { result ≡ (begun self.now).limit }
    {
        self.limit
    }

    /// How often the disk of a set had failed, or 0 where it isn't of the cluster.
    pub fn faults(&self, set: SetNo) -> u64
        ensures { result ≡ (begun self.now).faults set }
    {
        match self.faults.get(usize::from(set.get()) - 1) {
            Some(count) => *count,
            None => 0,
        }
    }

    /// An opening that equals this one.
    pub fn try_clone(&self) -> Result<Opening, NoMemory>
        ensures { IfOk result (λ copy. begun copy ≡ begun self.now) }
    {
        let config = self.config.try_clone()?;
        let scripts = self.scripts.try_clone()?;
        let states = copy_states(*self.states.allocator(), &self.states)?;
        let faults = Vec::from_slice(*self.faults.allocator(), &self.faults)?;
        Ok(Opening {
            config,
            scripts,
            limit: self.limit,
            states,
            faults,
        })
    }

    /// Whether both have equal configurations, scripts and limits, and sets with the same entries, rows and counts of faults. It
    /// takes no memory.
    pub fn equals(&self, other: &Opening) -> bool
        ensures { IsTrue result ↔ (begun self.now ≡ begun other.now) }
    {
        if !self.config.equals(&other.config) {
            return false;
        }
        if !self.scripts.equals(&other.scripts) {
            return false;
        }
        if self.limit != other.limit {
            return false;
        }
        if !are_same(&self.states, &other.states) {
            return false;
        }
        self.faults == other.faults
    }
}
