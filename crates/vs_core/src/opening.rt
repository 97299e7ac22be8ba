//! How a cluster begins.

ghost use Rattle.std.specs.Prelude.{◌≡◌, ℕ, None, length, map, false, All, IfOk, IfErr, OnOk};
ghost use Rattle.vs_config.specs.Configuration.{configuration};
ghost use Rattle.vs_refs.specs.Counts.{no_counts};
ghost use Rattle.vs_refs.specs.Refs.{counts_of};
ghost use Rattle.vs_script.specs.Calls.{calls};
ghost use Rattle.vs_script.specs.Scripts as script;
ghost use Rattle.vs_space.specs.Entries.{status_of, RisesFrom};
ghost use Rattle.vs_machine.specs.Kinds.Collection as collection;
ghost use Rattle.vs_machine.specs.Opening.{IsLawful, opening, client_at, operator_at};
ghost use Rattle.vs_machine.specs.Runs.{IsOpening};
ghost use Rattle.vs_state.specs.Plain.{plain, client, operator};
ghost use Rattle.vs_core.specs.Core.{means};
ghost use Rattle.vs_core.specs.Opened.{held, IsOfBuckets, IsCoreFault};
ghost use Rattle.vs_core.specs.Opening.{HasItsSets, IsOpenedSet, AreOpenedSets, IsOpened, AreBegun, base_in};

use crate::coherence::{first_incoherent, owner, placement};
use crate::cores::Core;
use crate::fault::CoreFault;
use crate::locks::{is_garbage, lock_if};
use std::alloc::Global;
use vs_balance::Routes;
use vs_base::{BucketId, NoMemory};
use vs_calls::{CallState, Outcomes};
use vs_config::Config;
use vs_history::History;
use vs_link::Links;
use vs_record::SetState;
use vs_recover::Asks;
use vs_refs::Refs;
use vs_rows::Rows;
use vs_script::{ClientCalls, OperatorCommands, Scripts};
use vs_space::{Space, StatusKind};
use vs_state::{ClientTables, CommandOutcomes, OperatorTables, SetTables, State};
use vs_table::Table;

/// The references of a set that is up, and at which no call began: buckets that are garbage are locked against reads.
fn garbage_locks(alloc: Global, space: &Space) -> Result<Refs, NoMemory>
    ensures locks { IfOk result (λ refs. (b : ℕ) → counts_of refs.items b
        ≡ record no_counts { ro_lock = collection.is_garbage (status_of space.now.entries b) }) }
    ensures rising { RisesFrom 1 space.now.entries }
{
    let mut refs = Refs::new(alloc);
    if space.count(StatusKind::Garbage) == 0 {
        return Ok(refs);
    }
    let mut after = None;
    while let Some(bucket) = space.next_open(after) {
        let status = space.get(bucket);
        lock_if(&mut refs, bucket, is_garbage(&status))?;
        after = Some(bucket);
    }
    Ok(refs)
}

/// A set that is up, and has what its journal stands for.
fn opened_set(alloc: Global, state: SetState) -> Result<SetTables, NoMemory>
    ensures { IfOk result (λ set. IsOpenedSet state set) }
{
    let refs = garbage_locks(alloc, &state.space)?;
    Ok(SetTables {
        is_up: true,
        space: state.space,
        rows: state.rows,
        kept: Table::new(alloc),
        refs,
        transfers: Table::new(alloc),
        hauls: 0,
        asks: Asks::new(alloc),
        last_fault: 0,
        pending: None,
    })
}

/// Sets that are up, and have what their journals stand for.
fn opened_sets(alloc: Global, states: Vec<SetState>) -> Result<Vec<SetTables>, NoMemory>
    ensures { IfOk result (λ sets. AreOpenedSets states.items sets.items) }
{
    let mut sets = Vec::with_capacity(alloc, states.len())?;
    for state in states {
        sets.push(opened_set(alloc, state)?)?;
    }
    Ok(sets)
}

/// Clients whose first calls weren't posted yet.
fn new_clients(alloc: Global, scripts: ClientCalls) -> Result<Vec<ClientTables>, NoMemory>
    ensures { IfOk result (λ clients.
        map client clients.items ≡ map client_at (map (λ c. calls c.items) scripts.items)) }
{
    let mut clients = Vec::with_capacity(alloc, scripts.len())?;
    for script in scripts.into_vec() {
        clients.push(ClientTables {
            script,
            outcomes: Outcomes::new(alloc),
            present: CallState::new(),
        })?;
    }
    Ok(clients)
}

/// Operators whose first commands weren't carried out yet.
fn new_operators(alloc: Global, scripts: OperatorCommands) -> Result<Vec<OperatorTables>, NoMemory>
    ensures { IfOk result (λ operators.
        map operator operators.items ≡ map operator_at (map (λ c. c.items) scripts.items)) }
{
    let mut operators = Vec::with_capacity(alloc, scripts.len())?;
    for script in scripts.into_vec() {
        operators.push(OperatorTables {
            script,
            outcomes: CommandOutcomes::new(alloc),
            moving: false,
            rounds: 0,
            routes: Routes::new(alloc),
            moved: 0,
        })?;
    }
    Ok(operators)
}

/// The tables of a cluster in which nothing happened, but for the histories.
fn opened_state(config: &Config, scripts: Scripts, states: Vec<SetState>) -> Result<State, NoMemory>
    requires lawful { IsLawful (configuration config.now) (script.scripts scripts) }
    requires sets { length states.items ≡ length config.now.sets.items }
    ensures { IfOk result (λ state. IsOpened (configuration config.now) (script.scripts scripts) states.items state) }
{
    let alloc = *states.allocator();
    let config = config.try_clone()?;
    let sets = opened_sets(alloc, states)?;
    let links = Links::new(alloc, config.sets.len() as u8)?;
    let clients = new_clients(alloc, scripts.clients)?;
    let operators = new_operators(alloc, scripts.operators)?;
    Ok(State {
        config,
        sets,
        links,
        clients,
        operators,
        histories: Vec::new(alloc),
    })
}

/// The rows with which the history of a bucket begins: those of its owner.
fn base_of(state: &State, bucket: BucketId) -> Result<Rows, NoMemory>
    requires { HasItsSets state.now }
    ensures { IfOk result (λ rows. rows.items ≡ base_in (plain state.now) bucket) }
{
    let none = Rows::new(*state.sets.allocator());
    let Some(owner) = owner(state, bucket) else {
        return Ok(none);
    };
    match state.rows(owner, bucket) {
        Some(rows) => rows.try_clone(),
        None => Ok(none),
    }
}

/// The histories of all buckets, on which no call acted.
fn new_histories(state: &State) -> Result<Vec<History>, NoMemory>
    requires { HasItsSets state.now }
    ensures { IfOk result (λ histories. AreBegun (plain state.now) histories.items (plain state.now).config.bucket_count) }
{
    let alloc = *state.sets.allocator();
    let count = state.config.bucket_count;
    let mut histories = Vec::with_capacity(alloc, count as usize)?;
    for before in 0..count {
        let Some(bucket) = BucketId::new(before + 1) else {
            unreachable!()
        };
        histories.push(History::new(alloc, base_of(state, bucket)?))?;
    }
    Ok(histories)
}

impl Core {
    /// A cluster in which nothing has happened yet, whose sets have what their journals stand for: the first of the states
    /// is that of set 1. All sets are up. Each bucket's history begins with the rows of the set that has it active, pinned
    /// or being sent, else of the one that receives it.
    pub fn new(config: &Config, scripts: Scripts, states: Vec<SetState>) -> Result<Core, CoreFault>
        requires lawful { IsLawful (configuration config.now) (script.scripts scripts) }
        requires sets { length states.items ≡ length config.now.sets.items }
        requires buckets { All (IsOfBuckets config.now.bucket_count) states.items }
        ensures opening { IfOk result (λ core. means core
            ≡ opening (configuration config.now) (script.scripts scripts) (held states.items)) }
        ensures coherent { OnOk result (IsOpening (configuration config.now) (script.scripts scripts) (held states.items)) }
        ensures unready { IfOk result (λ core. core.ready_for ≡ None) }
        ensures unreserved { IfOk result (λ core. core.is_reserved ≡ false) }
        ensures fault { IfErr result (IsCoreFault (length config.now.sets.items) config.now.bucket_count (held states.items)) }
    {
        let mut state = opened_state(config, scripts, states)?;
        if let Some(bucket) = first_incoherent(&state) {
            let entries = placement(&state, bucket)?;
            return Err(CoreFault::Incoherent { bucket, entries });
        }
        state.histories = new_histories(&state)?;
        Ok(Core::of_state(state))
    }
}
