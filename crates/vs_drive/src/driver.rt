//! Drivers.

ghost use Rattle.std.specs.Prelude.{◌≡◌, ◌++◌, ◌∷◌, [], ℕ, ◌+◌, ◌≤◌, All, IfOk, OnOk, length, map};
ghost use Rattle.vs_core.specs.Core.{means};
ghost use Rattle.vs_drive.specs.Drivers.{actor_of, actors_in, operators_in, sets_in, clients_in, IsFresh};
ghost use Rattle.vs_state.specs.Plain.{plain};
ghost use Rattle.vs_state.specs.Sized.{IsSized};

use crate::client::ClientDriver;
use std::alloc::Global;
use vs_base::{ClientNo, NoMemory, OpNo, SetNo};
use vs_core::Core;
use vs_state::State;

/// Why a driver can't go on.
#[derive(Clone, Copy, Debug)]
pub enum DriveFault {
    /// The journal of this set has no room for the entry of an event.
    Full(SetNo),
    NoMemory,
}

/// Whose a driver is.
#[derive(Drop)]
pub enum Actor {
    /// It runs the calls of a client.
    Client(ClientDriver),
    /// It carries out the commands of this operator.
    Operator(OpNo),
    /// It takes the messages of this set, brings it up again, asks about its buckets, and deletes what it sent.
    Service(SetNo),
    /// It moves buckets from this set.
    Mover(SetNo),
}

/// What one thread does for one actor of a cluster.
#[derive(Drop)]
pub struct Driver {
    pub actor: Actor,
    /// Why its last part of a round ended early, if it did.
    pub fault: Option<DriveFault>,
}

/// Adds a driver.
fn add(drivers: &mut Vec<Driver>, actor: Actor) -> Result<(), NoMemory>
    ensures { OnOk result (drivers.new.items ≡ drivers.old.items ++ record { actor = actor; fault = None } ∷ []) }
{
    drivers.push(Driver { actor, fault: None })?;
    Ok(())
}

/// Adds a driver of each client.
fn add_clients(alloc: Global, state: &State, drivers: &mut Vec<Driver>) -> Result<(), NoMemory>
    requires sized { IsSized state.now }
    requires fresh { All (IsFresh (plain state.now)) drivers.old.items }
    ensures actors { OnOk result (map actor_of drivers.new.items
        ≡ map actor_of drivers.old.items ++ clients_in (plain state.now)) }
    ensures fresh { OnOk result (All (IsFresh (plain state.now)) drivers.new.items) }
{
    for index in 0..state.clients.len() as u8 {
        let Some(client) = ClientNo::new(index + 1) else {
            unreachable!()
        };
        let driver = ClientDriver::new(alloc, client, state.config.bucket_count)?;
        add(drivers, Actor::Client(driver))?;
    }
    Ok(())
}

/// Adds a driver of each operator.
fn add_operators(state: &State, drivers: &mut Vec<Driver>) -> Result<(), NoMemory>
    requires sized { IsSized state.now }
    requires fresh { All (IsFresh (plain state.now)) drivers.old.items }
    ensures actors { OnOk result (map actor_of drivers.new.items
        ≡ map actor_of drivers.old.items ++ operators_in (plain state.now)) }
    ensures fresh { OnOk result (All (IsFresh (plain state.now)) drivers.new.items) }
{
    for index in 0..state.operators.len() as u8 {
        let Some(operator) = OpNo::new(index + 1) else {
            unreachable!()
        };
        add(drivers, Actor::Operator(operator))?;
    }
    Ok(())
}

/// Adds the drivers of each set.
fn add_sets(state: &State, drivers: &mut Vec<Driver>) -> Result<(), NoMemory>
    requires sized { IsSized state.now }
    requires fresh { All (IsFresh (plain state.now)) drivers.old.items }
    ensures actors { OnOk result (map actor_of drivers.new.items
        ≡ map actor_of drivers.old.items ++ sets_in (plain state.now)) }
    ensures fresh { OnOk result (All (IsFresh (plain state.now)) drivers.new.items) }
{
    for index in 0..state.set_count() {
        let Some(set) = SetNo::new(index + 1) else {
            unreachable!()
        };
        add(drivers, Actor::Service(set))?;
        add(drivers, Actor::Mover(set))?;
    }
    Ok(())
}

/// The drivers of a cluster: of each client and of each operator that its scripts name, and of each set its service and its mover.
pub fn drivers(alloc: Global, core: &Core) -> Result<Vec<Driver>, NoMemory>
    // One driver of each, in the order of their numbers.
    ensures actors { IfOk result (λ drivers. map actor_of drivers.items ≡ actors_in (means core.now)) }

    // None has a fault, and no client's driver knows where a bucket is.
    ensures fresh { IfOk result (λ drivers. All (IsFresh (means core.now)) drivers.items) }
{
    let state = core.state();
    let mut drivers = Vec::new(alloc);
    add_clients(alloc, state, &mut drivers)?;
    add_operators(state, &mut drivers)?;
    add_sets(state, &mut drivers)?;
    Ok(drivers)
}
