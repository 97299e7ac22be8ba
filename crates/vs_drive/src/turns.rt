//! What each actor does in a turn.
//!
//! What a turn reads is bounded by what the actor has to do with: an operator its next command, a mover the transfers from its set,
//! a service the connections of its set and the buckets that it sends, receives or deletes, and a client its call. None of them
//! reads all buckets, but a `balance` that begins, and a client that learns a page or whose call no set would grant.

ghost use Rattle.std.specs.Prelude.{◌≡◌, IfErr, IfSome, OnOk};
ghost use Rattle.vs_choose.specs.Restart.{IsBare};
ghost use Rattle.vs_cluster.specs.Calls.{IsDriverEvent, IsPostAllowed};
ghost use Rattle.vs_machine.specs.Actors as actors;
ghost use Rattle.vs_machine.specs.Actors.{IsPossible};
ghost use Rattle.vs_world.specs.Played.{state_of};
ghost use Rattle.vs_drive.specs.Drivers.{actor, client_of};
ghost use Rattle.vs_drive.specs.Turns.{Happened, HasMissed, IsCallEvent, IsTurn, turn_of_page};

use crate::client::ClientDriver;
use crate::driver::{Actor, DriveFault};
use crate::standing::{
    call_number, client_is_done, command_number, core_in, operator_is_done, stage_after, state_in,
};
use crate::turn::{Place, Turn, turn_of};
use std::alloc::Global;
use vs_base::{NoMemory, OpNo, SetNo};
use vs_choose::{next_client, next_mover, next_operator, next_service};
use vs_cluster::Cluster;
use vs_disk::Disk;
use vs_event::Event;
use vs_survey::finished;
use vs_world::StepFault;

/// Carries out an event that an actor chose. A set is started again as its journal shows.
fn carry_out<D: Disk + Drop>(cluster: &mut Cluster<D>, event: Event) -> Result<(), StepFault>
    requires driver { IsDriverEvent event }
    requires possible { IsPossible (state_of cluster.old.world.played) event }
    requires bare { IsBare event }
    ensures ok { OnOk result (Happened cluster.old.world.played cluster.new.world.played event) }
    ensures err { IfErr result (HasMissed cluster.old.world.played cluster.new.world.played) }
{
    match event {
        Event::Restart(set, _, by) => match cluster.restart(set, by) {
            Ok(_) => Ok(()),
            Err(fault) => Err(fault),
        },
        event => cluster.step(event),
    }
}

/// One turn of an operator.
fn operator_turn<D: Disk + Drop>(cluster: &mut Cluster<D>, operator: OpNo) -> Turn
    ensures { IsTurn cluster.old.world.played cluster.new.world.played (actors.Operator operator) result }
{
    if operator_is_done(state_in(cluster), operator) {
        return Turn::Finished;
    }
    let Some(event) = next_operator(core_in(cluster), operator) else {
        return Turn::Idle;
    };
    let place = Place {
        who: 100 + u32::from(operator.get()),
        call: command_number(state_in(cluster), operator),
        stage: 0,
    };
    turn_of(carry_out(cluster, event), place)
}

/// One turn of the service of a set.
fn service_turn<D: Disk + Drop>(cluster: &mut Cluster<D>, set: SetNo) -> Turn
    ensures { IsTurn cluster.old.world.played cluster.new.world.played (actors.Service set) result }
{
    if finished(core_in(cluster)) {
        return Turn::Finished;
    }
    let Some(event) = next_service(core_in(cluster), set) else {
        return Turn::Idle;
    };
    let place = Place {
        who: 200 + u32::from(set.get()),
        call: 0,
        stage: 0,
    };
    turn_of(carry_out(cluster, event), place)
}

/// One turn of the mover of a set.
fn mover_turn<D: Disk + Drop>(cluster: &mut Cluster<D>, set: SetNo) -> Turn
    ensures { IsTurn cluster.old.world.played cluster.new.world.played (actors.Mover set) result }
{
    if finished(core_in(cluster)) {
        return Turn::Finished;
    }
    let Some(event) = next_mover(core_in(cluster), set) else {
        return Turn::Idle;
    };
    let place = Place {
        who: 300 + u32::from(set.get()),
        call: 0,
        stage: 0,
    };
    turn_of(carry_out(cluster, event), place)
}

/// Carries out an event that a client chose.
fn run_call<D: Disk + Drop>(cluster: &mut Cluster<D>, event: Event) -> Result<(), StepFault>
    requires event { IsCallEvent cluster.old event }
    requires possible { IsPossible (state_of cluster.old.world.played) event }
    ensures ok { OnOk result (Happened cluster.old.world.played cluster.new.world.played event) }
    ensures err { IfErr result (HasMissed cluster.old.world.played cluster.new.world.played) }
{
    match event {
        Event::Post(client, set) => cluster.post(client, set),
        event => cluster.step(event),
    }
}

/// One turn of a client that goes on with its call, or posts it to this set.
fn call_turn<D: Disk + Drop>(
    cluster: &mut Cluster<D>,
    driver: &mut ClientDriver,
    to: Option<SetNo>,
) -> Turn
    requires { IfSome to (IsPostAllowed cluster.old (client_of driver.old)) }
    ensures turn { IsTurn cluster.old.world.played cluster.new.world.played (actors.Client (client_of driver.old)) result }
    ensures client { client_of driver.new ≡ client_of driver.old }
{
    let client = driver.client();
    let Some(event) = next_client(core_in(cluster), client, to) else {
        return Turn::Idle;
    };
    let place = Place {
        who: u32::from(client.get()),
        call: call_number(state_in(cluster), client),
        stage: stage_after(&event),
    };
    let turn = turn_of(run_call(cluster, event), place);
    if let Event::Begin(_) = event {
        driver.hear(state_in(cluster));
    }
    turn
}

/// What became of a turn in which a client's driver learned a page.
fn turn_of_page(learned: Result<(), NoMemory>) -> Turn
    ensures { result ≡ turn_of_page learned }
{
    match learned {
        Ok(()) => Turn::Learned,
        Err(NoMemory) => Turn::Stopped(DriveFault::NoMemory),
    }
}

/// One turn of a client. Its driver learns the buckets of each set first.
fn client_turn<D: Disk + Drop>(
    alloc: Global,
    cluster: &mut Cluster<D>,
    driver: &mut ClientDriver,
) -> Turn
    ensures turn { IsTurn cluster.old.world.played cluster.new.world.played (actors.Client (client_of driver.old)) result }
    ensures client { client_of driver.new ≡ client_of driver.old }
{
    if client_is_done(state_in(cluster), driver.client()) {
        return Turn::Finished;
    }
    if let Some(page) = driver.next_page() {
        return turn_of_page(driver.learn(core_in(cluster), page));
    }
    match driver.next_set(alloc, cluster) {
        Ok(to) => call_turn(cluster, driver, to),
        Err(NoMemory) => Turn::Stopped(DriveFault::NoMemory),
    }
}

/// One turn of an actor: at most one event of its own happens.
pub fn turn<D: Disk + Drop>(alloc: Global, cluster: &mut Cluster<D>, whose: &mut Actor) -> Turn
    ensures turn { IsTurn cluster.old.world.played cluster.new.world.played (actor whose.old) result }
    ensures actor { actor whose.new ≡ actor whose.old }
{
    match whose {
        Actor::Client(driver) => client_turn(alloc, cluster, driver),
        Actor::Operator(operator) => operator_turn(cluster, *operator),
        Actor::Service(set) => service_turn(cluster, *set),
        Actor::Mover(set) => mover_turn(cluster, *set),
    }
}
