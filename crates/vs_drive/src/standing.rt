//! How far an actor has come.

ghost use Rattle.std.specs.Prelude.{◌≡◌, ◌↔◌, ◌^◌, ◌-◌, ◌+◌, IsTrue, length, min};
ghost use Rattle.vs_machine.specs.Actors.{Client, Operator};
ghost use Rattle.vs_core.specs.Core.{means};
ghost use Rattle.vs_state.specs.Plain.{plain};
ghost use Rattle.vs_state.specs.Sized.{IsSized};
ghost use Rattle.vs_world.specs.Played.{state_of};
ghost use Rattle.vs_drive.specs.Turns.{IsDone, stage_after};

use vs_base::{ClientNo, OpNo};
use vs_cluster::Cluster;
use vs_core::Core;
use vs_disk::Disk;
use vs_event::Event;
use vs_state::State;

/// The core of a cluster.
pub fn core_in<D: Disk + Drop>(cluster: &Cluster<D>) -> &Core
    ensures { means result.now ≡ state_of cluster.now.world.played }
{
    cluster.world().core()
}

/// The tables of a cluster.
pub fn state_in<D: Disk + Drop>(cluster: &Cluster<D>) -> &State
    ensures state { plain result.now ≡ state_of cluster.now.world.played }
    ensures sized { IsSized result.now }
{
    cluster.world().core().state()
}

/// Whether a client of the cluster has no call left.
pub fn client_is_done(state: &State, client: ClientNo) -> bool
    ensures { IsTrue result ↔ IsDone (plain state.now) (Client client) }
{
    state.has_client(client) && state.next_call(client).is_none()
}

/// Whether an operator of the cluster has no command left.
pub fn operator_is_done(state: &State, operator: OpNo) -> bool
    ensures { IsTrue result ↔ IsDone (plain state.now) (Operator operator) }
{
    state.has_operator(operator) && state.next_command(operator).is_none()
}

/// The number of a client's present call, from 1.
pub fn call_number(state: &State, client: ClientNo) -> u32
    ensures { result ≡ ((plain state.now).client client).present.number }
{
    match state.client(client) {
        Some(tables) => tables.present.number(),
        None => 1,
    }
}

/// The number of an operator's next command, from 1, and the greatest number past that.
pub fn command_number(state: &State, operator: OpNo) -> u32
    ensures { result ≡ min (length ((plain state.now).operator operator).answered + 1) (2 ^ 32 - 1) }
{
    let answered = match state.operator(operator) {
        Some(tables) => tables.outcomes.len(),
        None => 0,
    };
    u32::try_from(answered)
        .unwrap_or(u32::MAX)
        .saturating_add(1)
}

/// How far an event carries a call: 1 to 5 after it was posted, begun, done, ended and taken, and 0 after any other event.
pub fn stage_after(event: &Event) -> u8
    ensures { result ≡ stage_after event.now }
{
    match event {
        Event::Post(_, _) => 1,
        Event::Begin(_) => 2,
        Event::Act(_) => 3,
        Event::End(_) => 4,
        Event::Take(_) => 5,
        _ => 0,
    }
}
