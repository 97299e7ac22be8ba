//! What an operator does next.

ghost use Rattle.std.specs.Prelude.{◌≡◌, ◌≢◌, ◌↔◌, ℕ, IfSome, IsSome, IsTrue};
ghost use Rattle.std.specs.Option.{SomeIff};
ghost use Rattle.vs_machine.specs.Actors as actors;
ghost use Rattle.vs_machine.specs.Actors.{HasEvent, IsPossible};
ghost use Rattle.vs_state.specs.Moves.{first_in_move};
ghost use Rattle.vs_state.specs.Plain.{plain};
ghost use Rattle.vs_state.specs.Sized.{IsSized, OnlyItsBuckets};
ghost use Rattle.vs_core.specs.Core.{means};
ghost use Rattle.vs_choose.specs.Operator.{event_of};
ghost use Rattle.vs_choose.specs.Restart.{IsBareChoice};

use crate::possible::if_possible;
use vs_base::{OpNo, SetNo};
use vs_core::Core;
use vs_event::{Event, RestartBy};
use vs_machine::every_event;
use vs_script::Command;
use vs_space::StatusKind;
use vs_state::State;

/// The event by which an operator carries out a command, begins to, or plans a round of it.
fn event_of(operator: OpNo, command: &Command) -> Event
    ensures { result ≡ event_of operator command.now }
{
    match command {
        Command::Send(_, _, _) => Event::Start(operator),
        Command::Pin(_, _) | Command::Unpin(_, _) => Event::Pin(operator),
        Command::Close(_, _) => Event::Close(operator),
        Command::Cut(_, _) => Event::Cut(operator),
        Command::Stop(_) => Event::Stop(operator),
        Command::Restart(set) => Event::Restart(*set, false, RestartBy::Line(operator)),
        Command::Balance => Event::Plan(operator),
    }
}

/// The lowest set that sends or receives a bucket. It reads how many they do, and no bucket.
fn first_moving(state: &State) -> Option<SetNo>
    requires sized { IsSized state.now }
    requires buckets { OnlyItsBuckets (plain state.now) }
    ensures { IsSome result → first_in_move (plain state.now) ≢ None }
{
    for index in 0..state.set_count() {
        let set = SetNo::new(index + 1)?;
        let sending = state.count(set, StatusKind::Sending);
        let receiving = state.count(set, StatusKind::Receiving);
        if sending + receiving > 0 {
            return Some(set);
        }
    }
    None
}

/// Whether no round can be planned, since every set is up and a bucket is on its way.
fn waits_for_moves(core: &Core) -> bool
    ensures { IsTrue result → (o : ℕ) → IsPossible (means core.now) (Event.Plan o) → ⊥ }
{
    every_event();
    let state = core.state();
    match state.first_down() {
        Some(_) => false,
        None => first_moving(state).is_some(),
    }
}

/// Whether the command is one that waits for buckets that are on their way.
fn waits(core: &Core, command: &Command) -> bool
    ensures { IsTrue result → (o : ℕ) → IsPossible (means core.now) (event_of o command.now) → ⊥ }
{
    match command {
        Command::Balance => waits_for_moves(core),
        _ => false,
    }
}

/// The event by which the operator carries out the command, where it can happen.
fn next_of_command(core: &Core, operator: OpNo, command: &Command) -> Option<Event>
    ensures { SomeIff result (IsPossible (means core.now) (event_of operator command.now)) (event_of operator command.now) }
{
    if waits(core, command) {
        return None;
    }
    if_possible(core, &event_of(operator, command))
}

/// The next event of an operator: that of its next command, where it can happen. A bucket that is being moved by its
/// command, and a round of it that isn't over, are waited for. An operator that isn't of the cluster has none. It takes
/// no memory.
///
/// A restart is answered as a bare one, whatever is pending at the set: `World::restart` takes the one that the set's
/// journal shows.
///
/// Where a round can be planned, the statuses of all buckets at all sets are read. Any other turn reads no bucket but the
/// one that a command names.
pub fn next_operator(core: &Core, operator: OpNo) -> Option<Event>
    // It is an event of this operator that can happen, and a restart a bare one.
    ensures choice { IfSome result (IsBareChoice (means core.now) (actors.Operator operator)) }

    // There is none exactly where there is no such event.
    ensures none { (result ≡ None) ↔ ¬ (HasEvent (means core.now) (actors.Operator operator)) }
{
    let command = core.state().next_command(operator)?;
    next_of_command(core, operator, command)
}
