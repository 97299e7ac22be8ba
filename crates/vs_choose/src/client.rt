//! What a client does next.

ghost use Rattle.std.specs.Prelude.{◌≡◌, ◌↔◌, ℕ, IfSome, IfNone};
ghost use Rattle.vs_machine.specs.Actors.{IsPossible};
ghost use Rattle.vs_core.specs.Core.{means};
ghost use Rattle.vs_choose.specs.Client.{step_at, HasClientEvent, IsClientChoice, HasNoStep};

use crate::possible::{if_possible, is_possible};
use vs_base::{ClientNo, SetNo};
use vs_calls::Stage;
use vs_core::Core;
use vs_event::Event;

/// What a client does with its call at this stage, but for posting it.
fn step_at(client: ClientNo, stage: Stage) -> Option<Event>
    ensures { result ≡ step_at client stage }
{
    match stage {
        Stage::Idle => None,
        Stage::Posted => Some(Event::Begin(client)),
        Stage::Running => Some(Event::Act(client)),
        Stage::Acted => Some(Event::End(client)),
        Stage::Refused | Stage::Ended | Stage::Lost => Some(Event::Take(client)),
    }
}

/// The client goes on with its call, but doesn't post it.
fn next_step(core: &Core, client: ClientNo, to: Option<SetNo>) -> Option<Event>
    ensures choice { IfSome result (IsClientChoice (means core.now) client to) }
    ensures none { IfNone result (HasNoStep (means core.now) client) }
{
    let event = step_at(client, core.state().stage(client))?;
    if is_possible(core, &event) {
        Some(event)
    } else {
        None
    }
}

/// The next event of a client: its call is posted to the set `to`, begins, acts, ends, or is answered. A call is posted
/// first, and again where it was refused and has tries left; without a set it isn't posted. A client that isn't of the
/// cluster has none. It takes no memory, and its time depends on nothing in the cluster.
pub fn next_client(core: &Core, client: ClientNo, to: Option<SetNo>) -> Option<Event>
    // It is an event of this client that can happen, and a post only to this set.
    ensures choice { IfSome result (IsClientChoice (means core.now) client to) }

    // There is none exactly where there is no such event.
    ensures none { (result ≡ None) ↔ ¬ (HasClientEvent (means core.now) client to) }
{
    if let Some(event) = next_step(core, client, to) {
        return Some(event);
    }
    if_possible(core, &Event::Post(client, to?))
}
