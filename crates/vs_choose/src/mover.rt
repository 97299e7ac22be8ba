//! What the mover of a set does next.

ghost use Rattle.std.specs.Prelude.{◌≡◌, ◌↔◌, ℕ, IfSome, IfNone};
ghost use Rattle.vs_machine.specs.Actors as actors;
ghost use Rattle.vs_machine.specs.Actors.{HasEvent, IsChoice, IsPossible};
ghost use Rattle.vs_core.specs.Core.{means};
ghost use Rattle.vs_choose.specs.Mover.{step_in, HasNoMove};

use crate::possible::{if_possible, is_possible};
use vs_balance::Route;
use vs_base::{BucketId, OpNo, SetNo};
use vs_core::Core;
use vs_event::Event;
use vs_send::Phase;

/// What a set does next with a transfer in this phase, unless it gives it up. It waits for replies.
fn step_in(phase: &Phase, set: SetNo, bucket: BucketId) -> Option<Event>
    ensures { result ≡ step_in phase.now set bucket }
{
    match phase {
        Phase::Draining(_) => Some(Event::Freeze(set, bucket)),
        Phase::Ready(_) => Some(Event::Chunk(set, bucket)),
        Phase::Copied => Some(Event::Seal(set, bucket)),
        Phase::Sealed => Some(Event::Last(set, bucket)),
        Phase::Done => Some(Event::EndMove(set, bucket)),
        Phase::Waiting(_, _, _) | Phase::WaitingLast(_, _) | Phase::Refused(_) => None,
    }
}

/// What the set does next with a bucket: it gives the transfer up where it has to, else it goes on with it.
fn next_of_bucket(core: &Core, set: SetNo, bucket: BucketId) -> Option<Event>
    ensures choice { IfSome result (IsChoice (means core.now) (actors.Mover set)) }
    ensures none { IfNone result (HasNoMove (means core.now) set bucket) }
{
    let abort = Event::Abort(set, bucket);
    if is_possible(core, &abort) {
        return Some(abort);
    }
    let transfer = core.state().transfer(set, bucket)?;
    let event = step_in(&transfer.phase, set, bucket)?;
    if_possible(core, &event)
}

/// What the set does next with the lowest bucket of whose transfer there is something to do.
fn next_move(core: &Core, set: SetNo) -> Option<Event>
    ensures choice { IfSome result (IsChoice (means core.now) (actors.Mover set)) }
    ensures none { IfNone result ((b : ℕ) → HasNoMove (means core.now) set b) }
{
    let tables = core.state().set(set)?;
    for entry in tables.transfers.entries() {
        if let Some(event) = next_of_bucket(core, set, entry.0) {
            return Some(event);
        }
    }
    None
}

/// The set begins a transfer by this route of the operator's round, where the route is from it.
fn haul_along(core: &Core, set: SetNo, operator: OpNo, route: &Route) -> Option<Event>
    ensures choice { IfSome result (IsChoice (means core.now) (actors.Mover set)) }
    ensures none { IfNone result (route.now.giver ≡ set
        → IsPossible (means core.now) (Event.Haul operator set route.now.taker) → ⊥) }
{
    if route.giver != set {
        return None;
    }
    if_possible(core, &Event::Haul(operator, set, route.taker))
}

/// The set begins a transfer of the operator's round, by the first route from it with a bucket left.
fn next_haul_of(core: &Core, set: SetNo, operator: OpNo) -> Option<Event>
    ensures choice { IfSome result (IsChoice (means core.now) (actors.Mover set)) }
    ensures none { IfNone result ((d : ℕ) → IsPossible (means core.now) (Event.Haul operator set d) → ⊥) }
{
    let tables = core.state().operator(operator)?;
    for route in tables.routes.as_slice() {
        if let Some(event) = haul_along(core, set, operator, route) {
            return Some(event);
        }
    }
    None
}

/// The set begins a transfer of the lowest operator whose round has one for it.
fn next_haul(core: &Core, set: SetNo) -> Option<Event>
    ensures choice { IfSome result (IsChoice (means core.now) (actors.Mover set)) }
    ensures none { IfNone result ((o d : ℕ) → IsPossible (means core.now) (Event.Haul o set d) → ⊥) }
{
    let state = core.state();
    for index in 0..state.operators.len() as u8 {
        let operator = OpNo::new(index + 1)?;
        if let Some(event) = next_haul_of(core, set, operator) {
            return Some(event);
        }
    }
    None
}

/// The next event of the mover of a set: it goes on with the transfers from the set, gives up those that have to be, and
/// begins transfers of the rounds of `balance` commands. A transfer waits for the running writes, without counting its
/// turns. A set that isn't of the cluster has none. It takes no memory.
///
/// The transfers that are live come first, in the order of their buckets. It reads these, and the routes of the operators'
/// rounds, and no other bucket.
pub fn next_mover(core: &Core, set: SetNo) -> Option<Event>
    // It is an event of this mover that can happen, and isn't left aside.
    ensures choice { IfSome result (IsChoice (means core.now) (actors.Mover set)) }

    // There is none exactly where there is no such event.
    ensures none { (result ≡ None) ↔ ¬ (HasEvent (means core.now) (actors.Mover set)) }
{
    if let Some(event) = next_move(core, set) {
        return Some(event);
    }
    next_haul(core, set)
}
