//! What the service of a set does next.

ghost use Rattle.std.specs.Prelude.{◌≡◌, ◌↔◌, ℕ, Bool, IfSome, IfNone};
ghost use Rattle.vs_machine.specs.Actors as actors;
ghost use Rattle.vs_machine.specs.Actors.{HasEvent, IsLeftAside, IsOf, IsPossible};
ghost use Rattle.vs_state.specs.Plain.{plain};
ghost use Rattle.vs_core.specs.Core.{means};
ghost use Rattle.vs_choose.specs.Restart.{IsBare, IsBareChoice};
ghost use Rattle.vs_choose.specs.Service.{IsIdleAt};

use crate::possible::{if_possible, is_possible};
use vs_base::{BucketId, SetNo};
use vs_core::Core;
use vs_event::{Event, RestartBy};
use vs_space::Status;
use vs_state::State;

/// The set takes a message, from the lowest set of which one is under way.
fn next_message(core: &Core, set: SetNo) -> Option<Event>
    ensures choice { IfSome result (IsBareChoice (means core.now) (actors.Service set)) }
    ensures none { IfNone result ((x : ℕ) → IsPossible (means core.now) (Event.Deliver x set) → ⊥) }
{
    for index in 0..core.state().set_count() {
        let from = SetNo::new(index + 1)?;
        let event = Event::Deliver(from, set);
        if is_possible(core, &event) {
            return Some(event);
        }
    }
    None
}

/// The set hears a reply, from the lowest set of which one is under way.
fn next_reply(core: &Core, set: SetNo) -> Option<Event>
    ensures choice { IfSome result (IsBareChoice (means core.now) (actors.Service set)) }
    ensures none { IfNone result ((y : ℕ) → IsPossible (means core.now) (Event.Hear set y) → ⊥) }
{
    for index in 0..core.state().set_count() {
        let from = SetNo::new(index + 1)?;
        let event = Event::Hear(set, from);
        if is_possible(core, &event) {
            return Some(event);
        }
    }
    None
}

/// The set comes up again, as if nothing were pending.
fn next_restart(core: &Core, set: SetNo) -> Option<Event>
    ensures choice { IfSome result (IsBareChoice (means core.now) (actors.Service set)) }
    ensures none { IfNone result ((kept : Bool)
        → IsPossible (means core.now) (Event.Restart set kept RestartBy.Service) → ⊥) }
{
    if_possible(core, &Event::Restart(set, false, RestartBy::Service))
}

/// The one event that the bucket's status at the set leaves open. A question is left aside where the rows are still
/// to come.
fn open_event(state: &State, set: SetNo, bucket: BucketId) -> Option<Event>
    ensures own { IfSome result (IsOf (actors.Service set)) }
    ensures bare { IfSome result IsBare }
    ensures wanted { IfSome result (λ e. IsLeftAside (plain state.now) e → ⊥) }
    ensures only { IfSome result (λ e. (IsPossible (plain state.now) e → ⊥)
        → IsIdleAt (plain state.now) set bucket) }
    ensures none { IfNone result (IsIdleAt (plain state.now) set bucket) }
{
    let status = state.entry(set, bucket)?;
    match status {
        Status::Active | Status::Pinned => None,
        Status::Sending(_) => Some(Event::Ask(set, bucket)),
        Status::Receiving(sender) => {
            if state.transfer(sender, bucket).is_some() {
                return None;
            }
            Some(Event::Ask(set, bucket))
        }
        Status::Sent(_) => Some(Event::Condemn(set, bucket)),
        Status::Garbage => {
            if state.row_count(set, bucket) > 0 {
                return Some(Event::Wipe(set, bucket));
            }
            Some(Event::Forget(set, bucket))
        }
    }
}

/// What the set does next with a bucket.
fn event_for(core: &Core, set: SetNo, bucket: BucketId) -> Option<Event>
    ensures choice { IfSome result (IsBareChoice (means core.now) (actors.Service set)) }
    ensures none { IfNone result (IsIdleAt (means core.now) set bucket) }
{
    let event = open_event(core.state(), set, bucket)?;
    if is_possible(core, &event) {
        Some(event)
    } else {
        None
    }
}

/// What the set does next with the lowest bucket with which it has something to do.
fn next_of_buckets(core: &Core, set: SetNo) -> Option<Event>
    ensures choice { IfSome result (IsBareChoice (means core.now) (actors.Service set)) }
    ensures none { IfNone result ((b : ℕ) → IsIdleAt (means core.now) set b) }
{
    let state = core.state();
    let mut after = None;
    while let Some(bucket) = state.next_open(set, after) {
        if let Some(event) = event_for(core, set, bucket) {
            return Some(event);
        }
        after = Some(bucket);
    }
    None
}

/// The next event of the service of a set: it takes messages and hears replies, brings the set up again, asks about
/// buckets whose transfers were interrupted, and deletes what the set has of buckets that it sent. A set that isn't of the
/// cluster has none. It takes no memory.
///
/// The first of these that is possible is chosen, and of the buckets the lowest. An answer may settle nothing until the
/// other set has asked too, and then the same question is chosen again: so services are to act in turn.
///
/// A restart is answered as a bare one, whatever is pending at the set: `World::restart` takes the one that the set's
/// journal shows.
///
/// It reads the lines from and to the set, and then the buckets that are neither active nor pinned there, and no other.
pub fn next_service(core: &Core, set: SetNo) -> Option<Event>
    // It is an event of this service that can happen, and isn't left aside; a restart is a bare one.
    ensures choice { IfSome result (IsBareChoice (means core.now) (actors.Service set)) }

    // There is none exactly where there is no such event.
    ensures none { (result ≡ None) ↔ ¬ (HasEvent (means core.now) (actors.Service set)) }
{
    if let Some(event) = next_message(core, set) {
        return Some(event);
    }
    if let Some(event) = next_reply(core, set) {
        return Some(event);
    }
    if let Some(event) = next_restart(core, set) {
        return Some(event);
    }
    next_of_buckets(core, set)
}
