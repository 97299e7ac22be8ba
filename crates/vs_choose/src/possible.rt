//! Whether an event can happen now.

ghost use Rattle.std.specs.Prelude.{◌↔◌, IsTrue};
ghost use Rattle.std.specs.Option.{SomeIff};
ghost use Rattle.vs_machine.specs.Actors.{IsPossible};
ghost use Rattle.vs_core.specs.Core.{means};

use vs_core::Core;
use vs_event::Event;

/// Whether the event can happen now.
pub(crate) fn is_possible(core: &Core, event: &Event) -> bool
    ensures { IsTrue result ↔ IsPossible (means core.now) event.now }
{
    core.can(event).is_ok()
}

/// The event, where it can happen now.
pub(crate) fn if_possible(core: &Core, event: &Event) -> Option<Event>
    ensures { SomeIff result (IsPossible (means core.now) event.now) event.now }
{
    if is_possible(core, event) {
        Some(*event)
    } else {
        None
    }
}
