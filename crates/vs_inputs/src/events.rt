//! The events.

ghost use Rattle.std.specs.Prelude.{◌≡◌, List, Ok, IfOk, IfErr, IsTrue};
ghost use Rattle.vs_event.specs.declared.event.Event.{Event};
ghost use Rattle.vs_inputs.specs.Gives.{GivesEvents};
ghost use Rattle.vs_inputs.specs.Places.{events_place};
ghost use Rattle.vs_inputs.specs.Reading.{MayGive, IsOutside, ReadsFile};

use crate::fault::{InputFault, TextFault};
use crate::place::EVENTS_PLACE;
use crate::read::read_text;
use std::alloc::Global;
use vs_event::{EventFault, Trace, read_events};
use vs_host::Host;

/// The events of a text.
fn events_of(alloc: Global, text: &[u8]) -> Result<Trace, InputFault>
    ensures gives { MayGive (λ trace. trace.items) events_place (GivesEvents text.now) result }
    ensures good { (events : List Event) → GivesEvents text.now (Ok events)
        → IfErr result IsOutside }
    ensures same { (events : List Event) → GivesEvents text.now (Ok events)
        → IfOk result (λ trace. trace.items ≡ events) }
{
    match read_events(alloc, text) {
        Ok(trace) => Ok(trace),
        Err(EventFault::BadEvent(line)) => {
            Err(InputFault::Text(EVENTS_PLACE, TextFault::Event(line)))
        }
        Err(EventFault::NoMemory) => Err(InputFault::NoMemory),
    }
}

/// Reads the events from their file.
pub fn read_events_file<H: Host>(
    alloc: Global,
    host: &mut H,
    name: &str,
) -> Result<Trace, InputFault>
    requires { IsTrue ((H.told host.old).may_read name.now) }
    ensures { ReadsFile (λ trace. trace.items) events_place name.now GivesEvents
        (H.told host.old) (H.told host.new) result }
{
    let text = read_text(host, name, EVENTS_PLACE)?;
    events_of(alloc, &text)
}
