//! What is made ahead for a fault that may come in the place of an event.

ghost use Rattle.std.specs.Prelude.{◌≡◌, true, Some, IfOk, OnOk};
ghost use Rattle.vs_event.specs.Recorded.{event_of};
ghost use Rattle.vs_machine.specs.Kinds.Stops.{Recording, recording_of};
ghost use Rattle.vs_machine.specs.State as machine;
ghost use Rattle.vs_state.specs.Plain.{plain};
ghost use Rattle.vs_core.specs.Keeps.{IsKnown, IsSound};
ghost use Rattle.vs_core.specs.Ready.{IsReadyFor, IsFailReady};
ghost use Rattle.vs_core.specs.Records.{records};
ghost use Rattle.vs_core.specs.declared.dispatch.Prepared.{Prepared};

use crate::going_down::reserve_going_down;
use crate::kinds::fault::PreparedFault;
use crate::records::recorded_by;
use vs_base::NoMemory;
use vs_event::{Event, Recorded};
use vs_state::State;

/// Makes ready that the set goes down at which the event records its change, and copies that change.
fn reserve_recorded(state: &mut State, event: Recorded) -> Result<Option<PreparedFault>, NoMemory>
    requires set { (r : Recording) → recording_of (plain state.old) event ≡ Some r
        → machine.has_set (plain state.old) r.at ≡ true }
    requires known { IsKnown (plain state.old) }
    requires sound { IsSound state.old }
    ensures ready { IfOk result (λ fault. IsFailReady state.new (event_of event) fault) }
    ensures kept { OnOk result ((prepared : Prepared) → IsReadyFor state.old (event_of event) prepared
        → IsReadyFor state.new (event_of event) prepared) }
    ensures same { plain state.new ≡ plain state.old }
    ensures sound { IsSound state.new }
{
    let Some(recording) = recorded_by(state, &event)? else {
        return Ok(None);
    };
    reserve_going_down(state, recording.set)?;
    Ok(Some(PreparedFault {
        change: recording.change,
    }))
}

/// Makes ready that a fault comes in the place of an event, where the event records a change. What is ready for the event
/// stays so.
pub(crate) fn reserve_failure(
    state: &mut State,
    event: Event,
) -> Result<Option<PreparedFault>, NoMemory>
    requires set { (r : Recording) → records (plain state.old) event ≡ Some r
        → machine.has_set (plain state.old) r.at ≡ true }
    requires known { IsKnown (plain state.old) }
    requires sound { IsSound state.old }
    ensures ready { IfOk result (λ fault. IsFailReady state.new event fault) }
    ensures kept { OnOk result ((prepared : Prepared) → IsReadyFor state.old event prepared
        → IsReadyFor state.new event prepared) }
    ensures same { plain state.new ≡ plain state.old }
    ensures sound { IsSound state.new }
{
    match event.recorded() {
        Some(recorded) => reserve_recorded(state, recorded),
        None => Ok(None),
    }
}
