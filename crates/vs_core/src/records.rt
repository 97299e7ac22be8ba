//! What an event records in a journal.

ghost use Rattle.std.specs.Prelude.{◌≡◌, IfOk, option_map};
ghost use Rattle.vs_machine.specs.Kinds.Stops.{recording_of};
ghost use Rattle.vs_state.specs.Plain.{plain};
ghost use Rattle.vs_state.specs.Sized.{IsSized, OnlyItsBuckets};
ghost use Rattle.vs_core.specs.Records.{records, recording};

use crate::recordings::change_of;
use vs_base::{NoMemory, SetNo};
use vs_event::{Event, Recorded};
use vs_record::Change;
use vs_state::State;

/// The change that an event records, and the set in whose journal it does.
#[derive(Drop)]
pub struct Recording {
    pub set: SetNo,
    pub change: Change,
}

/// What an event of one of the kinds that may record does record.
pub(crate) fn recorded_by(state: &State, event: &Recorded) -> Result<Option<Recording>, NoMemory>
    requires sized { IsSized state.now }
    requires buckets { OnlyItsBuckets (plain state.now) }
    ensures { IfOk result (λ r. option_map recording r ≡ recording_of (plain state.now) event.now) }
{
    let Some(set) = state.recorded_at(*event) else {
        return Ok(None);
    };
    let Some(change) = change_of(state, *event)? else {
        unreachable!()
    };
    Ok(Some(Recording { set, change }))
}

/// What an event records.
pub(crate) fn records(state: &State, event: Event) -> Result<Option<Recording>, NoMemory>
    requires sized { IsSized state.now }
    requires buckets { OnlyItsBuckets (plain state.now) }
    ensures { IfOk result (λ r. option_map recording r ≡ records (plain state.now) event) }
{
    match event.recorded() {
        Some(recorded) => recorded_by(state, &recorded),
        None => Ok(None),
    }
}
