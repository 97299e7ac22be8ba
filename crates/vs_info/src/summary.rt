//! What is told of a set.

ghost use Rattle.std.specs.Prelude.{◌≡◌, IfOk};
ghost use Rattle.vs_config.specs.Configuration.{configuration};
ghost use Rattle.vs_state.specs.Plain.{plain};
ghost use Rattle.vs_state.specs.Sized.{IsSized, OnlyItsBuckets};
ghost use Rattle.vs_info.specs.Summaries.{entries_of, summary_of, summaries_of};

use std::alloc::Global;
use uuid::Uuid;
use vs_base::{NoMemory, SetNo};
use vs_config::Config;
use vs_space::StatusKind;
use vs_state::State;

/// What is told of a set: what names it, and how many buckets it has in each status.
#[derive(Clone, Copy)]
pub struct SetSummary {
    pub uuid: Uuid,
    pub active: u32,
    pub garbage: u32,
    pub pinned: u32,
    pub receiving: u32,
    pub sending: u32,
    pub sent: u32,
}

/// How many buckets have a status of this kind at a set.
fn entries(state: &State, set: SetNo, kind: StatusKind) -> u32
    requires sized { IsSized state.now }
    requires buckets { OnlyItsBuckets (plain state.now) }
    ensures { result ≡ entries_of (plain state.now) set kind }
{
    state.count(set, kind)
}

/// What is told of the set of this number and uuid.
fn summary(state: &State, set: SetNo, uuid: Uuid) -> SetSummary
    requires sized { IsSized state.now }
    requires buckets { OnlyItsBuckets (plain state.now) }
    ensures { result ≡ summary_of (plain state.now) set uuid }
{
    SetSummary {
        uuid,
        active: entries(state, set, StatusKind::Active),
        garbage: entries(state, set, StatusKind::Garbage),
        pinned: entries(state, set, StatusKind::Pinned),
        receiving: entries(state, set, StatusKind::Receiving),
        sending: entries(state, set, StatusKind::Sending),
        sent: entries(state, set, StatusKind::Sent),
    }
}

/// What is told of each set, in order.
pub(crate) fn summaries(
    alloc: Global,
    state: &State,
    config: &Config,
) -> Result<Vec<SetSummary>, NoMemory>
    requires config { configuration config.now ≡ (plain state.now).config }
    requires sized { IsSized state.now }
    requires buckets { OnlyItsBuckets (plain state.now) }
    ensures { IfOk result (λ sets. sets.items ≡ summaries_of (plain state.now)) }
{
    let mut sets = Vec::with_capacity(alloc, config.sets.len())?;
    for (i, set_config) in config.sets.as_slice().iter().enumerate() {
        let Some(set) = SetNo::new(i as u8 + 1) else {
            unreachable!()
        };
        sets.push(summary(state, set, set_config.uuid))?;
    }
    Ok(sets)
}
