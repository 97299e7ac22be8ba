//! How calls are posted again.

ghost use Rattle.std.specs.Prelude.{◌≡◌, ◌↔◌, IsTrue};
ghost use Rattle.vs_cluster.specs.Steering.{GoesSo, allows, is_hinted};
ghost use Rattle.vs_cluster.specs.Still.{NoSetGrants};
ghost use Rattle.vs_core.specs.Core.{means};
ghost use Rattle.vs_machine.specs.Actors.{IsHinted, IsStranded, WouldGrant};
ghost use Rattle.vs_script.specs.Calls as script;
ghost use Rattle.vs_state.specs.Plain.{plain};
ghost use Rattle.vs_state.specs.Sized.{IsSized};

use crate::still::is_still;
use vs_base::{ClientNo, SetNo};
use vs_core::Core;
use vs_script::Call;
use vs_space::{Cause, Verdict, verdict};
use vs_state::State;

/// How a post of a client's next call to a set goes.
#[derive(Clone, Copy)]
pub(crate) enum Steering {
    /// It is the first of its call.
    First,
    /// The set would grant the call.
    Granted,
    /// No set would grant it, and nothing else can happen.
    Stranded,
    /// The set was named by the last refusal of the call, and nothing else leads there.
    Hinted,
    /// Nothing leads there.
    Unsteered,
}

impl Steering {
    /// Whether a post that goes so is allowed, to a client whose last one went for the hint alone, or didn't.
    pub(crate) fn allows(self, by_hint: bool) -> bool
        ensures { result ≡ allows self by_hint }
    {
        match self {
            Steering::First | Steering::Granted | Steering::Stranded => true,
            Steering::Hinted => !by_hint,
            Steering::Unsteered => false,
        }
    }

    /// Whether it goes for the hint alone.
    pub(crate) fn is_hinted(self) -> bool
        ensures { result ≡ is_hinted self }
    {
        matches!(self, Steering::Hinted)
    }
}

/// Whether a set would grant a call.
fn would_grant(state: &State, set: SetNo, call: &Call) -> bool
    ensures { IsTrue result ↔ WouldGrant (plain state.now) set (script.call call.now) }
{
    if !state.up(set) {
        return false;
    }
    let is_locked = state.is_draining(set, call.bucket);
    match verdict(state.entry(set, call.bucket), is_locked, call.mode) {
        Verdict::Granted => true,
        Verdict::Refused(_) => false,
    }
}

/// Whether no set would grant a call.
fn no_set_grants(state: &State, call: &Call) -> bool
    requires { IsSized state.now }
    ensures { IsTrue result ↔ NoSetGrants (plain state.now) (script.call call.now) }
{
    for index in 0..state.set_count() {
        let Some(set) = SetNo::new(index + 1) else {
            unreachable!()
        };
        if would_grant(state, set, call) {
            return false;
        }
    }
    true
}

/// Whether no set would grant a call, and nothing else can happen.
fn is_stranded(core: &Core, call: &Call) -> bool
    ensures { IsTrue result ↔ IsStranded (means core.now) (script.call call.now) }
{
    no_set_grants(core.state(), call) && is_still(core)
}

/// Whether the last refusal of a client's call named this set.
fn is_hint(state: &State, client: ClientNo, set: SetNo) -> bool
    ensures { IsTrue result ↔ IsHinted (plain state.now) client set }
{
    let Some(tables) = state.client(client) else {
        return false;
    };
    match tables.present.cause() {
        Some(Cause::WrongBucket(Some(hint))) => hint == set,
        _ => false,
    }
}

/// How a post of the client's next call to the set goes; where the client has no call to post, as a first one. Whether the
/// cluster stands still is asked only where the post isn't the first of its call and no set would grant that.
pub(crate) fn steering_of(core: &Core, client: ClientNo, set: SetNo) -> Steering
    ensures { GoesSo (means core.now) client set result }
{
    let state = core.state();
    let Some(call) = state.next_call(client) else {
        return Steering::First;
    };
    if state.tries(client) == 0 {
        return Steering::First;
    }
    if would_grant(state, set, call) {
        return Steering::Granted;
    }
    if is_stranded(core, call) {
        return Steering::Stranded;
    }
    if is_hint(state, client, set) {
        return Steering::Hinted;
    }
    Steering::Unsteered
}
