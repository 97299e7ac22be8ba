//! Whether a cluster stands still.

ghost use Rattle.std.specs.Prelude.{◌≡◌, ◌↔◌, IsTrue};
ghost use Rattle.vs_calls.specs.Progress.{is_at_set};
ghost use Rattle.vs_cluster.specs.Still.{NoCallIsAtSet, NoMoverActs, NoOperatorActs, NoServiceActs, NobodyActs};
ghost use Rattle.vs_core.specs.Core.{means};
ghost use Rattle.vs_machine.specs.Actors.{IsStill};
ghost use Rattle.vs_state.specs.Plain.{plain};
ghost use Rattle.vs_state.specs.Sized.{IsSized};

use vs_base::{ClientNo, OpNo, SetNo};
use vs_calls::Stage;
use vs_choose::{next_mover, next_operator, next_service};
use vs_core::Core;
use vs_machine::steered_posts;
use vs_state::State;

/// Whether a call at this stage is at a set.
fn is_at_set(stage: Stage) -> bool
    ensures { result ≡ is_at_set stage }
{
    matches!(
        stage,
        Stage::Posted | Stage::Running | Stage::Acted | Stage::Ended
    )
}

/// Whether no call is at a set.
fn no_call_is_at_set(state: &State) -> bool
    requires { IsSized state.now }
    ensures { IsTrue result ↔ NoCallIsAtSet (plain state.now) }
{
    let count = state.clients.len() as u8;
    for index in 0..count {
        let Some(client) = ClientNo::new(index + 1) else {
            unreachable!()
        };
        if is_at_set(state.stage(client)) {
            return false;
        }
    }
    true
}

/// Whether no operator has an event.
fn no_operator_acts(core: &Core) -> bool
    ensures { IsTrue result ↔ NoOperatorActs (means core.now) }
{
    let count = core.state().operators.len() as u8;
    for index in 0..count {
        let Some(operator) = OpNo::new(index + 1) else {
            unreachable!()
        };
        if next_operator(core, operator).is_some() {
            return false;
        }
    }
    true
}

/// Whether no mover has an event.
fn no_mover_acts(core: &Core) -> bool
    ensures { IsTrue result ↔ NoMoverActs (means core.now) }
{
    for index in 0..core.state().set_count() {
        let Some(set) = SetNo::new(index + 1) else {
            unreachable!()
        };
        if next_mover(core, set).is_some() {
            return false;
        }
    }
    true
}

/// Whether no service of a set that is up has an event.
fn no_service_acts(core: &Core) -> bool
    ensures { IsTrue result ↔ NoServiceActs (means core.now) }
{
    for index in 0..core.state().set_count() {
        let Some(set) = SetNo::new(index + 1) else {
            unreachable!()
        };
        if core.state().up(set) && next_service(core, set).is_some() {
            return false;
        }
    }
    true
}

/// Whether nobody moves the cluster. It ends with the first who does, and asks the services last, since they read most.
fn nobody_acts(core: &Core) -> bool
    ensures { IsTrue result ↔ NobodyActs (means core.now) }
{
    no_call_is_at_set(core.state())
        && no_operator_acts(core)
        && no_mover_acts(core)
        && no_service_acts(core)
}

/// Whether no call is at a set, and no operator, no mover, and no service of a set that is up has an event. It takes no
/// memory.
pub(crate) fn is_still(core: &Core) -> bool
    ensures { IsTrue result ↔ IsStill (means core.now) }
{
    steered_posts();
    let _state = core.state();
    nobody_acts(core)
}
