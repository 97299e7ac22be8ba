//! A call that acted ends.

ghost use Rattle.std.specs.Prelude.{◌≡◌, true, Ok};
ghost use Rattle.vs_calls.specs.Progress.{is_acted};
ghost use Rattle.vs_machine.specs.Kinds.Calls as kinds;
ghost use Rattle.vs_machine.specs.State as machine;
ghost use Rattle.vs_state.specs.Guard.{verdict};
ghost use Rattle.vs_state.specs.Plain.{plain};
ghost use Rattle.vs_state.specs.Sized.{IsSized};
ghost use Rattle.vs_core.specs.Keeps.{IsKnown, IsSound};
ghost use Rattle.vs_core.specs.References.{AgreesWith};

use crate::references::give_reference;
use vs_base::ClientNo;
use vs_state::State;

/// The reference that the client's call holds is given back at its set.
fn give_back(state: &mut State, client: ClientNo)
    requires possible { verdict (kinds.«end» (plain state.old) client) ≡ Ok tt }
    requires known { IsKnown (plain state.old) }
    requires sound { IsSound state.old }
    ensures same { plain state.new ≡ plain state.old }
    ensures sized { IsSized state.new }
    ensures agrees { AgreesWith state.new (kinds.after_end (plain state.old) client) }
{
    let (Some(call), Some(set)) = (state.next_call(client), state.call_set(client)) else {
        return;
    };
    let (mode, bucket) = (call.mode, call.bucket);
    give_reference(state, set, bucket, mode);
}

/// The client's call ends, whose reference was given back.
fn end_present(state: &mut State, client: ClientNo)
    requires client { machine.has_client (plain state.old) client ≡ true }
    requires sized { IsSized state.old }
    requires acted { is_acted ((plain state.old).client client).present.stage ≡ true }
    requires agrees { AgreesWith state.old (kinds.after_end (plain state.old) client) }
    ensures ended { plain state.new ≡ kinds.after_end (plain state.old) client }
    ensures sound { IsSound state.new }
{
    state.clients[usize::from(client.get()) - 1].present.end();
}

/// A call that acted ends: its reference is given back, and its answer can be taken, or is lost where it was cut. It
/// takes no memory.
pub(crate) fn end(state: &mut State, client: ClientNo)
    requires possible { verdict (kinds.«end» (plain state.old) client) ≡ Ok tt }
    requires known { IsKnown (plain state.old) }
    requires sound { IsSound state.old }
    ensures step { kinds.«end» (plain state.old) client ≡ Ok (plain state.new) }
    ensures sound { IsSound state.new }
{
    give_back(state, client);
    end_present(state, client);
}
