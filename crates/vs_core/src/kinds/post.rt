//! A call is posted.

ghost use Rattle.std.specs.Prelude.{◌≡◌, ◌<◌, true, Ok};
ghost use Rattle.vs_calls.specs.Progress.{may_post, posted};
ghost use Rattle.vs_machine.specs.Kinds.Calls as kinds;
ghost use Rattle.vs_machine.specs.State as machine;
ghost use Rattle.vs_state.specs.Guard.{verdict};
ghost use Rattle.vs_state.specs.Plain.{plain};
ghost use Rattle.vs_core.specs.Keeps.{IsKnown, IsSound};

use vs_base::{ClientNo, SetNo};
use vs_state::State;

/// The client's call is posted to a set, while its bucket has so many writes.
fn post_present(state: &mut State, client: ClientNo, set: SetNo, writes: u64)
    requires client { machine.has_client (plain state.old) client ≡ true }
    requires sound { IsSound state.old }
    requires stage { may_post ((plain state.old).client client).present.stage ≡ true }
    requires tries { ((plain state.old).client client).present.tries < 128 }
    ensures posted { plain state.new ≡ machine.put_client (plain state.old) client
        (machine.with_progress ((plain state.old).client client)
        (posted ((plain state.old).client client).present set writes)) }
    ensures sound { IsSound state.new }
{
    state.clients[usize::from(client.get()) - 1]
        .present
        .post(set, writes);
}

/// A client's next call is posted to a set, for the first time or once more.
pub(crate) fn post(state: &mut State, client: ClientNo, set: SetNo)
    requires possible { verdict (kinds.post (plain state.old) client set) ≡ Ok tt }
    requires known { IsKnown (plain state.old) }
    requires sound { IsSound state.old }
    ensures step { kinds.post (plain state.old) client set ≡ Ok (plain state.new) }
    ensures sound { IsSound state.new }
{
    let Some(call) = state.next_call(client) else {
        return;
    };
    let writes = state.writes(call.bucket);
    post_present(state, client, set, writes);
}
