//! How messages are taken off connections, and answered. No call takes memory.

ghost use Rattle.std.specs.Prelude.{◌≡◌, ◌≤◌, true, IfSome};
ghost use Rattle.std.specs.Option.{option_map};
ghost use Rattle.vs_link.specs.Connection.{sent, with_reply, without_call};
ghost use Rattle.vs_link.specs.Links.{line_of};
ghost use Rattle.vs_machine.specs.Kinds.Connections.{first_call};
ghost use Rattle.vs_machine.specs.State as machine;
ghost use Rattle.vs_state.specs.Plain.{plain};
ghost use Rattle.vs_core.specs.Keeps.{IsSound};

use vs_base::SetNo;
use vs_link::{Heard, Posted};
use vs_state::State;

/// Takes the message that stands first on a connection, if there is one. It is to be answered.
pub(crate) fn take_call(state: &mut State, from: SetNo, to: SetNo) -> Option<Posted>
    requires link { machine.is_link (plain state.old) from to ≡ true }
    requires sound { IsSound state.old }
    ensures first { option_map sent result ≡ first_call (plain state.old) from to }
    ensures taken { IfSome result (λ _. plain state.new ≡ machine.put_link (plain state.old) from to
        (without_call ((plain state.old).link from to))) }
    ensures unanswered { IfSome result (λ _. 1 ≤ (line_of state.new.links from to).unanswered) }
    ensures sets { state.new.sets ≡ state.old.sets }
    ensures sound { IsSound state.new }
{
    match state.links.take_call(from, to) {
        Ok(posted) => Some(posted),
        Err(_) => None,
    }
}

/// Puts the reply to a message that was taken into the line of replies.
pub(crate) fn answer_call(state: &mut State, from: SetNo, to: SetNo, heard: Heard)
    requires link { machine.is_link (plain state.old) from to ≡ true }
    requires sound { IsSound state.old }
    requires taken { 1 ≤ (line_of state.old.links from to).unanswered }
    ensures answered { plain state.new ≡ machine.put_link (plain state.old) from to
        (with_reply ((plain state.old).link from to) heard) }
    ensures sound { IsSound state.new }
{
    state.links.answer(from, to, heard);
}
