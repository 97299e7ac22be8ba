//! How messages are put on connections, how replies are taken from there, and how connections are closed.

ghost use Rattle.std.specs.Prelude.{◌≡◌, ◌<◌, ◌-◌, ◌^◌, true, OnOk};
ghost use Rattle.vs_link.specs.Connection.{message, with_message, without_reply, closed};
ghost use Rattle.vs_machine.specs.State as machine;
ghost use Rattle.vs_state.specs.Plain.{plain};
ghost use Rattle.vs_core.specs.Keeps.{IsSound};
ghost use Rattle.vs_core.specs.Sending.{HasLineRoom};

use vs_base::{NoMemory, SetNo};
use vs_link::Msg;
use vs_state::State;

/// The end of the numbers on a connection.
const END: u64 = (1 << 63) - 1;

/// Makes room for one message on a connection. There is none where its numbers are spent.
pub(crate) fn reserve_post(state: &mut State, from: SetNo, to: SetNo) -> Result<(), NoMemory>
    requires link { machine.is_link (plain state.old) from to ≡ true }
    requires sound { IsSound state.old }
    ensures ready { OnOk result (HasLineRoom state.new.links from to) }
    ensures same { plain state.new ≡ plain state.old }
    ensures sets { state.new.sets ≡ state.old.sets }
    ensures sound { IsSound state.new }
{
    if state.links.next(from, to) >= END {
        return Err(NoMemory);
    }
    state.links.reserve(from, to)
}

/// Puts a message on a connection, and answers its number. It takes no memory.
pub(crate) fn post(state: &mut State, from: SetNo, to: SetNo, msg: Msg) -> u64
    requires link { machine.is_link (plain state.old) from to ≡ true }
    requires sound { IsSound state.old }
    requires room { HasLineRoom state.old.links from to }
    ensures number { result ≡ ((plain state.old).link from to).next }
    ensures posted { plain state.new ≡ machine.put_link (plain state.old) from to
        (with_message ((plain state.old).link from to) (message msg)) }
    ensures sets { state.new.sets ≡ state.old.sets }
    ensures sound { IsSound state.new }
{
    state.links.post(from, to, msg)
}

/// Takes the first reply out of the line of a connection.
pub(crate) fn drop_reply(state: &mut State, from: SetNo, to: SetNo)
    requires link { machine.is_link (plain state.old) from to ≡ true }
    requires sound { IsSound state.old }
    ensures dropped { plain state.new ≡ machine.put_link (plain state.old) from to
        (without_reply ((plain state.old).link from to)) }
    ensures sound { IsSound state.new }
{
    let _reply = state.links.take_reply(from, to);
}

/// Closes a connection. It takes no memory.
pub(crate) fn close(state: &mut State, from: SetNo, to: SetNo)
    requires link { machine.is_link (plain state.old) from to ≡ true }
    requires sound { IsSound state.old }
    requires epoch { ((plain state.old).link from to).epoch < 2 ^ 63 - 1 }
    ensures closed { plain state.new ≡ machine.put_link (plain state.old) from to
        (closed ((plain state.old).link from to)) }
    ensures operators { state.new.operators ≡ state.old.operators }
    ensures sound { IsSound state.new }
{
    state.links.close(from, to);
}
