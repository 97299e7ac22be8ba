//! A set hears a reply.

ghost use Rattle.std.specs.Prelude.{◌≡◌, true, Ok, OnOk};
ghost use Rattle.vs_machine.specs.Kinds.Connections as connections;
ghost use Rattle.vs_machine.specs.State as machine;
ghost use Rattle.vs_state.specs.Guard.{verdict};
ghost use Rattle.vs_state.specs.Plain.{plain};
ghost use Rattle.vs_core.specs.Keeps.{IsKnown, IsSound};
ghost use Rattle.vs_core.specs.References.{HasReferenceRoom};

use crate::asking::settle;
use crate::moves;
use crate::posting::drop_reply;
use crate::references::reserve_reference;
use vs_base::{NoMemory, SetNo};
use vs_link::{Heard, Reply};
use vs_space::Status;
use vs_state::State;

/// The answer to an ask was heard. Where it counts, the set decides by it, and the ask ends.
fn hear_answer(
    state: &mut State,
    set: SetNo,
    from: SetNo,
    heard: &Heard,
    remote: &Option<Status>,
    live: bool,
)
    requires set { machine.has_set (plain state.old) set ≡ true }
    requires known { IsKnown (plain state.old) }
    requires sound { IsSound state.old }
    requires up { (plain state.old).up set ≡ true }
    requires room { HasReferenceRoom state.old set }
    ensures recovered { plain state.new ≡ machine.put_bucket (plain state.old) heard.now.bucket
        (connections.recovered ((plain state.old).bucket heard.now.bucket)
        ((plain state.old).link set from).epoch set from heard.now.sync remote.now live) }
    ensures sound { IsSound state.new }
{
    if !state.answer_counts(set, from, heard.bucket, heard.sync) {
        return;
    }
    let decision = state.decision(set, heard.bucket, *remote, live);
    settle(state, set, heard.bucket, decision);
}

/// A reply was heard, for a transfer or for an ask.
fn hear_reply(state: &mut State, set: SetNo, from: SetNo, heard: &Heard)
    requires set { machine.has_set (plain state.old) set ≡ true }
    requires known { IsKnown (plain state.old) }
    requires sound { IsSound state.old }
    requires up { (plain state.old).up set ≡ true }
    requires room { HasReferenceRoom state.old set }
    ensures heard { plain state.new ≡ machine.put_bucket (plain state.old) heard.now.bucket
        (connections.bucket_hearing ((plain state.old).bucket heard.now.bucket)
        ((plain state.old).link set from).epoch set from heard.now heard.now.reply) }
    ensures sound { IsSound state.new }
{
    match &heard.reply {
        Reply::State(remote, live) => hear_answer(state, set, from, heard, remote, *live),
        Reply::Took | Reply::Not(_) => moves::hear(state, set, from, heard),
    }
}

/// Makes room for the lock against reads, where a bucket becomes garbage.
pub(crate) fn reserve_hear(state: &mut State, set: SetNo, from: SetNo) -> Result<(), NoMemory>
    requires possible { verdict (connections.hear (plain state.old) set from) ≡ Ok tt }
    requires sound { IsSound state.old }
    ensures ready { OnOk result (HasReferenceRoom state.new set) }
    ensures same { plain state.new ≡ plain state.old }
    ensures sound { IsSound state.new }
{
    let _ = from;
    reserve_reference(state, set)
}

/// A set takes the first reply of a connection: a transfer goes on by it, or an ask is answered. It takes no memory.
pub(crate) fn hear(state: &mut State, set: SetNo, from: SetNo)
    requires possible { verdict (connections.hear (plain state.old) set from) ≡ Ok tt }
    requires known { IsKnown (plain state.old) }
    requires sound { IsSound state.old }
    requires ready { HasReferenceRoom state.old set }
    ensures step { connections.hear (plain state.old) set from ≡ Ok (plain state.new) }
    ensures sound { IsSound state.new }
{
    let Some(heard) = state.head_reply(set, from) else {
        return;
    };
    let heard = *heard;
    hear_reply(state, set, from, &heard);
    drop_reply(state, set, from);
}
