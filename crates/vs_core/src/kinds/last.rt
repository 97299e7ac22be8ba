//! A set tells the receiver that all rows of a bucket were sent.

ghost use Rattle.std.specs.Prelude.{◌≡◌, Ok, OnOk};
ghost use Rattle.vs_machine.specs.Kinds.Sender as sender;
ghost use Rattle.vs_state.specs.Guard.{verdict};
ghost use Rattle.vs_state.specs.Plain.{plain};
ghost use Rattle.vs_core.specs.Keeps.{IsKnown, IsSound};
ghost use Rattle.vs_core.specs.Sending.{HasMessageRoom};

use crate::moves::wait_for_last;
use crate::posting::{post, reserve_post};
use vs_base::{BucketId, NoMemory, SetNo};
use vs_link::Msg;
use vs_state::State;

/// Makes room for the last message.
pub(crate) fn reserve_last(state: &mut State, set: SetNo, bucket: BucketId) -> Result<(), NoMemory>
    requires possible { verdict (sender.last (plain state.old) set bucket) ≡ Ok tt }
    requires known { IsKnown (plain state.old) }
    requires sound { IsSound state.old }
    ensures ready { OnOk result (HasMessageRoom state.new set bucket) }
    ensures same { plain state.new ≡ plain state.old }
    ensures sound { IsSound state.new }
{
    let Some(transfer) = state.transfer(set, bucket) else {
        unreachable!()
    };
    let dest = transfer.dest;
    reserve_post(state, set, dest)
}

/// A set sends the last message, and waits for the reply.
pub(crate) fn last(state: &mut State, set: SetNo, bucket: BucketId)
    requires possible { verdict (sender.last (plain state.old) set bucket) ≡ Ok tt }
    requires known { IsKnown (plain state.old) }
    requires sound { IsSound state.old }
    requires ready { HasMessageRoom state.old set bucket }
    ensures step { sender.last (plain state.old) set bucket ≡ Ok (plain state.new) }
    ensures sound { IsSound state.new }
{
    let Some(transfer) = state.transfer(set, bucket) else {
        return;
    };
    let dest = transfer.dest;
    let epoch = state.epoch(set, dest);
    let sync = post(state, set, dest, Msg::Last(bucket));
    wait_for_last(state, set, bucket, epoch, sync);
}
