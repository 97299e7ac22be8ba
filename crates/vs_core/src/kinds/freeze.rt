//! A set waits for the running writes of a bucket that it is to send, freezes it, and seals it as sent.

ghost use Rattle.std.specs.Prelude.{◌≡◌, Ok, OnOk};
ghost use Rattle.vs_machine.specs.Kinds.Sender as sender;
ghost use Rattle.vs_state.specs.Guard.{verdict};
ghost use Rattle.vs_state.specs.Plain.{plain};
ghost use Rattle.vs_core.specs.Keeps.{IsKnown, IsSound};
ghost use Rattle.vs_core.specs.Sending.{HasPlaceRoom};

use crate::moves;
use vs_base::{BucketId, NoMemory, SetNo};
use vs_state::State;

/// Writes are running still, and one more turn is waited.
pub(crate) fn not_yet(state: &mut State, set: SetNo, bucket: BucketId)
    requires possible { verdict (sender.not_yet (plain state.old) set bucket) ≡ Ok tt }
    requires sound { IsSound state.old }
    ensures step { sender.not_yet (plain state.old) set bucket ≡ Ok (plain state.new) }
    ensures sound { IsSound state.new }
{
    moves::wait_turn(state, set, bucket);
}

/// No write is running: the bucket is being sent, and takes no further one.
pub(crate) fn freeze(state: &mut State, set: SetNo, bucket: BucketId)
    requires possible { verdict (sender.freeze (plain state.old) set bucket) ≡ Ok tt }
    requires known { IsKnown (plain state.old) }
    requires sound { IsSound state.old }
    ensures step { sender.freeze (plain state.old) set bucket ≡ Ok (plain state.new) }
    ensures sound { IsSound state.new }
{
    let Some(transfer) = state.transfer(set, bucket) else {
        return;
    };
    let dest = transfer.dest;
    moves::freeze(state, set, bucket, dest);
}

/// Makes room for the place that is kept of a bucket.
pub(crate) fn reserve_seal(state: &mut State, set: SetNo, bucket: BucketId) -> Result<(), NoMemory>
    requires possible { verdict (sender.seal (plain state.old) set bucket) ≡ Ok tt }
    requires sound { IsSound state.old }
    ensures ready { OnOk result (HasPlaceRoom state.new set bucket) }
    ensures same { plain state.new ≡ plain state.old }
    ensures sound { IsSound state.new }
{
    moves::reserve_place(state, set, bucket)
}

/// All rows were taken: the bucket is sent, and the set keeps the place of its rows.
pub(crate) fn seal(state: &mut State, set: SetNo, bucket: BucketId)
    requires possible { verdict (sender.seal (plain state.old) set bucket) ≡ Ok tt }
    requires known { IsKnown (plain state.old) }
    requires sound { IsSound state.old }
    requires ready { HasPlaceRoom state.old set bucket }
    ensures step { sender.seal (plain state.old) set bucket ≡ Ok (plain state.new) }
    ensures sound { IsSound state.new }
{
    let Some(transfer) = state.transfer(set, bucket) else {
        return;
    };
    let dest = transfer.dest;
    let place = state.writes(bucket);
    moves::seal(state, set, bucket, dest, place);
}
