//! How a set's transfers are written in the state. No call takes memory but those that make room.

ghost use Rattle.std.specs.Prelude.{◌≡◌, ◌<◌, ◌+◌, ◌^◌, true, IfSome, IsSome, OnOk, Some, None};
ghost use Rattle.std.specs.Option.{option_map};
ghost use Rattle.vs_send.specs.Phases.{IsReady, IsDraining, MayWait, waited};
ghost use Rattle.vs_send.specs.declared.transfer.Phase.TheVariants.{Ready, Waiting, Copied, Sealed, WaitingLast};
ghost use Rattle.vs_space.specs.declared.status.Status.TheVariants.{Active, Sending, Sent};
ghost use Rattle.vs_machine.specs.Kinds.Connections.{heard_by};
ghost use Rattle.vs_machine.specs.Kinds.Rebalancing.{hauls_at};
ghost use Rattle.vs_machine.specs.Kinds.Sender.{in_phase, with_begun};
ghost use Rattle.vs_machine.specs.State as machine;
ghost use Rattle.vs_machine.specs.Tables.{put};
ghost use Rattle.vs_state.specs.Plain.{plain};
ghost use Rattle.vs_core.specs.Keeps.{IsSound};
ghost use Rattle.vs_core.specs.Sending.{HasMoveRoom, HasPlaceRoom, counted_by};

use crate::transfers;
use vs_base::{BucketId, NoMemory, SetNo};
use vs_link::Heard;
use vs_rows::Key;
use vs_send::By;
use vs_state::State;

/// The transfer of a bucket waits for the reply to a message with rows, of which `last` is the last key.
pub(crate) fn wait_for_rows(
    state: &mut State,
    set: SetNo,
    bucket: BucketId,
    epoch: u64,
    sync: u64,
    last: Option<Key>,
)
    requires set { machine.has_set (plain state.old) set ≡ true }
    requires bucket { machine.has_bucket (plain state.old) bucket ≡ true }
    requires sound { IsSound state.old }
    requires ready { IfSome (((plain state.old).bucket bucket).transfer set) (λ t. IsReady t.phase) }
    ensures waits { plain state.new ≡ machine.put_bucket (plain state.old) bucket
        (machine.with_transfer ((plain state.old).bucket bucket) set
        (option_map (λ t. in_phase t (Waiting epoch sync last)) (((plain state.old).bucket bucket).transfer set))) }
    ensures sound { IsSound state.new }
{
    let tables = &mut state.sets[usize::from(set.get()) - 1];
    transfers::wait_for_rows(tables, bucket, epoch, sync, last);
}

/// The transfer of a bucket waits for the reply to the last message.
pub(crate) fn wait_for_last(state: &mut State, set: SetNo, bucket: BucketId, epoch: u64, sync: u64)
    requires set { machine.has_set (plain state.old) set ≡ true }
    requires bucket { machine.has_bucket (plain state.old) bucket ≡ true }
    requires sound { IsSound state.old }
    requires sealed { IfSome (((plain state.old).bucket bucket).transfer set) (λ t. t.phase ≡ Sealed) }
    ensures waits { plain state.new ≡ machine.put_bucket (plain state.old) bucket
        (machine.with_transfer ((plain state.old).bucket bucket) set
        (option_map (λ t. in_phase t (WaitingLast epoch sync)) (((plain state.old).bucket bucket).transfer set))) }
    ensures sound { IsSound state.new }
{
    let tables = &mut state.sets[usize::from(set.get()) - 1];
    transfers::wait_for_last(tables, bucket, epoch, sync);
}

/// A reply was heard from a set, which the transfer of its bucket may wait for.
pub(crate) fn hear(state: &mut State, set: SetNo, from: SetNo, heard: &Heard)
    requires set { machine.has_set (plain state.old) set ≡ true }
    requires bucket { IsSome (((plain state.old).bucket heard.now.bucket).transfer set)
        → machine.has_bucket (plain state.old) heard.now.bucket ≡ true }
    requires sound { IsSound state.old }
    ensures heard { plain state.new ≡ machine.put_bucket (plain state.old) heard.now.bucket
        (machine.with_transfer ((plain state.old).bucket heard.now.bucket) set
        (heard_by (((plain state.old).bucket heard.now.bucket).transfer set) (((plain state.old).bucket heard.now.bucket).rows set) from heard.now)) }
    ensures sound { IsSound state.new }
{
    let tables = &mut state.sets[usize::from(set.get()) - 1];
    transfers::hear(tables, from, heard);
}

/// The transfer of a bucket waits one more turn for the running writes.
pub(crate) fn wait_turn(state: &mut State, set: SetNo, bucket: BucketId)
    requires set { machine.has_set (plain state.old) set ≡ true }
    requires bucket { machine.has_bucket (plain state.old) bucket ≡ true }
    requires sound { IsSound state.old }
    requires may { IfSome (((plain state.old).bucket bucket).transfer set) (λ t. MayWait t.phase) }
    ensures waits { plain state.new ≡ machine.put_bucket (plain state.old) bucket
        (machine.with_transfer ((plain state.old).bucket bucket) set
        (option_map (λ t. in_phase t (waited t.phase)) (((plain state.old).bucket bucket).transfer set))) }
    ensures sound { IsSound state.new }
{
    let tables = &mut state.sets[usize::from(set.get()) - 1];
    transfers::wait_turn(tables, bucket);
}

/// A bucket is being sent to `dest`, and its rows can be copied.
pub(crate) fn freeze(state: &mut State, set: SetNo, bucket: BucketId, dest: SetNo)
    requires set { machine.has_set (plain state.old) set ≡ true }
    requires bucket { machine.has_bucket (plain state.old) bucket ≡ true }
    requires sound { IsSound state.old }
    requires active { ((plain state.old).bucket bucket).entry set ≡ Some Active }
    requires draining { IfSome (((plain state.old).bucket bucket).transfer set) (λ t. IsDraining t.phase) }
    ensures frozen { plain state.new ≡ machine.put_bucket (plain state.old) bucket
        (record ((plain state.old).bucket bucket) {
          entry = put ((plain state.old).bucket bucket).entry set (Some (Sending dest));
          transfer = put ((plain state.old).bucket bucket).transfer set
              (option_map (λ t. in_phase t (Ready None)) (((plain state.old).bucket bucket).transfer set));
        }) }
    ensures sound { IsSound state.new }
{
    let tables = &mut state.sets[usize::from(set.get()) - 1];
    transfers::freeze(tables, bucket, dest);
}

/// Makes room for what `seal` keeps.
pub(crate) fn reserve_place(state: &mut State, set: SetNo, bucket: BucketId) -> Result<(), NoMemory>
    requires set { machine.has_set (plain state.old) set ≡ true }
    requires sound { IsSound state.old }
    ensures ready { OnOk result (HasPlaceRoom state.new set bucket) }
    ensures same { plain state.new ≡ plain state.old }
    ensures sound { IsSound state.new }
{
    let tables = &mut state.sets[usize::from(set.get()) - 1];
    transfers::reserve_kept(tables, bucket)
}

/// A bucket is sent to `dest`, with the rows of this place.
pub(crate) fn seal(state: &mut State, set: SetNo, bucket: BucketId, dest: SetNo, place: u64)
    requires set { machine.has_set (plain state.old) set ≡ true }
    requires bucket { machine.has_bucket (plain state.old) bucket ≡ true }
    requires sound { IsSound state.old }
    requires sending { ((plain state.old).bucket bucket).entry set ≡ Some (Sending dest) }
    requires copied { IfSome (((plain state.old).bucket bucket).transfer set) (λ t. t.phase ≡ Copied) }
    requires room { HasPlaceRoom state.old set bucket }
    ensures sealed { plain state.new ≡ machine.put_bucket (plain state.old) bucket
        (record ((plain state.old).bucket bucket) {
          entry = put ((plain state.old).bucket bucket).entry set (Some (Sent dest));
          kept = put ((plain state.old).bucket bucket).kept set place;
          transfer = put ((plain state.old).bucket bucket).transfer set
              (option_map (λ t. in_phase t Sealed) (((plain state.old).bucket bucket).transfer set));
        }) }
    ensures sound { IsSound state.new }
{
    let tables = &mut state.sets[usize::from(set.get()) - 1];
    transfers::seal(tables, bucket, dest, place);
}

/// Makes room for one more transfer from a set.
pub(crate) fn reserve_begin(state: &mut State, set: SetNo) -> Result<(), NoMemory>
    requires set { machine.has_set (plain state.old) set ≡ true }
    requires sound { IsSound state.old }
    ensures ready { OnOk result (HasMoveRoom state.new set) }
    ensures same { plain state.new ≡ plain state.old }
    ensures operators { state.new.operators ≡ state.old.operators }
    ensures sound { IsSound state.new }
{
    let tables = &mut state.sets[usize::from(set.get()) - 1];
    transfers::reserve_begin(tables)
}

/// A transfer of a bucket to `dest` begins.
pub(crate) fn begin(state: &mut State, set: SetNo, bucket: BucketId, dest: SetNo, by: By)
    requires set { machine.has_set (plain state.old) set ≡ true }
    requires bucket { machine.has_bucket (plain state.old) bucket ≡ true }
    requires sound { IsSound state.old }
    requires room { HasMoveRoom state.old set }
    requires none { ((plain state.old).bucket bucket).transfer set ≡ None }
    requires hauls { hauls_at (plain state.old) set + counted_by by < 2 ^ 32 }
    ensures begun { plain state.new ≡ machine.put_bucket (plain state.old) bucket
        (with_begun ((plain state.old).bucket bucket) set dest by) }
    ensures operators { state.new.operators ≡ state.old.operators }
    ensures sound { IsSound state.new }
{
    let tables = &mut state.sets[usize::from(set.get()) - 1];
    transfers::begin(tables, bucket, dest, by);
}

/// The transfer of a bucket is gone.
pub(crate) fn end(state: &mut State, set: SetNo, bucket: BucketId)
    requires set { machine.has_set (plain state.old) set ≡ true }
    requires bucket { machine.has_bucket (plain state.old) bucket ≡ true }
    requires sound { IsSound state.old }
    ensures gone { plain state.new ≡ machine.put_bucket (plain state.old) bucket
        (machine.with_transfer ((plain state.old).bucket bucket) set None) }
    ensures operators { state.new.operators ≡ state.old.operators }
    ensures sound { IsSound state.new }
{
    let tables = &mut state.sets[usize::from(set.get()) - 1];
    transfers::end(tables, bucket);
}
