//! A set asks another about a bucket.

ghost use Rattle.std.specs.Prelude.{◌≡◌, Ok, OnOk};
ghost use Rattle.vs_machine.specs.Kinds.Recovery as recovery;
ghost use Rattle.vs_state.specs.Guard.{verdict};
ghost use Rattle.vs_state.specs.Plain.{plain};
ghost use Rattle.vs_core.specs.Keeps.{IsKnown, IsSound};
ghost use Rattle.vs_core.specs.Asking.{IsAskReady};

use crate::asking;
use crate::posting::{post, reserve_post};
use vs_base::{BucketId, NoMemory, SetNo};
use vs_link::Msg;
use vs_state::{State, asked_set};

/// Makes room for the question, and for the ask.
pub(crate) fn reserve_ask(state: &mut State, set: SetNo, bucket: BucketId) -> Result<(), NoMemory>
    requires possible { verdict (recovery.ask (plain state.old) set bucket) ≡ Ok tt }
    requires known { IsKnown (plain state.old) }
    requires sound { IsSound state.old }
    ensures ready { OnOk result (IsAskReady state.new set bucket) }
    ensures same { plain state.new ≡ plain state.old }
    ensures sound { IsSound state.new }
{
    let entry = state.entry(set, bucket);
    let Some(other) = asked_set(&entry) else {
        unreachable!()
    };
    asking::reserve_ask(state, set)?;
    reserve_post(state, set, other)
}

/// A set asks the other set of an interrupted transfer what it has of the bucket. It takes no memory.
pub(crate) fn ask(state: &mut State, set: SetNo, bucket: BucketId)
    requires possible { verdict (recovery.ask (plain state.old) set bucket) ≡ Ok tt }
    requires known { IsKnown (plain state.old) }
    requires sound { IsSound state.old }
    requires ready { IsAskReady state.old set bucket }
    ensures step { recovery.ask (plain state.old) set bucket ≡ Ok (plain state.new) }
    ensures sound { IsSound state.new }
{
    let entry = state.entry(set, bucket);
    let Some(other) = asked_set(&entry) else {
        return;
    };
    let epoch = state.epoch(set, other);
    let sync = post(state, set, other, Msg::Stat(bucket));
    asking::put_ask(state, set, bucket, epoch, sync);
}
