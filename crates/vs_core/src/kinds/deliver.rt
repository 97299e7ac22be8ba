//! A set takes a message.

ghost use Rattle.std.specs.Prelude.{◌≡◌, length, true, false, Ok, OnOk};
ghost use Rattle.vs_link.specs.Connection.{Chunk, Last, bucket_of, message};
ghost use Rattle.vs_recv.specs.declared.took.Took.{Took};
ghost use Rattle.vs_machine.specs.Kinds.Connections as connections;
ghost use Rattle.vs_machine.specs.State as machine;
ghost use Rattle.vs_state.specs.Guard.{verdict};
ghost use Rattle.vs_state.specs.Plain.{plain};
ghost use Rattle.vs_state.specs.Sized.{OnlyItsBuckets};
ghost use Rattle.vs_core.specs.Keeps.{IsKnown, IsSound};
ghost use Rattle.vs_core.specs.Delivering.{HasItsBucket, HasPageRoomAt, IsDeliverReady, IsMessageReady, bucket_by, reply_to};

use crate::receiving::{activate, add_rows, reserve_rows};
use crate::replies::{answer_call, take_call};
use vs_base::{BucketId, NoMemory, SetNo};
use vs_link::{Heard, Msg, Posted, Reply};
use vs_rows::Page;
use vs_state::State;

/// The bucket of a message.
fn bucket_of(msg: &Msg) -> BucketId
    ensures { result ≡ bucket_of (message msg.now) }
{
    match msg {
        Msg::Chunk(bucket, _) | Msg::Last(bucket) | Msg::Stat(bucket) => *bucket,
    }
}

/// What a set answers to a question for a bucket's status.
fn status_at(state: &State, set: SetNo, bucket: BucketId) -> Reply
    ensures { result ≡ connections.status_at ((plain state.now).bucket bucket) set }
{
    let is_live = state.transfer(set, bucket).is_some();
    Reply::State(state.entry(set, bucket), is_live)
}

/// A set takes rows of a bucket, or refuses them.
fn take_rows(state: &mut State, from: SetNo, to: SetNo, bucket: BucketId, page: Page) -> Reply
    requires set { machine.has_set (plain state.old) to ≡ true }
    requires bucket { machine.has_bucket (plain state.old) bucket ≡ true }
    requires buckets { OnlyItsBuckets (plain state.old) }
    requires sound { IsSound state.old }
    requires room { (took : Took) → connections.received_at (plain state.old) from to bucket false ≡ Ok took
        → HasPageRoomAt state.old to bucket (length page.items) }
    ensures reply { result ≡ connections.reply_of
        (connections.received_at (plain state.old) from to bucket false) }
    ensures taken { plain state.new ≡ machine.put_bucket (plain state.old) bucket
        (connections.bucket_taking ((plain state.old).bucket bucket) from to (Chunk bucket page.items)
        (connections.received_at (plain state.old) from to bucket false)) }
    ensures links { state.new.links ≡ state.old.links }
    ensures sound { IsSound state.new }
{
    match state.receives(from, to, bucket, false) {
        Ok(_) => {
            add_rows(state, to, bucket, from, page);
            Reply::Took
        }
        Err(fault) => Reply::Not(fault),
    }
}

/// A set takes the last message of a bucket, or refuses it.
fn take_last(state: &mut State, from: SetNo, to: SetNo, bucket: BucketId) -> Reply
    requires set { machine.has_set (plain state.old) to ≡ true }
    requires bucket { machine.has_bucket (plain state.old) bucket ≡ true }
    requires buckets { OnlyItsBuckets (plain state.old) }
    requires sound { IsSound state.old }
    ensures reply { result ≡ connections.reply_of
        (connections.received_at (plain state.old) from to bucket true) }
    ensures taken { plain state.new ≡ machine.put_bucket (plain state.old) bucket
        (connections.bucket_taking ((plain state.old).bucket bucket) from to (Last bucket)
        (connections.received_at (plain state.old) from to bucket true)) }
    ensures links { state.new.links ≡ state.old.links }
    ensures sound { IsSound state.new }
{
    match state.receives(from, to, bucket, true) {
        Ok(_) => {
            activate(state, to, bucket);
            Reply::Took
        }
        Err(fault) => Reply::Not(fault),
    }
}

/// A set takes a message, refuses it, or answers its question.
fn take_message(state: &mut State, from: SetNo, to: SetNo, msg: Msg) -> Reply
    requires set { machine.has_set (plain state.old) to ≡ true }
    requires bucket { HasItsBucket (plain state.old) (message msg) }
    requires buckets { OnlyItsBuckets (plain state.old) }
    requires sound { IsSound state.old }
    requires ready { IsMessageReady state.old from to (message msg) }
    ensures reply { result ≡ reply_to (plain state.old) from to (message msg) }
    ensures taken { plain state.new ≡ machine.put_bucket (plain state.old) (bucket_of (message msg))
        (bucket_by (plain state.old) from to (message msg)) }
    ensures links { state.new.links ≡ state.old.links }
    ensures sound { IsSound state.new }
{
    match msg {
        Msg::Chunk(bucket, page) => take_rows(state, from, to, bucket, page),
        Msg::Last(bucket) => take_last(state, from, to, bucket),
        Msg::Stat(bucket) => status_at(state, to, bucket),
    }
}

/// Makes room for rows that are taken.
pub(crate) fn reserve_deliver(state: &mut State, from: SetNo, to: SetNo) -> Result<(), NoMemory>
    requires possible { verdict (connections.deliver (plain state.old) from to) ≡ Ok tt }
    requires known { IsKnown (plain state.old) }
    requires sound { IsSound state.old }
    ensures ready { OnOk result (IsDeliverReady state.new from to) }
    ensures same { plain state.new ≡ plain state.old }
    ensures sound { IsSound state.new }
{
    let Some(posted) = state.head_call(from, to) else {
        return Ok(());
    };
    let Msg::Chunk(bucket, page) = &posted.msg else {
        return Ok(());
    };
    let bucket = *bucket;
    let count = page.len() as u16;
    match state.receives(from, to, bucket, false) {
        Ok(_) => reserve_rows(state, to, bucket, count),
        Err(_) => Ok(()),
    }
}

/// A set takes the first message of a connection, and its reply goes into the line of replies. It takes no memory.
pub(crate) fn deliver(state: &mut State, from: SetNo, to: SetNo)
    requires possible { verdict (connections.deliver (plain state.old) from to) ≡ Ok tt }
    requires known { IsKnown (plain state.old) }
    requires sound { IsSound state.old }
    requires ready { IsDeliverReady state.old from to }
    ensures step { connections.deliver (plain state.old) from to ≡ Ok (plain state.new) }
    ensures sound { IsSound state.new }
{
    let Some(posted) = take_call(state, from, to) else {
        return;
    };
    let Posted { sync, msg } = posted;
    let bucket = bucket_of(&msg);
    let reply = take_message(state, from, to, msg);
    let heard = Heard {
        sync,
        bucket,
        reply,
    };
    answer_call(state, from, to, heard);
}
