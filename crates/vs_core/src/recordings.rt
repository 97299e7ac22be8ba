//! Which change an event records.

ghost use Rattle.std.specs.Prelude.{◌≡◌, Some, IfOk, option_map};
ghost use Rattle.vs_event.specs.declared.event.Recorded.TheVariants as recorded;
ghost use Rattle.vs_record.specs.Change as changes;
ghost use Rattle.vs_machine.specs.Kinds.Stops.{recording_of, write_of};
ghost use Rattle.vs_machine.specs.State as machine;
ghost use Rattle.vs_state.specs.Plain.{plain, client};
ghost use Rattle.vs_state.specs.Sized.{IsSized, OnlyItsBuckets};

use vs_base::{BucketId, CallId, ClientNo, Mode, NoMemory, OpNo, SetNo};
use vs_event::Recorded;
use vs_link::Msg;
use vs_record::Change;
use vs_recover::Decision;
use vs_script::Command;
use vs_space::{Reply, Status};
use vs_state::{ClientTables, State};

/// The most rows that one event deletes.
const WIPED_AT_ONCE: u64 = 1_000;

/// What the call of a client of this number writes.
fn written_by(tables: &ClientTables, number: ClientNo) -> Result<Option<Change>, NoMemory>
    ensures { IfOk result (λ change. option_map changes.change change ≡ option_map (λ r. r.change)
        (write_of (client tables.now) number (machine.next_call (client tables.now)) (client tables.now).present.set)) }
{
    let (Some(call), Some(_)) = (tables.next_call(), tables.present.set()) else {
        return Ok(None);
    };
    match call.mode {
        Mode::Ro => Ok(None),
        Mode::Rw => {
            let id = CallId {
                client: number,
                call: tables.present.number(),
            };
            Ok(Some(Change::Write(id, call.bucket, call.ops.try_clone()?)))
        }
    }
}

/// What a client's present call writes.
fn write_by(state: &State, client: ClientNo) -> Result<Option<Change>, NoMemory>
    ensures { IfOk result (λ change. option_map changes.change change ≡ option_map (λ r. r.change)
        (recording_of (plain state.now) (recorded.Act client))) }
{
    match state.client(client) {
        Some(tables) => written_by(tables, client),
        None => Ok(None),
    }
}

/// What a bucket becomes that is being sent.
fn sending(state: &State, set: SetNo, bucket: BucketId) -> Option<Change>
    ensures { option_map changes.change result ≡ option_map (λ r. r.change)
        (recording_of (plain state.now) (recorded.Freeze set bucket)) }
{
    match state.transfer(set, bucket) {
        Some(transfer) => Some(Change::Status(bucket, Status::Sending(transfer.dest))),
        None => None,
    }
}

/// What a bucket becomes that was sent.
fn sent(state: &State, set: SetNo, bucket: BucketId) -> Option<Change>
    ensures { option_map changes.change result ≡ option_map (λ r. r.change)
        (recording_of (plain state.now) (recorded.Seal set bucket)) }
{
    match state.transfer(set, bucket) {
        Some(transfer) => Some(Change::Status(bucket, Status::Sent(transfer.dest))),
        None => None,
    }
}

/// What the message that stands first becomes, where it is taken.
fn taking(state: &State, from: SetNo, to: SetNo) -> Result<Option<Change>, NoMemory>
    requires sized { IsSized state.now }
    requires buckets { OnlyItsBuckets (plain state.now) }
    ensures { IfOk result (λ change. option_map changes.change change ≡ option_map (λ r. r.change)
        (recording_of (plain state.now) (recorded.Deliver from to))) }
{
    let Some(posted) = state.head_call(from, to) else {
        return Ok(None);
    };
    match &posted.msg {
        Msg::Chunk(bucket, page) => match state.receives(from, to, *bucket, false) {
            Ok(_) => Ok(Some(Change::RowsPage(*bucket, from, page.try_clone()?))),
            Err(_) => Ok(None),
        },
        Msg::Last(bucket) => match state.receives(from, to, *bucket, true) {
            Ok(_) => Ok(Some(Change::Status(*bucket, Status::Active))),
            Err(_) => Ok(None),
        },
        Msg::Stat(_) => Ok(None),
    }
}

/// What the reply that stands first decides.
fn decided(state: &State, set: SetNo, from: SetNo) -> Option<Change>
    requires { IsSized state.now }
    ensures { option_map changes.change result ≡ option_map (λ r. r.change)
        (recording_of (plain state.now) (recorded.Hear set from)) }
{
    let heard = state.head_reply(set, from)?;
    let Reply::State(remote, live) = heard.reply else {
        return None;
    };
    if !state.answer_counts(set, from, heard.bucket, heard.sync) {
        return None;
    }
    match state.decision(set, heard.bucket, remote, live) {
        Decision::Stay => None,
        Decision::ToActive => Some(Change::Status(heard.bucket, Status::Active)),
        Decision::ToGarbage => Some(Change::Status(heard.bucket, Status::Garbage)),
    }
}

/// Which rows of a bucket are deleted at once.
fn wiped(state: &State, set: SetNo, bucket: BucketId) -> Change
    ensures { option_map (λ r. r.change) (recording_of (plain state.now) (recorded.Wipe set bucket))
        ≡ Some (changes.change result) }
{
    let count = state.row_count(set, bucket).min(WIPED_AT_ONCE);
    Change::Wipe(bucket, count as u16)
}

/// What the bucket becomes that an operator pins or unpins, where that isn't refused.
fn pinned(state: &State, operator: OpNo) -> Option<Change>
    ensures { option_map changes.change result ≡ option_map (λ r. r.change)
        (recording_of (plain state.now) (recorded.Pin operator)) }
{
    match state.next_command(operator)? {
        Command::Pin(bucket, set) => match state.pin_fault(*bucket, *set) {
            Some(_) => None,
            None => Some(Change::Status(*bucket, Status::Pinned)),
        },
        Command::Unpin(bucket, set) => match state.unpin_fault(*bucket, *set) {
            Some(_) => None,
            None => Some(Change::Status(*bucket, Status::Active)),
        },
        _ => None,
    }
}

/// A copy of the change that an event which can happen records, where it records one.
pub(crate) fn change_of(state: &State, event: Recorded) -> Result<Option<Change>, NoMemory>
    requires sized { IsSized state.now }
    requires buckets { OnlyItsBuckets (plain state.now) }
    ensures { IfOk result (λ change. option_map changes.change change ≡ option_map (λ r. r.change)
        (recording_of (plain state.now) event)) }
{
    match event {
        Recorded::Act(client) => write_by(state, client),
        Recorded::Freeze(set, bucket) => Ok(sending(state, set, bucket)),
        Recorded::Seal(set, bucket) => Ok(sent(state, set, bucket)),
        Recorded::Deliver(from, to) => taking(state, from, to),
        Recorded::Hear(set, from) => Ok(decided(state, set, from)),
        Recorded::Condemn(_, bucket) => Ok(Some(Change::Status(bucket, Status::Garbage))),
        Recorded::Wipe(set, bucket) => Ok(Some(wiped(state, set, bucket))),
        Recorded::Forget(_, bucket) => Ok(Some(Change::Forget(bucket))),
        Recorded::Pin(operator) => Ok(pinned(state, operator)),
    }
}
