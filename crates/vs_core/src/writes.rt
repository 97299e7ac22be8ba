//! How single tables of the state are written. No call takes memory.

ghost use Rattle.std.specs.Prelude.{◌≡◌, ◌≤◌, ◌+◌, ℕ, length, true, Some, None};
ghost use Rattle.vs_rows.specs.Changes.{with_changes};
ghost use Rattle.vs_rows.specs.Said.{said_all};
ghost use Rattle.vs_history.specs.History.{write_count, with_write, with_read};
ghost use Rattle.vs_calls.specs.Progress.{is_running, acted};
ghost use Rattle.vs_machine.specs.State as machine;
ghost use Rattle.vs_state.specs.Plain.{plain};
ghost use Rattle.vs_state.specs.Tables.{numbered};
ghost use Rattle.vs_history.specs.declared.history.History.{History};
ghost use Rattle.vs_core.specs.Acting.{stored_at, HasEntryRoom};
ghost use Rattle.vs_core.specs.Keeps.{IsSound};

use crate::rows::change_rows;
use vs_base::{BucketId, CallId, ClientNo, SetNo};
use vs_rows::{Answers, Changes, Ops};
use vs_state::State;

/// Changes rows of a bucket at a set.
pub(crate) fn write_rows(state: &mut State, set: SetNo, bucket: BucketId, changes: Changes)
    requires set { machine.has_set (plain state.old) set ≡ true }
    requires sound { IsSound state.old }
    requires room { length changes.items ≤ (stored_at state.old set bucket).room }
    ensures rows { plain state.new ≡ machine.put_bucket (plain state.old) bucket
        (machine.put_rows ((plain state.old).bucket bucket) set
        (with_changes (((plain state.old).bucket bucket).rows set) changes.items)) }
    ensures histories { state.new.histories ≡ state.old.histories }
    ensures operators { state.new.operators ≡ state.old.operators }
    ensures sound { IsSound state.new }
{
    let tables = &mut state.sets[usize::from(set.get()) - 1];
    change_rows(tables, bucket, changes);
}

/// A write joins the history of a bucket, at the next place, which is the result.
pub(crate) fn place_write(
    state: &mut State,
    bucket: BucketId,
    id: CallId,
    ops: Ops,
    answers: Answers,
) -> u64
    requires bucket { machine.has_bucket (plain state.old) bucket ≡ true }
    requires sound { IsSound state.old }
    requires room { (h : History) → numbered Some None state.old.histories.items bucket ≡ Some h → HasEntryRoom h }
    ensures place { result ≡ write_count ((plain state.old).bucket bucket).history + 1 }
    ensures joins { plain state.new ≡ machine.put_bucket (plain state.old) bucket
        (record ((plain state.old).bucket bucket) {
          history =
              with_write ((plain state.old).bucket bucket).history id ops.items (said_all answers.items);
        }) }
    ensures operators { state.new.operators ≡ state.old.operators }
    ensures sound { IsSound state.new }
{
    state.histories[bucket.get() as usize - 1].place_write(id, ops, answers)
}

/// A read joins the history of a bucket, at the place of the rows that it saw.
pub(crate) fn place_read(
    state: &mut State,
    bucket: BucketId,
    id: CallId,
    ops: Ops,
    answers: Answers,
    place: u64,
)
    requires bucket { machine.has_bucket (plain state.old) bucket ≡ true }
    requires sound { IsSound state.old }
    requires within { place ≤ write_count ((plain state.old).bucket bucket).history }
    requires room { (h : History) → numbered Some None state.old.histories.items bucket ≡ Some h → HasEntryRoom h }
    ensures joins { plain state.new ≡ machine.put_bucket (plain state.old) bucket
        (record ((plain state.old).bucket bucket) {
          history =
              with_read ((plain state.old).bucket bucket).history id ops.items (said_all answers.items) place;
        }) }
    ensures operators { state.new.operators ≡ state.old.operators }
    ensures sound { IsSound state.new }
{
    state.histories[bucket.get() as usize - 1].place_read(id, ops, answers, place);
}

/// The client's call has acted at this place, with these answers.
pub(crate) fn say(state: &mut State, client: ClientNo, place: u64, said: Answers)
    requires client { machine.has_client (plain state.old) client ≡ true }
    requires sound { IsSound state.old }
    requires running { is_running ((plain state.old).client client).present.stage ≡ true }
    ensures said { plain state.new ≡ machine.put_client (plain state.old) client
        (machine.with_progress ((plain state.old).client client)
        (acted ((plain state.old).client client).present place (said_all said.items))) }
    ensures sound { IsSound state.new }
{
    state.clients[usize::from(client.get()) - 1]
        .present
        .act(place, said);
}
