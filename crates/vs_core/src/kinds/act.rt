//! A call acts.

ghost use Rattle.std.specs.Prelude.{◌≡◌, ◌≤◌, true, length, Some, Ok, None, IfOk};
ghost use Rattle.std.specs.Option.{option_copied};
ghost use Rattle.vs_rows.specs.Changes.{with_changes};
ghost use Rattle.vs_rows.specs.Operations.{answers_to, rows_after};
ghost use Rattle.vs_rows.specs.Said.{said_all};
ghost use Rattle.vs_base.specs.declared.numbers.Mode.TheVariants.{Ro};
ghost use Rattle.vs_history.specs.History.{write_count};
ghost use Rattle.vs_history.specs.declared.history.History.{History};
ghost use Rattle.vs_script.specs.Calls as scripts;
ghost use Rattle.vs_machine.specs.Kinds.Calls as kinds;
ghost use Rattle.vs_machine.specs.State as machine;
ghost use Rattle.vs_state.specs.Guard.{verdict};
ghost use Rattle.vs_state.specs.Plain.{plain};
ghost use Rattle.vs_state.specs.Tables.{numbered};
ghost use Rattle.vs_core.specs.Acting.{stored_at, IsPrepared, IsActReady, HasEntryRoom};
ghost use Rattle.vs_core.specs.Keeps.{IsKnown, IsSound};

use crate::reserves::{reserve_entry, stage_rows};
use crate::writes::{place_read, place_write, say, write_rows};
use vs_base::{BucketId, CallId, ClientNo, Mode, NoMemory, SetNo};
use vs_rows::{Answers, Changes, Ops, Staged, copy_answers};
use vs_space::Status;
use vs_state::State;

/// What a call needs that acts.
#[derive(Drop)]
pub struct PreparedAct {
    pub ops: Ops,
    /// The answers, for the history and for the client.
    pub answers: Answers,
    pub said: Answers,
    pub changes: Changes,
}

/// The place of the rows of a bucket at a set.
fn place_at(state: &State, set: SetNo, bucket: BucketId) -> u64
    ensures { result ≡ kinds.place_of ((plain state.now).bucket bucket) set Mode.Ro }
{
    match state.entry(set, bucket) {
        Some(Status::Sent(_)) => state.kept(set, bucket),
        _ => state.writes(bucket),
    }
}

/// The operations of a call run at a set, with these answers and these changes of rows, and the call joins the history
/// of its bucket. It answers the place.
pub(crate) fn run(
    state: &mut State,
    set: SetNo,
    bucket: BucketId,
    mode: Mode,
    id: CallId,
    ops: Ops,
    answers: Answers,
    changes: Changes,
) -> u64
    requires set { machine.has_set (plain state.old) set ≡ true }
    requires bucket { machine.has_bucket (plain state.old) bucket ≡ true }
    requires sound { IsSound state.old }
    requires within { mode ≡ Ro → kinds.place_of ((plain state.old).bucket bucket) set mode
        ≤ write_count ((plain state.old).bucket bucket).history }
    requires answers { said_all answers.items ≡ answers_to (((plain state.old).bucket bucket).rows set) ops.items }
    requires changes { with_changes (((plain state.old).bucket bucket).rows set) changes.items
        ≡ rows_after (((plain state.old).bucket bucket).rows set) ops.items }
    requires places { length changes.items ≤ (stored_at state.old set bucket).room }
    requires history { (h : History) → numbered Some None state.old.histories.items bucket ≡ Some h → HasEntryRoom h }
    ensures place { result ≡ kinds.place_of ((plain state.old).bucket bucket) set mode }
    ensures ran { plain state.new ≡ machine.put_bucket (plain state.old) bucket
        (kinds.bucket_after ((plain state.old).bucket bucket) set id mode ops.items) }
    ensures operators { state.new.operators ≡ state.old.operators }
    ensures sound { IsSound state.new }
{
    if let Mode::Ro = mode {
        let place = place_at(state, set, bucket);
        place_read(state, bucket, id, ops, answers, place);
        return place;
    }
    write_rows(state, set, bucket, changes);
    place_write(state, bucket, id, ops, answers)
}

/// Prepares what a call needs that acts, and makes room for what it changes.
pub(crate) fn reserve_act(state: &mut State, client: ClientNo) -> Result<PreparedAct, NoMemory>
    requires possible { verdict (kinds.act (plain state.old) client) ≡ Ok tt }
    requires known { IsKnown (plain state.old) }
    requires sound { IsSound state.old }
    ensures ready { IfOk result (λ p. IsActReady state.new client p) }
    ensures same { plain state.new ≡ plain state.old }
    ensures sound { IsSound state.new }
{
    let (Some(call), Some(set)) = (state.next_call(client), state.call_set(client)) else {
        unreachable!()
    };
    let bucket = call.bucket;
    let ops = call.ops.try_clone()?;
    reserve_entry(state, bucket)?;
    let Staged { changes, answers } = stage_rows(state, set, bucket, &ops)?;
    let said = copy_answers(answers.allocator(), &answers)?;
    Ok(PreparedAct {
        ops,
        answers,
        said,
        changes,
    })
}

/// A call acts: its operations ran on the rows of its set, and it joins the history.
pub(crate) fn act(state: &mut State, client: ClientNo, prepared: PreparedAct)
    requires possible { verdict (kinds.act (plain state.old) client) ≡ Ok tt }
    requires known { IsKnown (plain state.old) }
    requires sound { IsSound state.old }
    requires ready { IsActReady state.old client prepared }
    ensures step { kinds.act (plain state.old) client ≡ Ok (plain state.new) }
    ensures sound { IsSound state.new }
{
    let (Some(call), Some(set)) = (state.next_call(client), state.call_set(client)) else {
        return;
    };
    let (mode, bucket) = (call.mode, call.bucket);
    let id = state.call_id(client);
    let PreparedAct {
        ops,
        answers,
        said,
        changes,
    } = prepared;
    let place = run(state, set, bucket, mode, id, ops, answers, changes);
    say(state, client, place, said);
}
