//! A call begins at its set.

ghost use Rattle.std.specs.Prelude.{◌≡◌, [], true, Ok, OnOk};
ghost use Rattle.vs_calls.specs.Progress.{begun, is_posted};
ghost use Rattle.vs_machine.specs.Kinds.Calls as kinds;
ghost use Rattle.vs_machine.specs.State as machine;
ghost use Rattle.vs_state.specs.Guard.{verdict};
ghost use Rattle.vs_state.specs.Plain.{plain};
ghost use Rattle.vs_state.specs.Sized.{IsSized};
ghost use Rattle.vs_core.specs.Keeps.{IsKnown, IsSound};
ghost use Rattle.vs_core.specs.References.{AgreesWith, IsBeginReady};

use crate::references::{reserve_reference, take_reference};
use vs_base::{BucketId, ClientNo, Mode, NoMemory, SetNo};
use vs_space::{Cause, Verdict, verdict};
use vs_state::State;

/// Makes room for the reference that a call may take.
pub(crate) fn reserve_begin(state: &mut State, client: ClientNo) -> Result<(), NoMemory>
    requires possible { verdict (kinds.begin (plain state.old) client) ≡ Ok tt }
    requires known { IsKnown (plain state.old) }
    requires sound { IsSound state.old }
    ensures ready { OnOk result (IsBeginReady state.new client) }
    ensures same { plain state.new ≡ plain state.old }
    ensures sound { IsSound state.new }
{
    let Some(set) = state.call_set(client) else {
        return Ok(());
    };
    if !state.has_set(set) {
        return Ok(());
    }
    reserve_reference(state, set)
}

/// What a set answers to a call of this mode on a bucket.
fn verdict_at(state: &State, set: SetNo, bucket: BucketId, mode: Mode) -> Verdict
    requires { IsSound state.now }
    ensures { result ≡ kinds.verdict_at (plain state.now) set (record { mode = mode; bucket = bucket; ops = [] }) }
{
    if !state.up(set) {
        return Verdict::Refused(Cause::Down);
    }
    let locked = state.counts(set, bucket).rw_lock;
    verdict(state.entry(set, bucket), locked, mode)
}

/// The client's call is granted or refused; where it is granted, its reference was taken.
fn begin_present(state: &mut State, client: ClientNo, verdict: Verdict)
    requires client { machine.has_client (plain state.old) client ≡ true }
    requires sized { IsSized state.old }
    requires posted { is_posted ((plain state.old).client client).present.stage ≡ true }
    requires agrees { AgreesWith state.old (machine.put_client (plain state.old) client
        (machine.with_progress ((plain state.old).client client)
        (begun ((plain state.old).client client).present verdict))) }
    ensures begun { plain state.new ≡ machine.put_client (plain state.old) client
        (machine.with_progress ((plain state.old).client client)
        (begun ((plain state.old).client client).present verdict)) }
    ensures sound { IsSound state.new }
{
    state.clients[usize::from(client.get()) - 1]
        .present
        .begin(verdict);
}

/// A posted call begins: its set grants it, and a reference is taken, or refuses it. It takes no memory.
pub(crate) fn begin(state: &mut State, client: ClientNo)
    requires possible { verdict (kinds.begin (plain state.old) client) ≡ Ok tt }
    requires known { IsKnown (plain state.old) }
    requires sound { IsSound state.old }
    requires ready { IsBeginReady state.old client }
    ensures step { kinds.begin (plain state.old) client ≡ Ok (plain state.new) }
    ensures sound { IsSound state.new }
{
    let (Some(call), Some(set)) = (state.next_call(client), state.call_set(client)) else {
        return;
    };
    let (mode, bucket) = (call.mode, call.bucket);
    match verdict_at(state, set, bucket, mode) {
        Verdict::Granted => {
            take_reference(state, set, bucket, mode);
            begin_present(state, client, Verdict::Granted);
        }
        Verdict::Refused(cause) => begin_present(state, client, Verdict::Refused(cause)),
    }
}
