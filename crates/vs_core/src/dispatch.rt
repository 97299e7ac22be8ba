//! Each kind of event has its own functions.

ghost use Rattle.std.specs.Prelude.{◌≡◌, Ok, IfOk, OnOk};
ghost use Rattle.vs_machine.specs.Step.{step};
ghost use Rattle.vs_state.specs.Guard.{verdict};
ghost use Rattle.vs_state.specs.Plain.{plain};
ghost use Rattle.vs_core.specs.Keeps.{IsKnown, IsSound};
ghost use Rattle.vs_core.specs.Ready.{IsReadyFor, HasRoomFor, HasNoParts};

use crate::kinds::act::{PreparedAct, act, reserve_act};
use crate::kinds::ask::{ask, reserve_ask};
use crate::kinds::begin::{begin, reserve_begin};
use crate::kinds::chunk::{PreparedChunk, chunk, reserve_chunk};
use crate::kinds::close::{close, reserve_close};
use crate::kinds::condemn::{condemn, reserve_condemn};
use crate::kinds::cut::{cut, reserve_cut};
use crate::kinds::deliver::{deliver, reserve_deliver};
use crate::kinds::end::end;
use crate::kinds::end_move::{abort, end_move, reserve_abort, reserve_end_move};
use crate::kinds::fault::{PreparedFault, fault, reserve_fault};
use crate::kinds::forget::forget;
use crate::kinds::freeze::{freeze, not_yet, reserve_seal, seal};
use crate::kinds::haul::{PreparedHaul, haul, reserve_haul};
use crate::kinds::hear::{hear, reserve_hear};
use crate::kinds::last::{last, reserve_last};
use crate::kinds::pin::{pin, reserve_pin};
use crate::kinds::plan::{PreparedPlan, plan, reserve_plan};
use crate::kinds::post::post;
use crate::kinds::restart::{PreparedRestart, reserve_restart, restart};
use crate::kinds::start::{reserve_start, start};
use crate::kinds::stop::{reserve_stop, stop};
use crate::kinds::take::{reserve_take, take};
use crate::kinds::wipe::wipe;
use vs_base::{BucketId, ClientNo, NoMemory, OpNo, SetNo};
use vs_event::Event;
use vs_state::State;

/// What was made ahead for an event, beside the room in the tables.
#[derive(Drop)]
pub enum Prepared {
    Nothing,
    Act(ClientNo, PreparedAct),
    Chunk(SetNo, BucketId, PreparedChunk),
    Haul(OpNo, SetNo, SetNo, PreparedHaul),
    Plan(OpNo, PreparedPlan),
    Fault(PreparedFault),
    Restart(PreparedRestart),
}

/// Makes room in the tables, for an event that needs nothing beside it.
fn reserve_room(state: &mut State, event: Event) -> Result<(), NoMemory>
    requires possible { verdict (step (plain state.old) event) ≡ Ok tt }
    requires known { IsKnown (plain state.old) }
    requires sound { IsSound state.old }
    requires kind { HasNoParts event }
    ensures ready { OnOk result (HasRoomFor state.new event) }
    ensures same { plain state.new ≡ plain state.old }
    ensures sound { IsSound state.new }
{
    match event {
        Event::Begin(client) => reserve_begin(state, client),
        Event::Take(client) => reserve_take(state, client),
        Event::Cut(operator) => reserve_cut(state, operator),
        Event::Start(operator) => reserve_start(state, operator),
        Event::Seal(set, bucket) => reserve_seal(state, set, bucket),
        Event::Last(set, bucket) => reserve_last(state, set, bucket),
        Event::Abort(set, bucket) => reserve_abort(state, set, bucket),
        Event::EndMove(set, bucket) => reserve_end_move(state, set, bucket),
        Event::Deliver(from, to) => reserve_deliver(state, from, to),
        Event::Hear(set, from) => reserve_hear(state, set, from),
        Event::Close(operator) => reserve_close(state, operator),
        Event::Ask(set, bucket) => reserve_ask(state, set, bucket),
        Event::Condemn(set, bucket) => reserve_condemn(state, set, bucket),
        Event::Pin(operator) => reserve_pin(state, operator),
        Event::Stop(operator) => reserve_stop(state, operator),
        Event::Post(_, _) | Event::End(_) => Ok(()),
        Event::NotYet(_, _) | Event::Freeze(_, _) => Ok(()),
        Event::Wipe(_, _) | Event::Forget(_, _) => Ok(()),
        Event::Act(_) | Event::Chunk(_, _) | Event::Haul(_, _, _) => unreachable!(),
        Event::Plan(_) | Event::Fault(_, _, _) | Event::Restart(_, _, _) => unreachable!(),
    }
}

/// Takes all memory of an event.
pub(crate) fn reserve(state: &mut State, event: Event) -> Result<Prepared, NoMemory>
    requires possible { verdict (step (plain state.old) event) ≡ Ok tt }
    requires known { IsKnown (plain state.old) }
    requires sound { IsSound state.old }
    ensures ready { IfOk result (λ prepared. IsReadyFor state.new event prepared) }
    ensures same { plain state.new ≡ plain state.old }
    ensures sound { IsSound state.new }
{
    match event {
        Event::Act(client) => {
            let prepared = reserve_act(state, client)?;
            Ok(Prepared::Act(client, prepared))
        }
        Event::Chunk(set, bucket) => {
            let prepared = reserve_chunk(state, set, bucket)?;
            Ok(Prepared::Chunk(set, bucket, prepared))
        }
        Event::Haul(operator, from, to) => {
            let prepared = reserve_haul(state, operator, from, to)?;
            Ok(Prepared::Haul(operator, from, to, prepared))
        }
        Event::Plan(operator) => {
            let prepared = reserve_plan(state, operator)?;
            Ok(Prepared::Plan(operator, prepared))
        }
        Event::Fault(set, number, recorded) => {
            let prepared = reserve_fault(state, set, number, recorded)?;
            Ok(Prepared::Fault(prepared))
        }
        Event::Restart(set, kept, by) => {
            let prepared = reserve_restart(state, set, kept, by)?;
            Ok(Prepared::Restart(prepared))
        }
        _ => {
            reserve_room(state, event)?;
            Ok(Prepared::Nothing)
        }
    }
}

/// Carries out an event for which there is room. It takes no memory.
fn carry_out_plain(state: &mut State, event: Event)
    requires possible { verdict (step (plain state.old) event) ≡ Ok tt }
    requires known { IsKnown (plain state.old) }
    requires sound { IsSound state.old }
    requires ready { HasRoomFor state.old event }
    ensures step { step (plain state.old) event ≡ Ok (plain state.new) }
    ensures sound { IsSound state.new }
{
    match event {
        Event::Post(client, set) => post(state, client, set),
        Event::Begin(client) => begin(state, client),
        Event::End(client) => end(state, client),
        Event::Take(client) => take(state, client),
        Event::Cut(operator) => cut(state, operator),
        Event::Start(operator) => start(state, operator),
        Event::NotYet(set, bucket) => not_yet(state, set, bucket),
        Event::Freeze(set, bucket) => freeze(state, set, bucket),
        Event::Seal(set, bucket) => seal(state, set, bucket),
        Event::Last(set, bucket) => last(state, set, bucket),
        Event::Abort(set, bucket) => abort(state, set, bucket),
        Event::EndMove(set, bucket) => end_move(state, set, bucket),
        Event::Deliver(from, to) => deliver(state, from, to),
        Event::Hear(set, from) => hear(state, set, from),
        Event::Close(operator) => close(state, operator),
        Event::Ask(set, bucket) => ask(state, set, bucket),
        Event::Condemn(set, bucket) => condemn(state, set, bucket),
        Event::Wipe(set, bucket) => wipe(state, set, bucket),
        Event::Forget(set, bucket) => forget(state, set, bucket),
        Event::Pin(operator) => pin(state, operator),
        Event::Stop(operator) => stop(state, operator),
        Event::Act(_) | Event::Chunk(_, _) | Event::Haul(_, _, _) => unreachable!(),
        Event::Plan(_) | Event::Fault(_, _, _) | Event::Restart(_, _, _) => unreachable!(),
    }
}

/// Carries an event out. It takes no memory.
pub(crate) fn carry_out(state: &mut State, event: Event, prepared: Prepared)
    requires possible { verdict (step (plain state.old) event) ≡ Ok tt }
    requires known { IsKnown (plain state.old) }
    requires sound { IsSound state.old }
    requires ready { IsReadyFor state.old event prepared }
    ensures step { step (plain state.old) event ≡ Ok (plain state.new) }
    ensures sound { IsSound state.new }
{
    match prepared {
        Prepared::Nothing => carry_out_plain(state, event),
        Prepared::Act(client, prepared) => act(state, client, prepared),
        Prepared::Chunk(set, bucket, prepared) => chunk(state, set, bucket, prepared),
        Prepared::Haul(operator, from, to, prepared) => haul(state, operator, from, to, prepared),
        Prepared::Plan(operator, prepared) => plan(state, operator, prepared),
        Prepared::Fault(prepared) => {
            let Event::Fault(set, number, recorded) = event else {
                unreachable!()
            };
            fault(state, set, number, recorded, prepared);
        }
        Prepared::Restart(prepared) => {
            let Event::Restart(set, kept, by) = event else {
                unreachable!()
            };
            restart(state, set, kept, by, prepared);
        }
    }
}
