//! Whether all is answered, and whether a cluster is settled. No call takes memory.

ghost use Rattle.std.specs.Prelude.{◌≡◌, ◌↔◌, ℕ, IsTrue, None};
ghost use Rattle.vs_machine.specs.Settling.{AreUp, HasNoMessage, IsSettled, IsSilent};
ghost use Rattle.vs_state.specs.Plain.{plain};
ghost use Rattle.vs_state.specs.Sized.{IsSized, OnlyItsBuckets};
ghost use Rattle.vs_core.specs.Core.{means};
ghost use Rattle.vs_machine.specs.Kinds.Stops.{is_finished};
ghost use Rattle.vs_machine.specs.Whole.{Whole};
ghost use Rattle.vs_survey.specs.Readers.{IsAtRest, AreAtRest, ArePlaced, HasNoTransfer, AreIdle, IsSilentFrom};

use vs_base::{ClientNo, SetNo};
use vs_calls::Stage;
use vs_core::Core;
use vs_machine::every_event;
use vs_space::StatusKind;
use vs_state::State;

/// Whether all sets are up.
fn are_up(state: &State) -> bool
    requires { IsSized state.now }
    ensures { IsTrue result ↔ AreUp (plain state.now) }
{
    for index in 0..state.set_count() {
        let Some(set) = SetNo::new(index + 1) else {
            unreachable!()
        };
        if !state.up(set) {
            return false;
        }
    }
    true
}

/// Whether a set has its buckets active or pinned, and nothing left of another.
fn is_at_rest(state: &State, set: SetNo) -> bool
    requires sized { IsSized state.now }
    requires buckets { OnlyItsBuckets (plain state.now) }
    ensures { IsTrue result ↔ IsAtRest (plain state.now) set }
{
    state.count(set, StatusKind::Sending) == 0
        && state.count(set, StatusKind::Receiving) == 0
        && state.count(set, StatusKind::Sent) == 0
        && state.count(set, StatusKind::Garbage) == 0
}

/// Whether all sets have their buckets active or pinned.
fn are_at_rest(state: &State) -> bool
    requires sized { IsSized state.now }
    requires buckets { OnlyItsBuckets (plain state.now) }
    ensures { IsTrue result ↔ AreAtRest (plain state.now) }
{
    for index in 0..state.set_count() {
        let Some(set) = SetNo::new(index + 1) else {
            unreachable!()
        };
        if !is_at_rest(state, set) {
            return false;
        }
    }
    true
}

/// Whether each bucket is active or pinned at one set, and no other has anything of it.
fn are_placed(state: &State) -> bool
    requires sized { IsSized state.now }
    requires whole { (own : ℕ → ℕ) × Whole own (plain state.now) }
    ensures { IsTrue result ↔ ArePlaced (plain state.now) }
{
    are_at_rest(state)
}

/// Whether no transfer from a set is under way.
fn has_no_transfer(state: &State, set: SetNo) -> bool
    ensures { IsTrue result ↔ HasNoTransfer (plain state.now) set }
{
    match state.set(set) {
        Some(tables) => tables.transfers.is_empty(),
        None => true,
    }
}

/// Whether no transfer is under way.
fn have_no_transfer(state: &State) -> bool
    requires sized { IsSized state.now }
    ensures { IsTrue result ↔ ((b x : ℕ) → ((plain state.now).bucket b).transfer x ≡ None) }
{
    for index in 0..state.set_count() {
        let Some(set) = SetNo::new(index + 1) else {
            unreachable!()
        };
        if !has_no_transfer(state, set) {
            return false;
        }
    }
    true
}

/// Whether no call is under way.
fn are_idle(state: &State) -> bool
    requires { IsSized state.now }
    ensures { IsTrue result ↔ AreIdle (plain state.now) }
{
    let count = state.clients.len() as u8;
    for index in 0..count {
        let Some(client) = ClientNo::new(index + 1) else {
            unreachable!()
        };
        if state.stage(client) != Stage::Idle {
            return false;
        }
    }
    true
}

/// Whether no message and no reply lies on a connection.
fn has_no_message(state: &State, from: SetNo, to: SetNo) -> bool
    requires { IsSized state.now }
    ensures { IsTrue result ↔ HasNoMessage (plain state.now) from to }
{
    state.head_call(from, to).is_none() && state.head_reply(from, to).is_none()
}

/// Whether nothing lies on the connections from a set.
fn is_silent_from(state: &State, from: SetNo) -> bool
    requires sized { IsSized state.now }
    ensures { IsTrue result ↔ IsSilentFrom (plain state.now) from }
{
    for index in 0..state.set_count() {
        let Some(to) = SetNo::new(index + 1) else {
            unreachable!()
        };
        if !has_no_message(state, from, to) {
            return false;
        }
    }
    true
}

/// Whether nothing lies on any connection.
fn are_silent(state: &State) -> bool
    requires sized { IsSized state.now }
    ensures { IsTrue result ↔ IsSilent (plain state.now) }
{
    for index in 0..state.set_count() {
        let Some(from) = SetNo::new(index + 1) else {
            unreachable!()
        };
        if !is_silent_from(state, from) {
            return false;
        }
    }
    true
}

/// Whether a cluster is settled.
fn is_settled(state: &State) -> bool
    requires sized { IsSized state.now }
    requires whole { (own : ℕ → ℕ) × Whole own (plain state.now) }
    ensures { IsTrue result ↔ IsSettled (plain state.now) }
{
    are_up(state)
        && are_placed(state)
        && have_no_transfer(state)
        && are_idle(state)
        && are_silent(state)
}

/// Whether every client and every operator is answered.
pub fn finished(core: &Core) -> bool
    ensures { result ≡ is_finished (means core.now) }
{
    core.state().is_finished()
}

/// Whether the cluster is settled: all sets are up, each bucket is at one of them, and nothing is under way.
pub fn settled(core: &Core) -> bool
    ensures { IsTrue result ↔ IsSettled (means core.now) }
{
    every_event();
    is_settled(core.state())
}
