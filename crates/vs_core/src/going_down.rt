//! A set goes down. No call takes memory but those that make ready.

ghost use Rattle.std.specs.Prelude.{◌≡◌, ◌≢◌, ◌≤◌, ◌&&◌, ℕ, true, false, if◌then◌else◌, Some, None, OnOk};
ghost use Rattle.std.specs.Bool.{OnTrue};
ghost use Rattle.vs_calls.specs.Progress as progress;
ghost use Rattle.vs_calls.specs.State.{means};
ghost use Rattle.vs_link.specs.Connection.{unused, closed};
ghost use Rattle.vs_link.specs.Links.{connection_of, is_set};
ghost use Rattle.vs_machine.specs.State as machine;
ghost use Rattle.vs_machine.specs.Kinds.Stops.{closed_at, gone_down, lost_at, stopped_move};
ghost use Rattle.vs_state.specs.Plain.{plain, client, operator};
ghost use Rattle.vs_state.specs.Sized.{IsSized};
ghost use Rattle.vs_state.specs.Tables.{numbered};
ghost use Rattle.vs_core.specs.GoingDown.{IsCleared, ForgetsAt, without_tables, without_calls, without_moves, without_lines, moves_from, is_between};
ghost use Rattle.vs_core.specs.Keeps.{IsSound};
ghost use Rattle.vs_core.specs.Rooms.{HasAnswerRoom};
ghost use Rattle.vs_core.specs.Stopping.{CanClose, CanCloseBoth, IsDownReady};

use crate::answers::answer_next;
use std::alloc::Global;
use vs_base::{NoMemory, SetNo};
use vs_calls::{CallState, Stage};
use vs_link::Links;
use vs_machine::CommandOutcome;
use vs_recover::Asks;
use vs_script::Command;
use vs_send::AbortCause;
use vs_state::{ClientTables, OperatorTables, SetTables, State};

/// The end of the epochs of a connection.
const END: u64 = (1 << 63) - 1;

/// Makes room for one more answer.
fn reserve_outcome(tables: &mut OperatorTables) -> Result<(), NoMemory>
    ensures room { OnOk result (1 ≤ tables.new.outcomes.room) }
    ensures same { operator tables.new ≡ operator tables.old }
{
    tables.outcomes.reserve()
}

/// Makes room for one more answer to each operator.
pub(crate) fn reserve_answers(state: &mut State) -> Result<(), NoMemory>
    requires sound { IsSound state.old }
    ensures room { OnOk result ((o : ℕ) → HasAnswerRoom state.new o) }
    ensures rest { state.new ≡ record state.old { operators = state.new.operators } }
    ensures same { plain state.new ≡ plain state.old }
    ensures sound { IsSound state.new }
{
    for index in 0..state.operators.len() {
        let tables = &mut state.operators[index];
        reserve_outcome(tables)?;
    }
    Ok(())
}

/// Whether both connections between two sets can be closed once more. A set has none to itself.
fn can_close_both(links: &Links, set: SetNo, other: SetNo) -> bool
    requires from { set ≤ links.now.sets }
    requires to { other ≤ links.now.sets }
    ensures { OnTrue result (set ≢ other → CanCloseBoth links.now set other) }
{
    if set == other {
        return true;
    }
    links.epoch(set, other) < END && links.epoch(other, set) < END
}

/// Whether each connection from a set and to it can be closed once more, among so many sets.
fn can_close(links: &Links, set: SetNo, count: u8) -> bool
    requires count { links.now.sets ≡ count }
    requires set { set ≤ count }
    ensures { OnTrue result (CanClose links.now set) }
{
    for index in 0..count {
        let Some(other) = SetNo::new(index + 1) else {
            return false;
        };
        if !can_close_both(links, set, other) {
            return false;
        }
    }
    true
}

/// Makes ready that a set goes down. A set doesn't where the epochs of a connection are spent.
pub(crate) fn reserve_going_down(state: &mut State, set: SetNo) -> Result<(), NoMemory>
    requires set { machine.has_set (plain state.old) set ≡ true }
    requires sound { IsSound state.old }
    ensures ready { OnOk result (IsDownReady state.new set) }
    ensures rest { state.new ≡ record state.old { operators = state.new.operators } }
    ensures same { plain state.new ≡ plain state.old }
    ensures sound { IsSound state.new }
{
    let count = state.config.sets.len() as u8;
    if !can_close(&state.links, set, count) {
        return Err(NoMemory);
    }
    reserve_answers(state)
}

/// A set is down, and what it didn't keep in its journal is gone.
fn clear(tables: &mut SetTables, alloc: Global)
    ensures { IsCleared tables.old tables.new }
{
    tables.is_up = false;
    tables.refs.clear();
    tables.transfers.clear();
    tables.hauls = 0;
    tables.asks = Asks::new(alloc);
}

/// The same, in the state.
fn clear_tables(state: &mut State, set: SetNo)
    requires set { machine.has_set (plain state.old) set ≡ true }
    requires sized { IsSized state.old }
    ensures cleared { plain state.new ≡ without_tables (plain state.old) set }
    ensures forgets { ForgetsAt state.old state.new set }
    ensures sized { IsSized state.new }
    ensures operators { state.new.operators ≡ state.old.operators }
    ensures links { state.new.links ≡ state.old.links }
{
    let alloc = *state.sets.allocator();
    let tables = &mut state.sets[usize::from(set.get()) - 1];
    clear(tables, alloc);
}

/// Whether a call of this stage is at its set.
fn is_at_set(stage: Stage) -> bool
    ensures { result ≡ progress.is_at_set stage }
{
    matches!(
        stage,
        Stage::Posted | Stage::Running | Stage::Acted | Stage::Ended
    )
}

/// Whether a call is at this set.
fn is_at(call: &CallState, set: SetNo) -> bool
    ensures { result ≡ (progress.is_at_set (means call.now).stage && machine.is_set (means call.now).set set) }
{
    is_at_set(call.stage()) && call.set() == Some(set)
}

/// A client's call is lost where it is at the set.
fn lose(tables: &mut ClientTables, set: SetNo)
    ensures { client tables.new ≡ lost_at set (client tables.old) }
{
    if is_at(&tables.present, set) {
        tables.present.lose();
    }
}

/// All calls at a set are lost.
fn lose_calls(state: &mut State, set: SetNo)
    requires { IsSized state.old }
    ensures lost { plain state.new ≡ without_calls (plain state.old) set }
    ensures sized { IsSized state.new }
    ensures sets { state.new.sets ≡ state.old.sets }
    ensures operators { state.new.operators ≡ state.old.operators }
    ensures links { state.new.links ≡ state.old.links }
{
    for index in 0..state.clients.len() {
        let tables = &mut state.clients[index];
        lose(tables, set);
    }
}

/// Whether an operator's command is moving a bucket from a set.
fn is_moving_from(tables: &OperatorTables, set: SetNo) -> bool
    ensures { result ≡ moves_from set (operator tables.now) }
{
    match tables.next_command() {
        Some(Command::Send(_, from, _)) => tables.moving && *from == set,
        _ => false,
    }
}

/// An operator's command is answered where it is moving a bucket from the set.
fn stop_move(tables: &mut OperatorTables, set: SetNo)
    requires { 1 ≤ tables.old.outcomes.room }
    ensures stopped { operator tables.new ≡ stopped_move set (operator tables.old) }
    ensures idle { moves_from set (operator tables.old) ≡ false → tables.new ≡ tables.old }
{
    if is_moving_from(tables, set) {
        answer_next(tables, CommandOutcome::Aborted(AbortCause::Stopped));
    }
}

/// All commands that are moving a bucket from a set are answered.
fn stop_moves(state: &mut State, set: SetNo)
    requires sized { IsSized state.old }
    requires answers { (o : ℕ) → HasAnswerRoom state.old o }
    ensures stopped { plain state.new ≡ without_moves (plain state.old) set }
    ensures idle { (o : ℕ) → moves_from set ((plain state.old).operator o) ≡ false
        → numbered Some None state.new.operators.items o ≡ numbered Some None state.old.operators.items o }
    ensures sized { IsSized state.new }
    ensures sets { state.new.sets ≡ state.old.sets }
    ensures links { state.new.links ≡ state.old.links }
{
    for index in 0..state.operators.len() {
        let tables = &mut state.operators[index];
        stop_move(tables, set);
    }
}

/// Closes both connections between two sets. A set has none to itself.
fn close_both(links: &mut Links, set: SetNo, other: SetNo)
    requires from { set ≤ links.old.sets }
    requires to { other ≤ links.old.sets }
    requires epochs { set ≢ other → CanCloseBoth links.old set other }
    ensures sets { links.new.sets ≡ links.old.sets }
    ensures closed { (p q : ℕ) → p ≢ q → connection_of links.new p q ≡
        (if is_between set other p q then closed (connection_of links.old p q) else connection_of links.old p q) }
{
    if set == other {
        return;
    }
    links.close(set, other);
    links.close(other, set);
}

/// Closes each connection from a set and to it, among so many sets.
fn close_all(links: &mut Links, set: SetNo, count: u8)
    requires count { links.old.sets ≡ count }
    requires few { count ≤ 32 }
    requires set { set ≤ count }
    requires epochs { CanClose links.old set }
    ensures sets { links.new.sets ≡ links.old.sets }
    ensures closed { (p q : ℕ) → p ≢ q → connection_of links.new p q ≡
        (if is_set count p && is_set count q then closed_at set p q (connection_of links.old p q) else unused) }
{
    for index in 0..count {
        let Some(other) = SetNo::new(index + 1) else {
            return;
        };
        close_both(links, set, other);
    }
}

/// The same, in the state.
fn close_connections(state: &mut State, set: SetNo)
    requires set { machine.has_set (plain state.old) set ≡ true }
    requires sized { IsSized state.old }
    requires epochs { CanClose state.old.links set }
    ensures closed { plain state.new ≡ without_lines (plain state.old) set }
    ensures sized { IsSized state.new }
    ensures sets { state.new.sets ≡ state.old.sets }
    ensures operators { state.new.operators ≡ state.old.operators }
{
    let count = state.config.sets.len() as u8;
    close_all(&mut state.links, set, count);
}

/// A set goes down. An operator whose command moves no bucket from there keeps the room for its answer.
pub(crate) fn go_down(state: &mut State, set: SetNo)
    requires set { machine.has_set (plain state.old) set ≡ true }
    requires sound { IsSound state.old }
    requires ready { IsDownReady state.old set }
    ensures down { plain state.new ≡ gone_down (plain state.old) set }
    ensures idle { (o : ℕ) → moves_from set ((plain state.old).operator o) ≡ false → HasAnswerRoom state.new o }
    ensures sound { IsSound state.new }
{
    clear_tables(state, set);
    lose_calls(state, set);
    stop_moves(state, set);
    close_connections(state, set);
}
