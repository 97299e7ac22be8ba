//! The report of a cluster in which a bucket was sent from set 1 to set 2.

ghost use Rattle.std.specs.Prelude.{◌≡◌, ◌≢◌, ℕ, None, true, [], ◌∷◌, length, map, IfOk};
ghost use Rattle.vs_space.specs.declared.status.Status.TheVariants as status;
ghost use Rattle.vs_machine.specs.State as machine;
ghost use Rattle.vs_state.specs.Plain.{plain};
ghost use Rattle.vs_state.specs.Sized.{IsSized};

use crate::config;
use std::alloc::Global;
use std::process::Abort;
use std::test::Fail;
use vs_base::{BucketId, CallId, ClientNo, Items, NoMemory, SetNo};
use vs_calls::{CallState, Outcome};
use vs_history::History;
use vs_link::Links;
use vs_machine::{CommandFault, CommandOutcome};
use vs_record::RowTable;
use vs_recover::Asks;
use vs_refs::Refs;
use vs_report::report;
use vs_rows::{Answer, Answers, Key, Op, Ops, Rows, Val};
use vs_send::AbortCause;
use vs_space::{RecvFault, Space, Status};
use vs_state::{ClientTables, CommandOutcomes, OperatorTables, SetTables, State};
use vs_table::Table;

const REPORT: &str =
    "cluster 2 4\nset 1 up 2 0 0 0 1 0\nset 2 down 2 0 0 0 0 0\nbucket 1 1 active\nbucket 2 1 active\nbucket 3 1 sent 2 2 active\nbucket 4 2 active\nhistory 3 1 1 1\nrow b 0\nwrite 1 1 1 put a 1 ; count => done ; number 2\nread 1 2 1 get a => value 1\ncall 1 1 reply 1 done ; number 2\ncall 1 2 lost\ncall 1 3 open\ncall 2 1 reply 1 value 1\ncommand 1 1 moved\ncommand 1 2 refused status garbage\ncommand 1 3 aborted receiving 100\ncommand 1 4 open\nend\n";

/// Buckets 1 and 2 are active, and 3 was sent to set 2.
fn sender<R: Abort>(rt: &R, alloc: Global) -> Result<Space, NoMemory>
    ensures { IfOk result (λ s. s.entries
        ≡ (1, status.Active) ∷ (2, status.Active) ∷ (3, status.Sent 2) ∷ []) }
{
    let two = SetNo::new(2).expect(rt, "2 is a set");
    let three = BucketId::new(3).expect(rt, "3 is a bucket");
    let mut space = Space::booted(alloc, 1, 3)?;
    space
        .change(three, Some(Status::Sending(two)))
        .expect(rt, "3 is being sent");
    space
        .change(three, Some(Status::Sent(two)))
        .expect(rt, "3 was sent");
    Ok(space)
}

/// Buckets 3 and 4 are active.
fn receiver<R: Abort>(rt: &R, alloc: Global) -> Result<Space, NoMemory>
    ensures { IfOk result (λ s. s.entries ≡ (3, status.Active) ∷ (4, status.Active) ∷ []) }
{
    let one = SetNo::new(1).expect(rt, "1 is a set");
    let three = BucketId::new(3).expect(rt, "3 is a bucket");
    let mut space = Space::booted(alloc, 4, 1)?;
    space.reserve()?;
    space
        .change(three, Some(Status::Receiving(one)))
        .expect(rt, "3 is being received");
    space
        .change(three, Some(Status::Active))
        .expect(rt, "3 is active");
    Ok(space)
}

fn set(alloc: Global, is_up: bool, space: Space) -> SetTables
    ensures { result.space.entries ≡ space.entries }
{
    SetTables {
        is_up,
        space,
        rows: RowTable::new(alloc),
        kept: Table::new(alloc),
        refs: Refs::new(alloc),
        transfers: Table::new(alloc),
        hauls: 0,
        asks: Asks::new(alloc),
        last_fault: 0,
        pending: None,
    }
}

fn sets<R: Abort>(rt: &R, alloc: Global) -> Result<Vec<SetTables>, NoMemory>
    ensures { IfOk result (λ sets. map (λ t. t.space.entries) sets.items
        ≡ ((1, status.Active) ∷ (2, status.Active) ∷ (3, status.Sent 2) ∷ [])
        ∷ ((3, status.Active) ∷ (4, status.Active) ∷ []) ∷ []) }
{
    let mut sets = Vec::new(alloc);
    sets.push(set(alloc, true, sender(rt, alloc)?))?;
    sets.push(set(alloc, false, receiver(rt, alloc)?))?;
    Ok(sets)
}

fn put(alloc: Global, key: &str, value: &str) -> Result<Op, Fail> {
    let key = Key::new(alloc, key.as_bytes())?;
    let value = Val::new(alloc, value.as_bytes())?;
    Ok(Op::Put(key, value))
}

/// What `put a 1 ; count` was answered.
fn written(alloc: Global) -> Result<Answers, NoMemory> {
    let mut answers = Items::new(alloc);
    answers.reserve_many(2)?;
    answers.push(Answer::Done);
    answers.push(Answer::Number(2));
    Ok(answers)
}

/// What `get a` was answered.
fn read(alloc: Global) -> Result<Answers, Fail> {
    let mut answers = Items::new(alloc);
    answers.reserve()?;
    answers.push(Answer::Value(Val::new(alloc, b"1")?));
    Ok(answers)
}

/// A history of a write and a read.
fn used<R: Abort>(rt: &R, alloc: Global) -> Result<History, Fail> {
    let one = ClientNo::new(1).expect(rt, "1 is a client");
    let two = ClientNo::new(2).expect(rt, "2 is a client");
    let mut rows = Rows::new(alloc);
    rows.apply(&Ops::one(alloc, put(alloc, "b", "0")?)?)?;
    let mut history = History::new(alloc, rows);
    history.reserve()?;
    let mut ops = Ops::one(alloc, put(alloc, "a", "1")?)?;
    ops.reserve()?;
    ops.push(Op::Count);
    let id = CallId {
        client: one,
        call: 1,
    };
    history.place_write(id, ops, written(alloc)?);
    let ops = Ops::one(alloc, Op::Get(Key::new(alloc, b"a")?))?;
    let id = CallId {
        client: two,
        call: 1,
    };
    history.place_read(id, ops, read(alloc)?, 1);
    Ok(history)
}

fn histories<R: Abort>(rt: &R, alloc: Global) -> Result<Vec<History>, Fail>
    ensures { IfOk result (λ histories. length histories.items ≡ 4) }
{
    let mut histories = Vec::new(alloc);
    histories.push(History::new(alloc, Rows::new(alloc)))?;
    histories.push(History::new(alloc, Rows::new(alloc)))?;
    histories.push(used(rt, alloc)?)?;
    histories.push(History::new(alloc, Rows::new(alloc)))?;
    Ok(histories)
}

/// The first client waits for its third call. The second has the answer of its only one.
fn clients<R: Abort>(rt: &R, alloc: Global) -> Result<Vec<ClientTables>, Fail>
    ensures { IfOk result (λ clients. length clients.items ≡ 2) }
{
    let one = SetNo::new(1).expect(rt, "1 is a set");
    let mut outcomes = Items::new(alloc);
    outcomes.reserve_many(2)?;
    outcomes.push(Outcome::Reply(1, written(alloc)?));
    outcomes.push(Outcome::Lost);
    let mut present = CallState::new();
    present.post(one, 0);
    let mut clients = Vec::new(alloc);
    clients.push(ClientTables {
        script: Items::new(alloc),
        outcomes,
        present,
    })?;
    let mut outcomes = Items::new(alloc);
    outcomes.reserve()?;
    outcomes.push(Outcome::Reply(1, read(alloc)?));
    clients.push(ClientTables {
        script: Items::new(alloc),
        outcomes,
        present: CallState::new(),
    })?;
    Ok(clients)
}

/// A bucket was moved, one can't be moved, and one was refused by its receiver.
fn told(alloc: Global) -> Result<CommandOutcomes, NoMemory> {
    let wrong = CommandFault::WrongStatus(Some(Status::Garbage));
    let full = AbortCause::Receiver(RecvFault::TooManyReceiving(100));
    let mut outcomes = Items::new(alloc);
    outcomes.reserve_many(3)?;
    outcomes.push(CommandOutcome::Moved);
    outcomes.push(CommandOutcome::Refused(wrong));
    outcomes.push(CommandOutcome::Aborted(full));
    Ok(outcomes)
}

/// The operator moves a bucket.
fn operator(alloc: Global) -> Result<OperatorTables, NoMemory> {
    Ok(OperatorTables {
        script: Items::new(alloc),
        outcomes: told(alloc)?,
        moving: true,
        rounds: 0,
        routes: Items::new(alloc),
        moved: 0,
    })
}

fn operators(alloc: Global) -> Result<Vec<OperatorTables>, NoMemory>
    ensures { IfOk result (λ operators. length operators.items ≡ 1) }
{
    let mut operators = Vec::new(alloc);
    operators.push(operator(alloc)?)?;
    Ok(operators)
}

fn state<R: Abort>(rt: &R, alloc: Global) -> Result<State, Fail>
    ensures sized { IfOk result IsSized }
    ensures within { IfOk result (λ s. (b x : ℕ) → ((plain s).bucket b).entry x ≢ None
        → machine.has_bucket (plain s) b ≡ true) }
{
    Ok(State {
        config: config(alloc)?,
        sets: sets(rt, alloc)?,
        links: Links::new(alloc, 2)?,
        clients: clients(rt, alloc)?,
        operators: operators(alloc)?,
        histories: histories(rt, alloc)?,
    })
}

#[test]
fn moved_bucket(rt: HostRuntime) -> Result<(), Fail> {
    let alloc = rt.alloc();
    let state = state(&rt, alloc)?;
    let text = report(alloc, &state)?;
    assert_eq!(rt; text.as_slice(), REPORT.as_bytes());
    Ok(())
}
