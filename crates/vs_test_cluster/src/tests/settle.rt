//! A bucket whose transfer was given up half way.

ghost use Rattle.std.specs.Prelude.{◌≡◌, [], ◌∷◌, length, map, IfOk};
ghost use Rattle.vs_script.specs.declared.command.Command.TheVariants as command;

use crate::{config, plain_disks};
use std::alloc::Global;
use std::marker::Brand;
use std::process::Abort;
use std::sync::ledger::{Blank, Ledger};
use std::test::Fail;
use vs_base::{BucketId, NoMemory, OpNo, SetNo};
use vs_disk::PlainDisk;
use vs_event::Event;
use vs_script::{ClientCalls, Command, Commands, OperatorCommands, Scripts};
use vs_settle::{Steps, settle};
use vs_space::Status;
use vs_survey::{finished, settled};
use vs_world::World;

fn commands(alloc: Global, command: Command) -> Result<Commands, NoMemory>
    ensures { IfOk result (λ c. c.items ≡ command ∷ []) }
{
    let mut commands = Commands::new(alloc);
    commands.reserve()?;
    commands.push(command);
    Ok(commands)
}

/// An operator sends bucket 3 from set 1 to set 2, and another closes the connection.
fn scripts<R: Abort>(rt: &R, alloc: Global) -> Result<Scripts, NoMemory>
    ensures clients { IfOk result (λ s. s.clients.items ≡ []) }
    ensures operators { IfOk result (λ s. map (λ c. c.items) s.operators.items
        ≡ (command.Send 3 1 2 ∷ []) ∷ (command.Close 1 2 ∷ []) ∷ []) }
{
    let one = SetNo::new(1).expect(rt, "1 is a set");
    let two = SetNo::new(2).expect(rt, "2 is a set");
    let three = BucketId::new(3).expect(rt, "3 is a bucket");
    let mut operators = OperatorCommands::new(alloc);
    operators.reserve_many(2)?;
    operators.push(commands(alloc, Command::Send(three, one, two))?);
    operators.push(commands(alloc, Command::Close(one, two))?);
    Ok(Scripts {
        clients: ClientCalls::new(alloc),
        operators,
    })
}

/// Whether all these events can happen.
fn play(world: &mut World<PlainDisk>, events: &[Event]) -> bool {
    for event in events {
        if world.step(*event).is_err() {
            return false;
        }
    }
    true
}

/// Settles a cluster, counts its ticks in a new ledger, and reads them: each is an event more on the list.
fn settle_counted<R: Abort, L: Ledger>(
    rt: &R,
    world: &mut World<PlainDisk>,
    blank: Blank,
) -> Result<u64, NoMemory>
    requires name { blank.name ≡ L.name }
    requires parts { blank.parts ≡ L.parts }
    requires some { blank.parts ≡ 1 }
{
    if !finished(world.core()) {
        panic!(rt; "not all is answered");
    }
    let before = world.trace().len();
    let mut steps = Steps::<L>::new(blank);
    match settle(world, &mut steps) {
        Ok(()) => Ok(world.trace().len() - before),
        Err(_) => Err(NoMemory),
    }
}

/// A cluster in which a transfer of bucket 3 was given up half way.
fn interrupted<R: Abort>(rt: &R, alloc: Global) -> Result<World<PlainDisk>, Fail> {
    let one = SetNo::new(1).expect(rt, "1 is a set");
    let two = SetNo::new(2).expect(rt, "2 is a set");
    let three = BucketId::new(3).expect(rt, "3 is a bucket");
    let sender = OpNo::new(1).expect(rt, "1 is an operator");
    let closer = OpNo::new(2).expect(rt, "2 is an operator");
    let scripts = scripts(rt, alloc)?;
    let opened = World::open(alloc, config(alloc)?, scripts, plain_disks(alloc)?, 1 << 30);
    let Ok(mut world) = opened else {
        return Err(NoMemory.into());
    };
    let events = [
        Event::Start(sender),
        Event::Freeze(one, three),
        Event::Chunk(one, three),
        Event::Deliver(one, two),
        Event::Close(closer),
        Event::Abort(one, three),
    ];
    assert!(rt; play(&mut world, &events), "each event can happen");
    Ok(world)
}

/// What the two sets have of bucket 3.
fn entries<R: Abort>(rt: &R, world: &World<PlainDisk>) -> [Option<Status>; 2] {
    let one = SetNo::new(1).expect(rt, "1 is a set");
    let two = SetNo::new(2).expect(rt, "2 is a set");
    let three = BucketId::new(3).expect(rt, "3 is a bucket");
    let state = world.core().state();
    [state.entry(one, three), state.entry(two, three)]
}

/// What settling may take here: an event for each set and five for each of the two entries that are neither active nor pinned,
/// since no message is under way and there are no rows.
const BOUND: u64 = 2 + 5 * 2;

#[test]
fn settles_a_bucket_on_its_way(rt: HostRuntime) -> Result<(), Fail> {
    let one = SetNo::new(1).expect(&rt, "1 is a set");
    let two = SetNo::new(2).expect(&rt, "2 is a set");
    let mut world = interrupted(&rt, rt.alloc())?;
    assert!(rt; entries(&rt, &world) == [Some(Status::Sending(two)), Some(Status::Receiving(one))]);
    let ticks = settle_counted::<HostRuntime, Brand>(&rt, &mut world, Blank::new(1))?;
    // set 2 asks and throws the bucket away, set 1 asks and has it again, and set 2 forgets it
    assert!(rt; 0 < ticks && ticks <= BOUND, "{ticks} ticks");
    assert!(rt; entries(&rt, &world) == [Some(Status::Active), None]);
    assert!(rt; settled(world.core()), "settled");
    Ok(())
}
