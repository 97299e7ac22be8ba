//! What the actors of two sets do while a bucket is moved.

ghost use Rattle.std.specs.Prelude.{◌≡◌, Ok};
ghost use Rattle.vs_machine.specs.Step.{step};
ghost use Rattle.vs_state.specs.Guard.{verdict};
ghost use Rattle.vs_core.specs.Core.{means};

use crate::new_core;
use std::alloc::Global;
use std::process::Abort;
use std::test::Fail;
use vs_base::{BucketId, ClientNo, NoMemory, OpNo, SetNo};
use vs_choose::{next_client, next_mover, next_operator, next_service};
use vs_config::read_config;
use vs_core::Core;
use vs_event::{Event, Trace, read_events, write_events};
use vs_script::{gather, read_script};

// Buckets 1 and 2 are at set 1, buckets 3 and 4 at set 2.
const CONFIG: &str =
    "bucket_count = 4\n[[set]]\nuuid = \"00000000-0000-4000-8000-000000000001\"\n[[set]]\nuuid = \"00000000-0000-4000-8000-000000000002\"\n";

// An operator that moves bucket 1, one that stops set 1, and a client that writes to bucket 1.
const MOVES: &[u8] = b"operator\nsend 1 1 2\n";

const STOPS: &[u8] = b"operator\nstop 1\n";

const WRITES: &[u8] = b"client\nrw 1 put a 1\n";

/// A cluster of two sets, with these two scripts.
fn boot(alloc: Global, first: &[u8], second: &[u8]) -> Result<Core, Fail> {
    let config = read_config(alloc, CONFIG.as_bytes())?;
    let first = read_script(alloc, first, &config)?;
    let second = read_script(alloc, second, &config)?;
    let mut given = Vec::new(alloc);
    given.push(first)?;
    given.push(second)?;
    let scripts = gather(alloc, given)?;
    Ok(new_core(alloc, &config, scripts)?)
}

/// Carries out an event that can happen.
fn carry_out(core: &mut Core, event: &Event) -> Result<(), NoMemory>
    requires { verdict (step (means core.old) event.now) ≡ Ok tt }
{
    core.reserve_for(event)?;
    core.apply(event);
    Ok(())
}

/// The same, of an event of which that isn't known.
fn step<R: Abort>(rt: &R, core: &mut Core, event: &Event) -> Result<(), Fail> {
    let Ok(()) = core.can(event) else {
        panic!(rt; "the event can't happen");
    };
    Ok(carry_out(core, event)?)
}

/// What an actor chose happens, where there is anything, and is added to the list.
fn act<R: Abort>(
    rt: &R,
    core: &mut Core,
    chosen: Option<Event>,
    done: &mut Trace,
) -> Result<bool, Fail> {
    let Some(event) = chosen else {
        return Ok(false);
    };
    step(rt, core, &event)?;
    done.reserve()?;
    done.push(event);
    Ok(true)
}

/// The service of each set does one thing, where it can. Whether one of them did.
fn turn<R: Abort>(rt: &R, core: &mut Core, done: &mut Trace) -> Result<bool, Fail> {
    let mut acted = false;
    for number in 1..3 {
        let set = SetNo::new(number).expect(rt, "a set");
        let chosen = next_service(core, set);
        acted |= act(rt, core, chosen, done)?;
    }
    Ok(acted)
}

/// The services act in turn, for as long as one of them can.
fn serve<R: Abort>(rt: &R, core: &mut Core, done: &mut Trace) -> Result<(), Fail> {
    for _ in 0..10 {
        if !turn(rt, core, done)? {
            break;
        }
    }
    Ok(())
}

/// Each event happens, and after it the services do what they can.
fn play<R: Abort>(rt: &R, core: &mut Core, events: &Trace, done: &mut Trace) -> Result<(), Fail> {
    for event in events.as_slice() {
        step(rt, core, event)?;
        serve(rt, core, done)?;
    }
    Ok(())
}

/// Each event of the text happens, and after it the services do what they can. This is the text of what they did.
fn served<R: Abort>(rt: &R, alloc: Global, events: &[u8]) -> Result<Vec<u8>, Fail> {
    let events = read_events(alloc, events)?;
    let mut done = Trace::new(alloc);
    let mut core = boot(alloc, MOVES, STOPS)?;
    play(rt, &mut core, &events, &mut done)?;
    Ok(write_events(alloc, &done)?)
}

// Set 2 doesn't ask about the bucket that it receives while set 1 moves it.
#[test]
fn carries_a_move(rt: HostRuntime) -> Result<(), Fail> {
    let events = b"start 1\nfreeze 1 1\nchunk 1 1\nseal 1 1\nlast 1 1\nendmove 1 1\n";
    let done = served(&rt, rt.alloc(), events)?;
    let want: &[u8] = b"deliver 1 2\nhear 1 2\ndeliver 1 2\nhear 1 2\ncondemn 1 1\nforget 1 1\n";
    assert_eq!(rt; done.as_slice(), want);
    Ok(())
}

// The move is interrupted, and the bucket is back at set 1.
#[test]
fn settles_an_interrupted_move(rt: HostRuntime) -> Result<(), Fail> {
    let events = b"start 1\nfreeze 1 1\nchunk 1 1\nstop 2\n";
    let done = served(&rt, rt.alloc(), events)?;
    let want: &[u8] =
        b"deliver 1 2\nhear 1 2\nrestart 1 bare service\nask 2 1\ndeliver 2 1\nhear 2 1\nask 1 1\ndeliver 1 2\nhear 1 2\nforget 2 1\n";
    assert_eq!(rt; done.as_slice(), want);
    Ok(())
}

/// The set that the client posts its call on bucket 1 to: the lowest that reads it, else set 1.
fn post_to<R: Abort>(rt: &R, core: &Core) -> SetNo {
    let bucket = BucketId::new(1).expect(rt, "a bucket");
    for number in 1..3 {
        let set = SetNo::new(number).expect(rt, "a set");
        if core.state().serves(set, bucket) {
            return set;
        }
    }
    SetNo::new(1).expect(rt, "a set")
}

/// The client, the operator and the movers do one thing each, where they can. Whether one of them did.
fn move_on<R: Abort>(rt: &R, core: &mut Core, done: &mut Trace) -> Result<bool, Fail> {
    let client = ClientNo::new(1).expect(rt, "a client");
    let operator = OpNo::new(1).expect(rt, "an operator");
    let chosen = next_client(core, client, Some(post_to(rt, core)));
    let mut acted = act(rt, core, chosen, done)?;
    let chosen = next_operator(core, operator);
    acted |= act(rt, core, chosen, done)?;
    for number in 1..3 {
        let chosen = next_mover(core, SetNo::new(number).expect(rt, "a set"));
        acted |= act(rt, core, chosen, done)?;
    }
    Ok(acted)
}

// A write is refused while its bucket is moved, and is done where it came to.
#[test]
fn runs_by_itself(rt: HostRuntime) -> Result<(), Fail> {
    let mut core = boot(rt.alloc(), WRITES, MOVES)?;
    let mut done = Trace::new(rt.alloc());
    for _ in 0..20 {
        let moved = move_on(&rt, &mut core, &mut done)?;
        if !turn(&rt, &mut core, &mut done)? && !moved {
            break;
        }
    }
    let done = write_events(rt.alloc(), &done)?;
    let want: &[u8] =
        b"post 1 1\nstart 1\nfreeze 1 1\nbegin 1\nchunk 1 1\ndeliver 1 2\npost 1 1\nhear 1 2\nbegin 1\nseal 1 1\npost 1 1\nlast 1 1\ndeliver 1 2\nbegin 1\nhear 1 2\npost 1 2\nendmove 1 1\ncondemn 1 1\nbegin 1\nforget 1 1\nact 1\nend 1\ntake 1\n";
    assert_eq!(rt; done.as_slice(), want);
    Ok(())
}
