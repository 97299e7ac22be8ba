//! A worker takes jobs until it finds the queue empty.

ghost use Rattle.std.specs.Prelude.{◌≡◌, ◌≤◌, ◌<◌, ◌^◌, ◌+◌, ◌-◌, [], min, All, Contains, None, IfOk, length, map};
ghost use Rattle.crossbeam_queue.specs.Passes.{view, IsPassOf};
ghost use Rattle.vs_pool.specs.Rule.{hand};
ghost use Rattle.vs_pool.specs.Results.{IsWithin, IsDone, place_of};

use crate::job::{Job, JobResult};
use crate::queue::{PlaceQueue, Takes, Ticket};
use crate::serve::serve_one;
use std::alloc::Global;
use std::sync::Wait;
use vs_base::NoMemory;
use vs_gate::Gate;
use vs_rows::Rows;
use vs_words::{Pass, RefWords};

/// A place among the jobs, and what came of the job there.
pub type Done = (usize, JobResult);

/// A worker before it begins: its ticket at the queue, its pass, and its number at the gate.
#[derive(Drop)]
pub struct Worker {
    pub ticket: Ticket,
    pub pass: Pass,
    pub who: u32,
    // So a worker that is dropped for want of memory leaves no reference behind.
    ghost free: { pass.held ≡ None },
}

/// A worker at its end.
#[derive(Drop)]
pub struct Worked {
    pub ticket: Ticket,
    pub pass: Pass,
    pub done: Result<Vec<Done>, NoMemory>,
    // So does one that has worked.
    ghost free: { pass.held ≡ None },
}

// The number of a job at the gate: its place from 1, and the greatest number past that.
fn number_of(place: usize) -> u32
    ensures { result ≡ min (place + 1) (2 ^ 32 - 1) }
{
    u32::try_from(place).unwrap_or(u32::MAX).saturating_add(1)
}

/// One worker's turn: jobs until the queue is empty, or until there is no memory.
pub fn work<R: Wait, G: Gate>(
    rt: &R,
    alloc: Global,
    queue: &PlaceQueue,
    maps: &[Rows],
    jobs: &[Job],
    words: &RefWords,
    gate: &G,
    worker: Worker,
) -> Worked
    requires ticket { IsPassOf queue.now worker.ticket × (view worker.ticket ≡ hand 1 (length jobs.now) [] []) }
    requires pass { (worker.pass.of ≡ words.now) × (worker.pass.held ≡ None) }
    requires jobs { All (IsWithin (length maps.now) words.now.words) jobs.now }
    ensures ticket { IsPassOf queue.now result.ticket }
    ensures pass { (result.pass.of ≡ words.now) × (result.pass.held ≡ None) }
    ensures taken { IfOk result.done (λ done. view result.ticket ≡ hand 1 (length jobs.now) [] (map place_of done.items)) }
    ensures done { IfOk result.done (λ done. All (IsDone maps.now jobs.now (Contains result.pass.seen)) done.items) }
{
    let Worker {
        mut ticket,
        mut pass,
        who,
    } = worker;
    let mut done: Vec<Done> = Vec::new(alloc);
    for _ in rt.forever() {
        if done.try_reserve(1).is_err() {
            return Worked {
                ticket,
                pass,
                done: Err(NoMemory),
            };
        }
        let Some(place) = queue.pop_as::<Takes, R>(rt, &mut ticket) else {
            break;
        };
        gate.pass(who, number_of(place), 0);
        match serve_one(maps, jobs, place, words, &mut pass) {
            Ok(result) => done.push_reserved((place, result)),
            Err(_) => {
                return Worked {
                    ticket,
                    pass,
                    done: Err(NoMemory),
                };
            }
        }
    }
    Worked {
        ticket,
        pass,
        done: Ok(done),
    }
}
