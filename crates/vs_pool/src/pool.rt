//! The pool: as many workers as there are passes take jobs from one queue.

ghost use Rattle.std.specs.Prelude.{◌≡◌, ◌≤◌, ◌<◌, ◌-◌, ◌+◌, ◌^◌, ◌++◌, ◌∷◌, [], ℕ, All, Any, Contains, None, Some, IfOk, MatchResult, length, map, slice_get, vec_len};
ghost use Rattle.crossbeam_queue.specs.Passes.{view, IsPassOf};
ghost use Rattle.vs_words.specs.Standing.{Standing};
ghost use Rattle.vs_pool.specs.Rule.{hand, weigh};
ghost use Rattle.vs_pool.specs.declared.job.JobResult.{JobResult};
ghost use Rattle.vs_pool.specs.Results.{IsWithin, IsDone, IsFree, HasSeen, AmongSeen, place_of, places};

use crate::arrange::arrange;
use crate::job::{Job, JobResult, Jobs, Results, RowTable2};
use crate::queue::{Ends, Parts, PlaceQueue, Puts, Ticket};
use crate::serve::serve_one;
use crate::worker::{Done, Worked, Worker, work};
use std::alloc::{AllocError, Global};
use std::sync::Wait;
use std::thread;
use std::thread::Threads;
use vs_base::NoMemory;
use vs_gate::Gate;
use vs_rows::Rows;
use vs_words::{Pass, RefWords};

// Puts the place of each job.
fn put_all<R: Wait>(rt: &R, queue: &PlaceQueue, mut ticket: Ticket, jobs: usize) -> Ticket
    requires { IsPassOf queue.now ticket × (view ticket ≡ hand 64 0 [] []) }
    ensures { IsPassOf queue.now result × (view result ≡ hand 64 jobs (places jobs) []) }
{
    let mut next = 0;
    for _ in rt.forever() {
        if next >= jobs {
            break;
        }
        match queue.try_push_as::<Puts>(&mut ticket, next) {
            Ok(()) => next += 1,
            Err(_) => thread::yield_now(),
        }
    }
    ticket
}

// A worker for each pass.
fn make_workers(
    alloc: Global,
    queue: &PlaceQueue,
    ticket: &mut Ticket,
    words: &RefWords,
    mut passes: Vec<Pass>,
) -> Result<Vec<Worker>, NoMemory>
    requires ticket { IsPassOf queue.now ticket.old × (vec_len passes < (view ticket.old).parts) }
    requires few { vec_len passes ≤ 16 }
    requires passes { All (IsFree words.now) passes.items }
    ensures ticket { IsPassOf queue.now ticket.new }
    ensures left { IfOk result (λ v. view ticket.new ≡ hand ((view ticket.old).parts - vec_len passes) (view ticket.old).limit (view ticket.old).put (view ticket.old).taken) }
    ensures len { IfOk result (λ v. vec_len v ≡ vec_len passes) }
    ensures all { IfOk result (λ v. All (λ w. IsPassOf queue.now w.ticket × (view w.ticket ≡ hand 1 (view ticket.old).limit [] []) × IsFree words.now w.pass) v.items) }
{
    let mut workers: Vec<Worker> = Vec::new(alloc);
    while let Some(pass) = passes.pop() {
        let who = 401 + passes.len() as u32;
        workers.try_reserve(1)?;
        let theirs = queue.another::<Parts>(ticket);
        workers.push_reserved(Worker {
            ticket: theirs,
            pass,
            who,
        });
    }
    Ok(workers)
}

// All workers, each in a thread of its own.
fn work_all<R: Threads + Wait + Sync, G: Gate + Sync>(
    rt: &R,
    alloc: Global,
    queue: &PlaceQueue,
    maps: &[Rows],
    jobs: &[Job],
    words: &RefWords,
    gate: &G,
    workers: Vec<Worker>,
) -> Result<Vec<Worked>, AllocError>
    requires workers { All (λ w. IsPassOf queue.now w.ticket × (view w.ticket ≡ hand 1 (length jobs.now) [] []) × IsFree words.now w.pass) workers.items }
    requires jobs { All (IsWithin (length maps.now) words.now.words) jobs.now }
    ensures len { IfOk result (λ v. length v.items ≡ length workers.items) }
    ensures all { IfOk result (λ v. All (λ w. IsPassOf queue.now w.ticket × IsFree words.now w.pass
        × IfOk w.done (λ done. (view w.ticket ≡ hand 1 (length jobs.now) [] (map place_of done.items)) × All (IsDone maps.now jobs.now (Contains w.pass.seen)) done.items)) v.items) }
{
    thread::map_vec(
        rt,
        workers,
        &|worker| -> Worked
            requires { IsPassOf queue.now worker.ticket × (view worker.ticket ≡ hand 1 (length jobs.now) [] []) × IsFree words.now worker.pass
                × All (IsWithin (length maps.now) words.now.words) jobs.now }
            ensures { IsPassOf queue.entry.now result.ticket × IsFree words.entry.now result.pass
                × IfOk result.done (λ done. (view result.ticket ≡ hand 1 (length jobs.entry.now) [] (map place_of done.items)) × All (IsDone maps.entry.now jobs.entry.now (Contains result.pass.seen)) done.items) }
        { work(rt, alloc, queue, maps, jobs, words, gate, worker) },
    )
}

// One worker's pass and what it did are added to the whole.
fn add_one(
    queue: &PlaceQueue,
    ticket: &mut Ticket,
    passes: &mut Vec<Pass>,
    whole: &mut Vec<Done>,
    worked: Worked,
) -> Result<(), NoMemory>
    requires ticket { IsPassOf queue.now ticket.old × (0 < (view ticket.old).parts) × ((view ticket.old).taken ≡ map place_of whole.old.items) }
    requires theirs { IsPassOf queue.now worked.ticket }
    requires taken { IfOk worked.done (λ done. (view worked.ticket).parts ≡ 1) }
    requires put { IfOk worked.done (λ done. (view worked.ticket).put ≡ []) }
    requires places { IfOk worked.done (λ done. (view worked.ticket).taken ≡ map place_of done.items) }
    ensures ticket { IsPassOf queue.now ticket.new }
    ensures parts { IfOk result (λ _. (view ticket.new).parts ≡ (view ticket.old).parts + 1) }
    ensures put { IfOk result (λ _. ((view ticket.new).put ≡ (view ticket.old).put) × ((view ticket.new).limit ≡ (view ticket.old).limit)) }
    ensures taken { IfOk result (λ _. (view ticket.new).taken ≡ map place_of whole.new.items) }
    ensures passes { IfOk result (λ _. passes.new.items ≡ passes.old.items ++ worked.pass ∷ []) }
    ensures whole { IfOk result (λ _. MatchResult worked.done (λ done. whole.new.items ≡ whole.old.items ++ done.items) (λ _. ⊥)) }
{
    let Worked {
        ticket: theirs,
        pass,
        done,
    } = worked;
    let mut done = done?;
    queue.absorb::<Parts>(ticket, theirs);
    passes.push(pass)?;
    whole.append(&mut done)?;
    Ok(())
}

// What all workers left.
#[derive(Drop)]
struct Gathered {
    ticket: Ticket,
    passes: Vec<Pass>,
    whole: Vec<Done>,
}

// All workers' passes and what they did. What the jobs and their rows are is for the clauses.
fn add_all(
    alloc: Global,
    queue: &PlaceQueue,
    maps: &[Rows],
    jobs: &[Job],
    words: &RefWords,
    mut ticket: Ticket,
    mut all: Vec<Worked>,
) -> Result<Gathered, NoMemory>
    requires ticket { IsPassOf queue.now ticket × (0 < (view ticket).parts) × ((view ticket).taken ≡ []) }
    requires all { All (λ w. IsPassOf queue.now w.ticket × IsFree words.now w.pass
        × IfOk w.done (λ done. (view w.ticket ≡ hand 1 (length jobs.now) [] (map place_of done.items)) × All (IsDone maps.now jobs.now (Contains w.pass.seen)) done.items)) all.items }
    ensures ticket { IfOk result (λ r. IsPassOf queue.now r.ticket × ((view r.ticket).parts ≡ (view ticket).parts + vec_len all) × ((view r.ticket).put ≡ (view ticket).put) × ((view r.ticket).limit ≡ (view ticket).limit)) }
    ensures taken { IfOk result (λ r. (view r.ticket).taken ≡ map place_of r.whole.items) }
    ensures passes { IfOk result (λ r. (vec_len r.passes ≡ vec_len all) × All (IsFree words.now) r.passes.items) }
    ensures whole { IfOk result (λ r. All (IsDone maps.now jobs.now (HasSeen r.passes.items)) r.whole.items) }
{
    let mut passes: Vec<Pass> = Vec::new(alloc);
    let mut whole: Vec<Done> = Vec::new(alloc);
    while let Some(worked) = all.pop() {
        add_one(queue, &mut ticket, &mut passes, &mut whole, worked)?;
    }
    Ok(Gathered {
        ticket,
        passes,
        whole,
    })
}

// Serves what is left. With every part, and the queue empty, all that was put was taken.
fn take_rest<R: Wait>(
    rt: &R,
    queue: &PlaceQueue,
    maps: &[Rows],
    jobs: &[Job],
    words: &RefWords,
    others: &[Pass],
    pass: &mut Pass,
    mut ticket: Ticket,
    mut whole: Vec<Done>,
) -> Result<Vec<Done>, NoMemory>
    requires ticket { IsPassOf queue.now ticket × ((view ticket).parts ≡ 64) × ((view ticket).limit ≡ length jobs.now) × ((view ticket).taken ≡ map place_of whole.items) }
    requires pass { IsFree words.now pass.old }
    requires jobs { All (IsWithin (length maps.now) words.now.words) jobs.now }
    requires done { All (IsDone maps.now jobs.now (AmongSeen others.now pass.old)) whole.items }
    ensures pass { IsFree words.now pass.new }
    ensures all { IfOk result (λ all. (h : ℕ → ℕ) → weigh h (view ticket).put ≡ weigh h (map place_of all.items)) }
    ensures done { IfOk result (λ all. All (IsDone maps.now jobs.now (AmongSeen others.now pass.new)) all.items) }
{
    for _ in rt.forever() {
        whole.try_reserve(1)?;
        let Some(place) = queue.pop_as::<Ends, R>(rt, &mut ticket) else {
            break;
        };
        let result = serve_one(maps, jobs, place, words, pass)?;
        whole.push_reserved((place, result));
    }
    Ok(whole)
}

/// Serves all reads by as many workers as there are passes, each in a thread of its own. The word of bucket b is word
/// b - 1.
///
/// A worker passes the gate after it has taken a job from the queue and before it takes the reference: it is 400 plus the
/// place of its pass, from 1, the call is the job's place, from 1, and the stage is 0. At `NoMemory` the passes are
/// dropped, and hold nothing.
pub fn answer_all<R: Threads + Wait + Sync, G: Gate + Sync>(
    rt: &R,
    alloc: Global,
    maps: &RowTable2,
    jobs: &Jobs,
    words: &RefWords,
    passes: Vec<Pass>,
    gate: &G,
) -> Result<(Results, Vec<Pass>), NoMemory>
    requires passes { (0 < vec_len passes) × (vec_len passes ≤ 16) × All (IsFree words.now) passes.items }
    requires jobs { All (IsWithin (length maps.now.items) words.now.words) jobs.now.items }
    ensures passes { IfOk result (λ r. (vec_len r.1 ≡ vec_len passes) × All (IsFree words.now) r.1.items) }
    ensures len { IfOk result (λ r. length r.0.items ≡ length jobs.now.items) }
    ensures each { IfOk result (λ r. (k : ℕ) (x : JobResult) → slice_get r.0.items k ≡ Some x → IsDone maps.now.items jobs.now.items (HasSeen r.1.items) (k, x)) }
{
    let maps = maps.as_slice();
    let jobs = jobs.as_slice();
    let (whole, passes) = serve_all(rt, alloc, maps, jobs, words, passes, gate)?;
    let results = arrange(alloc, maps, jobs, passes.as_slice(), whole)?;
    Ok((results, passes))
}

/// The same, each result with the place of its job, in the order in which they were done. Each place comes once,
/// however places are weighed.
pub fn serve_all<R: Threads + Wait + Sync, G: Gate + Sync>(
    rt: &R,
    alloc: Global,
    maps: &[Rows],
    jobs: &[Job],
    words: &RefWords,
    passes: Vec<Pass>,
    gate: &G,
) -> Result<(Vec<Done>, Vec<Pass>), NoMemory>
    requires passes { (0 < vec_len passes) × (vec_len passes ≤ 16) × All (IsFree words.now) passes.items }
    requires jobs { All (IsWithin (length maps.now) words.now.words) jobs.now }
    ensures passes { IfOk result (λ r. (vec_len r.1 ≡ vec_len passes) × All (IsFree words.now) r.1.items) }
    ensures once { IfOk result (λ r. (h : ℕ → ℕ) → weigh h (places (length jobs.now)) ≡ weigh h (map place_of r.0.items)) }
    ensures done { IfOk result (λ r. All (IsDone maps.now jobs.now (HasSeen r.1.items)) r.0.items) }
{
    let (queue, ticket) = PlaceQueue::ruled(alloc, jobs.len() + 1)?;
    let mut ticket = put_all(rt, &queue, ticket, jobs.len());
    let workers = make_workers(alloc, &queue, &mut ticket, words, passes)?;
    let all = work_all(rt, alloc, &queue, maps, jobs, words, gate, workers)?;
    let Gathered {
        ticket,
        mut passes,
        whole,
    } = add_all(alloc, &queue, maps, jobs, words, ticket, all)?;
    let Some(mut pass) = passes.pop() else {
        unreachable!()
    };
    let whole = take_rest(
        rt,
        &queue,
        maps,
        jobs,
        words,
        passes.as_slice(),
        &mut pass,
        ticket,
        whole,
    )?;
    passes.push(pass)?;
    Ok((whole, passes))
}
