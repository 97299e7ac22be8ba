//! Results in the order of their jobs.

ghost use Rattle.std.specs.Prelude.{◌≡◌, ◌≢◌, ◌<◌, ℕ, All, Some, None, IfOk, IsSome, length, map, replicate, slice_get};
ghost use Rattle.vs_words.specs.Standing.{Standing};
ghost use Rattle.vs_pool.specs.Rule.{weigh};
ghost use Rattle.vs_pool.specs.Results.{IsDone, HasSeen, place_of, is_place};
ghost use Rattle.vs_pool.specs.declared.job.JobResult.{JobResult};

use crate::job::{Job, JobResult, Results};
use crate::worker::Done;
use std::alloc::Global;
use vs_base::{Items, NoMemory};
use vs_rows::Rows;
use vs_words::Pass;

// A slot for each job.
fn slots_for(alloc: Global, jobs: usize) -> Result<Vec<Option<JobResult>>, NoMemory>
    ensures { IfOk result (λ v. v.items ≡ replicate jobs None) }
{
    let mut slots: Vec<Option<JobResult>> = Vec::new(alloc);
    for _ in 0..jobs {
        slots.push(None)?;
    }
    Ok(slots)
}

// Puts each result into the slot of its job. What the jobs and passes are is for the clauses.
fn fill(
    maps: &[Rows],
    jobs: &[Job],
    passes: &[Pass],
    slots: &mut [Option<JobResult>],
    mut whole: Vec<Done>,
)
    requires done { All (IsDone maps.now jobs.now (HasSeen passes.now)) whole.items }
    requires slots { length slots.old ≡ length jobs.now }
    requires each { (k : ℕ) (r : JobResult) → slice_get slots.old k ≡ Some (Some r) → IsDone maps.now jobs.now (HasSeen passes.now) (k, r) }
    requires vacant { (k : ℕ) → slice_get slots.old k ≡ Some None → 0 < weigh (is_place k) (map place_of whole.items) }
    ensures each { (k : ℕ) (r : JobResult) → slice_get slots.new k ≡ Some (Some r) → IsDone maps.now jobs.now (HasSeen passes.now) (k, r) }
    ensures full { (k : ℕ) → slice_get slots.new k ≢ Some None }
{
    while let Some(done) = whole.pop() {
        let (place, result) = done;
        slots[place] = Some(result);
    }
}

// What the slots hold.
fn unwrap_all(alloc: Global, slots: Vec<Option<JobResult>>) -> Result<Results, NoMemory>
    requires { All (λ slot. IsSome slot) slots.items }
    ensures { IfOk result (λ r. map Some r.items ≡ slots.items) }
{
    let mut results: Results = Items::new(alloc);
    for slot in slots {
        results.reserve()?;
        results.push(slot.unwrap());
    }
    Ok(results)
}

// The results of all jobs, in order. What the jobs and passes are is for the clauses.
pub fn arrange(
    alloc: Global,
    maps: &[Rows],
    jobs: &[Job],
    passes: &[Pass],
    whole: Vec<Done>,
) -> Result<Results, NoMemory>
    requires done { All (IsDone maps.now jobs.now (HasSeen passes.now)) whole.items }
    requires all { (k : ℕ) → k < length jobs.now → 0 < weigh (is_place k) (map place_of whole.items) }
    ensures len { IfOk result (λ r. length r.items ≡ length jobs.now) }
    ensures each { IfOk result (λ r. (k : ℕ) (x : JobResult) → slice_get r.items k ≡ Some x → IsDone maps.now jobs.now (HasSeen passes.now) (k, x)) }
{
    let mut slots = slots_for(alloc, jobs.len())?;
    fill(maps, jobs, passes, slots.as_mut_slice(), whole);
    unwrap_all(alloc, slots)
}
