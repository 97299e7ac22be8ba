//! One read.

ghost use Rattle.std.specs.Prelude.{◌≡◌, ◌≤◌, ◌<◌, ◌-◌, ℕ, All, Contains, Some, None, IfOk, length, slice_get};
ghost use Rattle.vs_pool.specs.Results.{IsWithin, IsDone};

use crate::job::{Job, JobResult};
use vs_base::NoMemory;
use vs_rows::Rows;
use vs_words::{Pass, RefWords};

/// Serves the job at this place.
pub fn serve_one(
    maps: &[Rows],
    jobs: &[Job],
    place: usize,
    words: &RefWords,
    pass: &mut Pass,
) -> Result<JobResult, NoMemory>
    requires pass { (pass.old.of ≡ words.now) × (pass.old.held ≡ None) }
    requires jobs { All (IsWithin (length maps.now) words.now.words) jobs.now }
    requires place { place < length jobs.now }
    ensures pass { (pass.new.of ≡ words.now) × (pass.new.held ≡ None) }
    ensures more { (i : ℕ) → Contains pass.old.seen i → Contains pass.new.seen i }
    ensures done { IfOk result (λ r. IsDone maps.now jobs.now (Contains pass.new.seen) (place, r)) }
{
    let job = &jobs[place];
    let bucket = job.bucket.get() - 1;
    if !words.take(pass, bucket) {
        return Ok(JobResult::Closed);
    }
    let answers = maps[bucket as usize].answers(&job.ops);
    words.give(pass);
    Ok(JobResult::Served(answers?))
}
