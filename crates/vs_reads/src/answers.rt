//! Reads are served by the pool.

ghost use Rattle.std.specs.Prelude.{◌≡◌, ◌≤◌, IfOk, length};
ghost use Rattle.vs_reads.specs.Jobs.{AreResults, AreWithin};

use std::alloc::Global;
use std::sync::Wait;
use std::thread::Threads;
use vs_base::NoMemory;
use vs_gate::Gate;
use vs_pool::{Jobs, Results, RowTable2, answer_all};
use vs_words::RefWords;

/// How many workers serve the reads.
const WORKERS: u8 = 4;

/// What comes of each read. No word is closed here, but nothing rests on that.
pub fn results_of<R: Threads + Wait + Sync, G: Gate + Sync>(
    rt: &R,
    alloc: Global,
    maps: &RowTable2,
    jobs: &Jobs,
    gate: &G,
) -> Result<Results, NoMemory>
    requires maps { (1 ≤ length maps.now.items) × (length maps.now.items ≤ 30000) }
    requires jobs { AreWithin (length maps.now.items) jobs.now.items }
    ensures { IfOk result (λ results. AreResults maps.now.items jobs.now.items results.items) }
{
    let buckets = maps.len() as u32;
    let (words, passes) = RefWords::open(alloc, buckets, WORKERS)?;
    let (results, _passes) = answer_all(rt, alloc, maps, jobs, &words, passes, gate)?;
    Ok(results)
}
