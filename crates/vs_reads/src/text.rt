//! The text of answers.

ghost use Rattle.std.specs.Prelude.{◌≡◌, ◌≤◌, ◌++◌, codes, IfOk, OnOk, length, map};
ghost use Rattle.vs_machine.specs.Report.{number, word, lines, answers_text};
ghost use Rattle.vs_pool.specs.Results.{IsResultOf};
ghost use Rattle.vs_report.specs.Adds.{Adds};
ghost use Rattle.vs_rows.specs.Operations.{answers_to};
ghost use Rattle.vs_reads.specs.Jobs.{AreResults, AreWithin, read_in, rows_of};
ghost use Rattle.vs_reads.specs.Reads.{read_text, reads_text};

use std::alloc::Global;
use vs_base::NoMemory;
use vs_pool::{Job, JobResult};
use vs_report::put_answers;
use vs_rows::Rows;

/// Appends a blank and a number, in decimal digits.
fn put_number(out: &mut Vec<u8>, n: u64) -> Result<(), NoMemory>
    ensures { OnOk result (Adds out.old out.new (number n)) }
{
    out.push(b' ')?;
    vs_text::put_number(out, n)
}

/// Appends a blank and what a job answers. One whose word was closed is answered here.
fn put_result(
    out: &mut Vec<u8>,
    maps: &[Rows],
    job: &Job,
    result_of: &JobResult,
) -> Result<(), NoMemory>
    requires within { job.now.bucket ≤ length maps.now }
    requires done { IsResultOf maps.now (λ _. Unit {0}) job.now result_of.now }
    ensures { OnOk result (Adds out.old out.new
        (word (answers_text (answers_to (rows_of maps.now job.now.bucket) job.now.ops.items)))) }
{
    out.push(b' ')?;
    match result_of {
        JobResult::Served(answers) => put_answers(out, answers.as_slice()),
        JobResult::Closed => {
            let answers = maps[job.bucket.get() as usize - 1].answers(&job.ops)?;
            put_answers(out, answers.as_slice())
        }
    }
}

/// Appends the line of a job.
fn put_read(
    out: &mut Vec<u8>,
    maps: &[Rows],
    job: &Job,
    result_of: &JobResult,
) -> Result<(), NoMemory>
    requires within { job.now.bucket ≤ length maps.now }
    requires done { IsResultOf maps.now (λ _. Unit {0}) job.now result_of.now }
    ensures { OnOk result (Adds out.old out.new
        (read_text (rows_of maps.now) (read_in job.now) ++ codes "\n")) }
{
    out.extend_from_slice(b"call")?;
    put_number(out, u64::from(job.client.get()))?;
    put_number(out, u64::from(job.call))?;
    put_result(out, maps, job, result_of)?;
    out.push(b'\n')?;
    Ok(())
}

/// Appends the lines of jobs.
fn put_reads(
    out: &mut Vec<u8>,
    maps: &[Rows],
    jobs: &[Job],
    results: &[JobResult],
) -> Result<(), NoMemory>
    requires within { AreWithin (length maps.now) jobs.now }
    requires done { AreResults maps.now jobs.now results.now }
    ensures { OnOk result (Adds out.old out.new
        (lines (read_text (rows_of maps.now)) (map read_in jobs.now))) }
{
    for (i, job) in jobs.iter().enumerate() {
        put_read(out, maps, job, &results[i])?;
    }
    Ok(())
}

/// The text of all jobs and their results.
pub fn text_of(
    alloc: Global,
    maps: &[Rows],
    jobs: &[Job],
    results: &[JobResult],
) -> Result<Vec<u8>, NoMemory>
    requires within { AreWithin (length maps.now) jobs.now }
    requires done { AreResults maps.now jobs.now results.now }
    ensures { IfOk result (λ text.
        text.items ≡ reads_text (rows_of maps.now) (map read_in jobs.now)) }
{
    let mut out = Vec::new(alloc);
    out.extend_from_slice(b"reads")?;
    put_number(&mut out, jobs.len() as u64)?;
    out.push(b'\n')?;
    put_reads(&mut out, maps, jobs, results)?;
    out.extend_from_slice(b"end\n")?;
    Ok(out)
}
