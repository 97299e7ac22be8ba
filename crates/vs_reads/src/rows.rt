//! The rows that writes leave.

ghost use Rattle.std.specs.Prelude.{◌≡◌, ℕ, [], All, IfOk, length};
ghost use Rattle.vs_script.specs.Calls.{calls};
ghost use Rattle.vs_script.specs.Lawful.{IsLawfulCall};
ghost use Rattle.vs_reads.specs.Jobs.{HaveRows, rows_of};
ghost use Rattle.vs_reads.specs.Reads.{rows_in};

use std::alloc::Global;
use vs_base::{Items, NoMemory};
use vs_pool::RowTable2;
use vs_rows::Rows;
use vs_script::Call;

/// No rows, for so many buckets.
fn no_rows(alloc: Global, buckets: u32) -> Result<Vec<Rows>, NoMemory>
    ensures len { IfOk result (λ maps. length maps.items ≡ buckets) }
    ensures empty { IfOk result (λ maps. (b : ℕ) → rows_of maps.items b ≡ []) }
{
    let mut maps: Vec<Rows> = Vec::with_capacity(alloc, buckets as usize)?;
    for _ in 0..buckets {
        maps.push(Rows::new(alloc))?;
    }
    Ok(maps)
}

/// The same rows, as a table.
fn table_of(alloc: Global, maps: Vec<Rows>) -> Result<RowTable2, NoMemory>
    ensures { IfOk result (λ table. table.items ≡ maps.items) }
{
    let mut table = Items::new(alloc);
    for rows in maps {
        table.reserve()?;
        table.push(rows);
    }
    Ok(table)
}

/// The rows of so many buckets after the operations of these calls, one after the other.
pub fn rows_after(alloc: Global, buckets: u32, writes: &[Call]) -> Result<RowTable2, NoMemory>
    requires { All (IsLawfulCall buckets) (calls writes.now) }
    ensures { IfOk result (λ maps. HaveRows maps.items buckets (rows_in (calls writes.now))) }
{
    let mut maps = no_rows(alloc, buckets)?;
    for call in writes {
        maps[call.bucket.get() as usize - 1].apply(&call.ops)?;
    }
    table_of(alloc, maps)
}
