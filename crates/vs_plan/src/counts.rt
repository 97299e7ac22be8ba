//! The counts of sets, and how they are read.

ghost use Rattle.std.specs.Prelude.{◌≡◌, ◌↔◌, ◌≤◌, Ok, length, IfOk, IfErr, IsTrue};
ghost use Rattle.std.specs.List.{All};
ghost use Rattle.std.specs.Str.Lines.{lines};
ghost use Rattle.vs_plan.specs.Reading.{counts_in, reading_of, total, AreCounts};
ghost use Rattle.vs_plan.specs.Faults.{IsBad};

use crate::fault::{CountsError, CountsFault, LineKind};
use crate::line::line_of;
use std::alloc::Global;
use vs_base::Items;
use vs_text::first_line;

/// How many buckets a set has.
#[derive(Clone, Copy)]
pub struct SetCount {
    /// Its active and pinned buckets.
    pub count: u32,
    /// Its pinned buckets.
    pub pinned: u32,
}

/// The counts of the sets, in their order.
pub type SetCounts = Items<SetCount>;

/// The counts of the lines of a text, one for each of so many sets.
fn counts_of_lines(alloc: Global, text: &[u8], sets: usize) -> Result<SetCounts, CountsError>
    ensures ok { IfOk result (λ counts. counts_in 1 sets (lines text.now) ≡ Ok counts.items) }
    ensures err { IfErr result (λ error. IsBad error (counts_in 1 sets (lines text.now))) }
    ensures one_each { IfOk result (λ counts. length counts.items ≡ sets) }
    ensures pinned { IfOk result (λ counts. All (λ c. c.pinned ≤ c.count) counts.items) }
{
    let mut counts = SetCounts::new(alloc);
    let mut number: u32 = 0;
    let mut rest = text;
    while let Some((line, more)) = first_line(rest) {
        if number == u32::MAX {
            return Err(CountsError::NoMemory);
        }
        number += 1;
        if let Some(count) = line_of(line, number)? {
            if counts.len() == sets {
                return Err(CountsError::Bad(CountsFault::Line(number, LineKind::BadCounts)));
            }
            counts.reserve()?;
            counts.push(count);
        }
        rest = more;
    }
    if counts.len() < sets {
        return Err(CountsError::Bad(CountsFault::MissingSet));
    }
    Ok(counts)
}

/// Whether the counts sum to what a cluster may have.
fn are_few(counts: &[SetCount]) -> bool
    ensures { IsTrue result ↔ (total counts.now ≤ 30000) }
{
    let mut left: u32 = 30_000;
    for count in counts {
        if count.count > left {
            return false;
        }
        left -= count.count;
    }
    true
}

/// Reads the counts of so many sets.
///
/// A line ends with LF, or with CR and LF, and the last one may lack its end. A line without a word is skipped, and so is one
/// whose first word begins with `#`. Each other line is two numbers of 1 to 9 digits, the count of the next set and how many of
/// those buckets are pinned.
///
/// The fault is that of the first bad line, skipped lines included: a bad byte, else a long word, else `BadCounts`. Then comes
/// `MissingSet`, and then `TooMany`. A text of 2^32 lines or more wants memory.
pub fn read_counts(alloc: Global, text: &[u8], sets: usize) -> Result<SetCounts, CountsError>
    ensures ok { IfOk result (λ counts. reading_of sets text.now ≡ Ok counts.items) }
    ensures err { IfErr result (λ error. IsBad error (reading_of sets text.now)) }
    ensures lawful { IfOk result (λ counts. AreCounts sets counts.items) }
{
    let counts = counts_of_lines(alloc, text, sets)?;
    if !are_few(counts.as_slice()) {
        return Err(CountsError::Bad(CountsFault::TooMany));
    }
    Ok(counts)
}
