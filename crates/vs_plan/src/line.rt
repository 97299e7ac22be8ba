//! A line of counts.

ghost use Rattle.std.specs.Prelude.{◌≡◌, ◌≤◌, IfOk, IfSome};
ghost use Rattle.vs_text.specs.Lines.{words_in};
ghost use Rattle.vs_script.specs.Lines.{is_skipped};
ghost use Rattle.vs_plan.specs.Reading.{at_line, count_of, line_of, set_count};

use crate::counts::SetCount;
use crate::fault::{CountsFault, LineKind};
use vs_base::BucketId;
use vs_text::{TextFault, check_line, next_word, number};

/// Whether a line has no word, or is a comment.
fn is_skipped(line: &[u8]) -> bool
    ensures { result ≡ is_skipped (words_in line.now) }
{
    match next_word(line) {
        Some((word, _)) => matches!(word, [b'#', ..]),
        None => true,
    }
}

fn set_count(count: u32, pinned: u32) -> Option<SetCount>
    ensures value { result ≡ set_count count pinned }
    ensures pinned { IfSome result (λ c. c.pinned ≤ c.count) }
{
    if pinned <= count && count <= BucketId::MAX {
        Some(SetCount { count, pinned })
    } else {
        None
    }
}

/// The counts of a set, where the line is two numbers that are such.
fn count_of(line: &[u8]) -> Option<SetCount>
    ensures value { result ≡ count_of (words_in line.now) }
    ensures pinned { IfSome result (λ c. c.pinned ≤ c.count) }
{
    let (count, rest) = next_word(line)?;
    let (pinned, rest) = next_word(rest)?;
    if next_word(rest).is_some() {
        return None;
    }
    set_count(number(count)?, number(pinned)?)
}

/// What the line of this number gives: the counts of a set, and none where it is skipped.
pub fn line_of(line: &[u8], number: u32) -> Result<Option<SetCount>, CountsFault>
    ensures value { result ≡ at_line number (line_of line.now) }
    ensures pinned { IfOk result (λ given. IfSome given (λ c. c.pinned ≤ c.count)) }
{
    match check_line(line, number) {
        Ok(()) => {}
        Err(TextFault::BadByte(line)) => return Err(CountsFault::Line(line, LineKind::BadByte)),
        Err(TextFault::LongWord(line)) => return Err(CountsFault::Line(line, LineKind::LongWord)),
        Err(TextFault::NoMemory) => unreachable!(),
    }
    if is_skipped(line) {
        return Ok(None);
    }
    match count_of(line) {
        Some(count) => Ok(Some(count)),
        None => Err(CountsFault::Line(number, LineKind::BadCounts)),
    }
}
