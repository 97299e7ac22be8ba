//! Reports in which one part stands in place of another, and what is found then.

use super::report::{REPORT, Verdict, found_in};
use std::alloc::Global;
use std::process::Abort;
use std::test::Fail;
use vs_audit::Illegal;

/// What stands in the report, what is put there, and the line that is told.
type Change = (&'static str, &'static str, u32);

/// Entries of a call that their history has already.
const DOUBLE_CALLS: [Change; 2] = [
    ("read 1 1 2", "read 1 1 1", 14),
    ("write 2 2 1", "write 2 1 1", 12),
];

const WRONG_PLACES: [Change; 3] = [
    ("write 1 1 1", "write 0 1 1", 11),
    ("write 2 2 1", "write 3 2 1", 12),
    ("read 1 1 2", "read 4 1 2", 14),
];

/// The last two are answers on the rows of another place.
const WRONG_ANSWERS: [Change; 6] = [
    ("3 => done", "3 => exists", 11),
    ("number 3\nwrite", "number 4\nwrite", 12),
    ("=> value 1", "=> none", 14),
    ("c 3\nread", "c 4\nread", 14),
    ("read 1 1 2", "read 2 1 2", 14),
    ("read 2 1 4", "read 1 1 4", 15),
];

/// Replies that aren't those of their entry, or have none, and an entry of a call that was given up.
const NO_ENTRIES: [Change; 5] = [
    ("reply 1 value", "reply 0 value", 19),
    ("5 spent transfer 2", "5 reply 2 done", 22),
    ("reply 0 none", "reply 0 done", 24),
    ("read 0 2 2", "read 0 2 9", 24),
    ("reply 0 none", "spent down", 24),
];

/// The next call of the client was answered at an earlier place.
const WRONG_ORDERS: [Change; 1] = [("3 lost", "3 reply 3 done", 21)];

/// A line that is missing, one too many, one out of its order, and wrong words.
const BAD_LINES: [Change; 14] = [
    ("end\n", "", 29),
    ("end\n", "end", 29),
    ("end\n", "end\nend\n", 30),
    ("history 1 2 3 2", "history 1 2 3 3", 16),
    ("history 1 2 3 2", "history 1 2 2 3", 13),
    ("history 4 0 0 1", "history 4 0 0 0", 16),
    ("call 1 4", "call 1 3", 21),
    ("command 2 1", "command 1 1", 28),
    ("row b 2", "row a 2", 10),
    ("pairs 2 b 2 c 3\nread", "pairs 2 c 3 b 2\nread", 14),
    ("bucket 3 1", "bucket 03 1", 6),
    ("cluster 2 4", "cluster 3 4", 4),
    ("cluster 2 4", "cluster 33 4", 1),
    ("row a 1", "row  a 1", 9),
];

/// What is found where the second stands in place of the first.
fn found_after(rt: &impl Abort, alloc: Global, old: &str, new: &str) -> Result<Verdict, Fail> {
    let (before, after) = REPORT.split_once(old).expect(rt, "a part of the report");
    let text = format!(in alloc; "{before}{new}{after}")?;
    Ok(found_in(alloc, text.as_str()))
}

/// Each of the changes shows this kind of fault at its line.
fn expect(rt: &impl Abort, alloc: Global, changes: &[Change], kind: Illegal) -> Result<(), Fail> {
    for (old, new, line) in changes {
        let found = found_after(rt, alloc, old, new)?;
        assert_eq!(rt;
            found,
            Verdict::Illegal(*line, kind),
            "{new} in place of {old}"
        );
    }
    Ok(())
}

#[test]
fn what_is_wrong_is_told_with_its_line(rt: HostRuntime) -> Result<(), Fail> {
    let alloc = rt.alloc();
    expect(&rt, alloc, &DOUBLE_CALLS, Illegal::DoubleCall)?;
    expect(&rt, alloc, &WRONG_PLACES, Illegal::WrongPlace)?;
    expect(&rt, alloc, &WRONG_ANSWERS, Illegal::WrongAnswers)?;
    expect(&rt, alloc, &NO_ENTRIES, Illegal::NoEntry)?;
    expect(&rt, alloc, &WRONG_ORDERS, Illegal::WrongOrder)?;
    for (old, new, line) in BAD_LINES {
        let found = found_after(&rt, alloc, old, new)?;
        assert_eq!(rt; found, Verdict::Bad(line), "{new} in place of {old}");
    }
    Ok(())
}
