//! A report that is legal, and what is read of it.

use super::report::{REPORT, Verdict, found_in};
use vs_audit::read_report;

#[test]
fn a_report_is_read_and_legal(rt: HostRuntime) {
    let account = read_report(rt.alloc(), REPORT.as_bytes()).expect(&rt, "a report");
    assert_eq!(rt; account.buckets, 4);
    assert_eq!(rt; account.histories.len(), 2);
    assert_eq!(rt; account.calls.len(), 8);
    let mut write = 0;
    for history in account.histories.as_slice() {
        for entry in history.writes.as_slice() {
            write = entry.line;
        }
    }
    assert_eq!(rt; write, 13, "the line of the last write");
    assert_eq!(rt; found_in(rt.alloc(), REPORT), Verdict::Legal);

    // What became of a call with an entry needn't be known.
    let (before, after) = REPORT.split_once("reply 0 none").expect(&rt, "a reply");
    let text = format!(in rt.alloc(); "{before}lost{after}").expect(&rt, "a text");
    assert_eq!(rt; found_in(rt.alloc(), text.as_str()), Verdict::Legal);
}
