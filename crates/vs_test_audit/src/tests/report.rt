//! The report that the tests read, and what is found in a report.

use std::alloc::Global;
use vs_audit::{AuditFault, AuditText, Illegal, audit, read_report};

/// Two buckets with histories. The first had rows when it opened, two clients wrote there, and one read between the
/// writes; a write that was lost acted. Bucket 4 was moved.
pub const REPORT: &str = "cluster 2 4
set 1 up 2 1 0 0 1 0
set 2 down 1 0 0 0 0 0
bucket 1 1 active
bucket 2 1 active
bucket 3 1 pinned
bucket 4 1 sent 2 2 active
history 1 2 3 2
row a 1
row b 2
write 1 1 1 put c 3 => done
write 2 2 1 swap a 1 5 ; count => done ; number 3
write 3 1 3 put d 4 => done
read 1 1 2 get a ; scan b 9 => value 1 ; pairs 2 b 2 c 3
read 2 1 4 get a => value 5
history 4 0 0 1
read 0 2 2 get k => none
call 1 1 reply 1 done
call 1 2 reply 1 value 1 ; pairs 2 b 2 c 3
call 1 3 lost
call 1 4 reply 2 value 5
call 1 5 spent transfer 2
call 2 1 reply 2 done ; number 3
call 2 2 reply 0 none
call 2 3 open
command 1 1 moved
command 1 2 refused down 2
command 2 1 open
end
";

/// What is found in a text.
#[derive(Clone, Copy, Debug, PartialEq, Eq)]
pub enum Verdict {
    Legal,
    /// The first line that isn't legal, and what is wrong there.
    Illegal(u32, Illegal),
    /// The first line that no report has there.
    Bad(u32),
    NoMemory,
}

/// What is found in a text.
pub fn found_in(alloc: Global, text: &str) -> Verdict {
    let account = match read_report(alloc, text.as_bytes()) {
        Ok(account) => account,
        Err(AuditText::Bad(line)) => return Verdict::Bad(line),
        Err(AuditText::NoMemory) => return Verdict::NoMemory,
    };
    match audit(&account) {
        Ok(()) => Verdict::Legal,
        Err(AuditFault::Illegal { line, kind }) => Verdict::Illegal(line, kind),
        Err(AuditFault::NoMemory) => Verdict::NoMemory,
    }
}
