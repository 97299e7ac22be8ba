//! Why it isn't told that a report is legal.

use vs_audit::{AuditFault, AuditText, Illegal};
use vs_host::{HostFailed, HostRead};

/// Why it isn't told that a report is legal.
#[derive(Clone, Copy, Debug, PartialEq, Eq)]
pub enum ReportFault {
    /// The file is longer than a text may be.
    TooLong,
    /// The line of this number, from 1, is the first that isn't in the grammar of reports.
    BadReport(u32),
    /// Reading the file failed.
    Read,
    /// Putting out that the report is legal failed.
    Write,
    /// The report isn't legal: the least line that shows it, from 1, and the first thing wrong there.
    Illegal(u32, Illegal),
    /// Memory was refused.
    NoMemory,
}

impl From<HostRead> for ReportFault {
    ghost use Rattle.std.specs.Prelude.{◌≡◌};
    ghost use Rattle.vs_auditing.specs.Faults.{from_read};

    ghost from_gives = { λ e fault. fault ≡ from_read e };

    fn from(e: HostRead) -> Self {
        match e {
            HostRead::Failed => ReportFault::Read,
            HostRead::TooLong => ReportFault::TooLong,
            HostRead::NoMemory => ReportFault::NoMemory,
        }
    }
}

impl From<AuditText> for ReportFault {
    ghost use Rattle.std.specs.Prelude.{◌≡◌};
    ghost use Rattle.vs_auditing.specs.Faults.{from_text};

    ghost from_gives = { λ e fault. fault ≡ from_text e };

    fn from(e: AuditText) -> Self {
        match e {
            AuditText::Bad(line) => ReportFault::BadReport(line),
            AuditText::NoMemory => ReportFault::NoMemory,
        }
    }
}

impl From<AuditFault> for ReportFault {
    ghost use Rattle.std.specs.Prelude.{◌≡◌};
    ghost use Rattle.vs_auditing.specs.Faults.{from_audit};

    ghost from_gives = { λ e fault. fault ≡ from_audit e };

    fn from(e: AuditFault) -> Self {
        match e {
            AuditFault::Illegal { line, kind } => ReportFault::Illegal(line, kind),
            AuditFault::NoMemory => ReportFault::NoMemory,
        }
    }
}

impl From<HostFailed> for ReportFault {
    ghost use Rattle.std.specs.Prelude.{◌≡◌};
    ghost use Rattle.vs_auditing.specs.declared.fault.ReportFault.TheVariants as faults;

    ghost from_gives = { λ _ fault. fault ≡ faults.Write };

    fn from(_e: HostFailed) -> Self {
        ReportFault::Write
    }
}
