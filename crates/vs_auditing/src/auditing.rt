//! The command: from the file to whether its report is legal, and how it ends.

ghost use Rattle.std.specs.Prelude.{◌≡◌, ◌∷◌, [], Contains, IsTrue, IfErr, OnOk};
ghost use Rattle.vs_ending.specs.Ending.{KeepsHost, NoneRose};
ghost use Rattle.vs_auditing.specs.Endings.{Ends, IsCause, IsFoundLegal, IsTextFile};
ghost use Rattle.vs_auditing.specs.Texts.{IsIllegalText, IsLegalText, IsNoReport, IsWrongIn};

use crate::fault::ReportFault;
use crate::fault_line::log_fault;
use std::alloc::Global;
use vs_audit::{audit, read_report};
use vs_host::Host;
use vs_inputs::MOST_BYTES;

/// What is put out of a legal report.
const LEGAL: &[u8] = b"legal\n";

/// Whether a text is a report, and legal.
pub fn audit_text(alloc: Global, text: &[u8]) -> Result<(), ReportFault>
    ensures legal { OnOk result (IsLegalText text.now) }
    ensures wrong { IfErr result (IsWrongIn text.now) }
{
    let account = read_report(alloc, text)?;
    audit(&account)?;
    Ok(())
}

/// Audits the report of a file, and puts out that it is legal.
fn audit_file<H: Host>(alloc: Global, report: &str, host: &mut H) -> Result<(), ReportFault>
    requires { IsTrue ((H.told host.old).may_read report.now) }
    ensures host { KeepsHost (H.told host.old) (H.told host.new) }
    ensures log { (H.told host.new).log ≡ (H.told host.old).log }
    ensures ok { OnOk result (IsFoundLegal (H.told host.old) (H.told host.new) report.now) }
    ensures err { IfErr result (λ fault.
        IsCause fault (H.told host.old) (H.told host.new) report.now) }
{
    let text = host.read(report, MOST_BYTES)?;
    audit_text(alloc, &text)?;
    host.out(LEGAL)?;
    Ok(())
}

/// `audit REPORT`: whether the report in a file is legal, from its text alone. It answers the status, and logs one line where that
/// isn't 0.
pub fn audit_report<H: Host>(alloc: Global, report: &str, host: &mut H) -> u8
    requires { IsTrue ((H.told host.old).may_read report.now) }

    // Each status is one of six.
    ensures status { Contains (0 ∷ 3 ∷ 5 ∷ 6 ∷ 9 ∷ 11 ∷ []) result }

    // What each of them says.
    ensures ends { Ends result (H.told host.old) (H.told host.new) report.now }

    // Where neither a read nor a write fails, a legal report ends so, one that isn't legal so, and
    // a text that is no report so.
    ensures legal { IsTextFile (H.told host.old).file report.now IsLegalText
        → NoneRose (H.told host.old) (H.told host.new) → Contains (0 ∷ 9 ∷ []) result }
    ensures illegal { IsTextFile (H.told host.old).file report.now IsIllegalText
        → NoneRose (H.told host.old) (H.told host.new) → Contains (9 ∷ 11 ∷ []) result }
    ensures refused { IsTextFile (H.told host.old).file report.now IsNoReport
        → NoneRose (H.told host.old) (H.told host.new) → Contains (3 ∷ 9 ∷ []) result }

    // What stays.
    ensures host { KeepsHost (H.told host.old) (H.told host.new) }
{
    match audit_file(alloc, report, host) {
        Ok(()) => 0,
        Err(fault) => log_fault(alloc, host, fault),
    }
}
