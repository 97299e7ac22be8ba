//! Why a cluster isn't settled.

ghost use Rattle.std.specs.Prelude.{◌≡◌, ◌≢◌, ◌↔◌, IsTrue};
ghost use Rattle.vs_event.specs.declared.reason.Reason as event;
ghost use Rattle.vs_settle.specs.Causes.{IsCause, IsGoingDown};

use vs_base::SetNo;
use vs_world::StepFault;

/// Why a cluster isn't settled. The events that were carried out stand.
#[derive(Clone, Copy, Debug, PartialEq, Eq)]
pub enum SettleFault {
    /// The disk of this set failed, and the set is down.
    DiskFault(SetNo),
    /// An event that can happen would carry the journal of this set past the limit.
    Full(SetNo),
    NoMemory,
}

/// Whether a set went down.
pub(crate) fn is_going_down(fault: &StepFault) -> bool
    ensures { IsTrue result ↔ IsGoingDown fault.now }
{
    matches!(fault, StepFault::WentDown(_))
}

/// Why the cluster isn't settled, where an event that can happen isn't carried out.
pub(crate) fn cause_of(fault: StepFault) -> SettleFault
    requires { (reason : event.Reason) → fault ≢ StepFault.NotNow reason }
    ensures { IsCause fault result }
{
    match fault {
        StepFault::WentDown(set) => SettleFault::DiskFault(set),
        StepFault::OpenFault(set) => SettleFault::DiskFault(set),
        StepFault::Full(set) => SettleFault::Full(set),
        StepFault::NoMemory => SettleFault::NoMemory,
        StepFault::NotNow(_) => unreachable!(),
    }
}
