//! What becomes of a turn of a driver, which is one hold of the lock.

ghost use Rattle.std.specs.Prelude.{◌≡◌, ◌≢◌, Err};
ghost use Rattle.vs_drive.specs.Turns.{turn_of, turn_of_fault};

use crate::driver::DriveFault;
use vs_event::Reason;
use vs_world::StepFault;

/// Where a driver stands after an event, as its gate is told.
#[derive(Clone, Copy)]
pub struct Place {
    /// The driver: a client's number, 100 plus an operator's, 200 plus the set's of a service, or 300 plus the set's of a mover.
    pub who: u32,
    /// The number of the call or the command; 0 for services and movers.
    pub call: u32,
    /// 1 to 5 after the call was posted, begun, done, ended and taken; 0 otherwise.
    pub stage: u8,
}

/// What became of a turn.
#[derive(Clone, Copy)]
pub enum Turn {
    /// One event of the driver's own happened, after which it stands here.
    Done(Place),
    /// There was nothing to do.
    Idle,
    /// A client's driver read which buckets a set has.
    Learned,
    /// A disk failed.
    Failed,
    /// The driver can't go on.
    Stopped(DriveFault),
    /// Nothing is left to do.
    Finished,
}

/// What became of a turn whose event wasn't carried out.
fn turn_of_fault(fault: StepFault) -> Turn
    requires { (reason : Reason) → fault ≢ StepFault.NotNow reason }
    ensures { result ≡ turn_of_fault fault }
{
    match fault {
        StepFault::NotNow(_) => unreachable!(),
        StepFault::Full(set) => Turn::Stopped(DriveFault::Full(set)),
        StepFault::WentDown(_) | StepFault::OpenFault(_) => Turn::Failed,
        StepFault::NoMemory => Turn::Stopped(DriveFault::NoMemory),
    }
}

/// What became of a turn whose event was given to the cluster.
pub fn turn_of(done: Result<(), StepFault>, place: Place) -> Turn
    requires { (reason : Reason) → done ≢ Err (StepFault.NotNow reason) }
    ensures { result ≡ turn_of place done }
{
    match done {
        Ok(()) => Turn::Done(place),
        Err(fault) => turn_of_fault(fault),
    }
}
