//! What a set that is up answers to a call.

ghost use Rattle.std.specs.Prelude.{◌≡◌};
ghost use Rattle.vs_space.specs.Verdict.{verdict_of};

use crate::status::{Cause, Status, Verdict};
use vs_base::Mode;

/// The answer to a call of this mode, by the bucket's status at the set and whether its read-write lock stands.
///
/// A bucket that is being sent still takes reads. One that was sent tells where it went, as vshard's `WRONG_BUCKET` does.
pub fn verdict(status: Option<Status>, rw_locked: bool, mode: Mode) -> Verdict
    ensures { result ≡ verdict_of status rw_locked mode }
{
    let Some(status) = status else {
        return Verdict::Refused(Cause::WrongBucket(None));
    };
    match status {
        Status::Active | Status::Pinned => match mode {
            Mode::Rw if rw_locked => Verdict::Refused(Cause::BucketIsLocked),
            Mode::Ro | Mode::Rw => Verdict::Granted,
        },
        Status::Sending(to) => match mode {
            Mode::Ro => Verdict::Granted,
            Mode::Rw => Verdict::Refused(Cause::TransferInProgress(to)),
        },
        Status::Receiving(from) => Verdict::Refused(Cause::TransferInProgress(from)),
        Status::Sent(to) => Verdict::Refused(Cause::WrongBucket(Some(to))),
        Status::Garbage => Verdict::Refused(Cause::WrongBucket(None)),
    }
}
