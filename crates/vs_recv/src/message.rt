//! The receiver's table.

ghost use Rattle.std.specs.Prelude.{◌≡◌, ℕ, None};
ghost use Rattle.vs_recv.specs.Receive.{received};

use crate::took::Took;
use vs_base::SetNo;
use vs_space::{RecvFault, Status};

/// What a set does with a message from the set `from`, which carries rows or is the last of its transfer.
///
/// `receiving` is the number of buckets that the set is receiving, and `max` the number up to which it begins to
/// receive another, the configuration's `rebalancer_max_receiving`. Only the first rows of a bucket are refused by a
/// locked set, or for that number: a transfer that is under way goes on.
pub fn receive(
    status: Option<Status>,
    locked: bool,
    receiving: u32,
    max: u32,
    from: SetNo,
    last: bool,
) -> Result<Took, RecvFault>
    ensures { result ≡ received status locked receiving max from last }
{
    let Some(status) = status else {
        return begin(locked, receiving, max, last);
    };
    match status {
        Status::Receiving(sender) => {
            if sender != from {
                Err(RecvFault::WrongSender(sender))
            } else if last {
                Ok(Took::Activated)
            } else {
                Ok(Took::Added)
            }
        }
        other => Err(RecvFault::WrongBucket(Some(other))),
    }
}

/// What a set without an entry of the bucket does.
fn begin(locked: bool, receiving: u32, max: u32, last: bool) -> Result<Took, RecvFault>
    ensures { (from : ℕ) → result ≡ received None locked receiving max from last }
{
    if last {
        Err(RecvFault::WrongBucket(None))
    } else if locked {
        Err(RecvFault::SetLocked)
    } else if receiving >= max {
        Err(RecvFault::TooManyReceiving(receiving))
    } else {
        Ok(Took::Created)
    }
}
