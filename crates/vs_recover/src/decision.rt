//! What a set does with a bucket of an interrupted transfer.

ghost use Rattle.std.specs.Prelude.{◌≡◌};
ghost use Rattle.vs_recover.specs.Decision.{decision_of};

use vs_space::Status;

/// What becomes of a bucket's status.
#[derive(Clone, Copy, PartialEq, Eq)]
pub enum Decision {
    /// It stays as it is.
    Stay,
    /// The bucket becomes active.
    ToActive,
    /// The bucket becomes garbage.
    ToGarbage,
}

/// What a set does with a bucket of status `local`, where the other set of the transfer says that
/// its status there is `remote`, and whether a transfer of the bucket is live there.
///
/// A bucket that is being sent becomes active again where the other set doesn't have it. One that
/// is being received stays while the sender's transfer is live; after that it becomes garbage where
/// the sender still has it, and active where it hasn't.
pub fn decide(local: Status, remote: Option<Status>, live: bool) -> Decision
    ensures { result ≡ decision_of local remote live }
{
    use Decision::{Stay, ToActive, ToGarbage};
    use Status::{Active, Garbage, Pinned, Receiving, Sending, Sent};
    match (local, remote, live) {
        (Sending(_), None | Some(Sent(_) | Garbage), _) => ToActive,
        (Sending(_), Some(Active | Pinned | Sending(_) | Receiving(_)), _) => Stay,
        (Receiving(_), _, true) => Stay,
        (Receiving(_), Some(Sending(_) | Active | Pinned), false) => ToGarbage,
        (Receiving(_), None | Some(Sent(_) | Garbage), false) => ToActive,
        (Receiving(_), Some(Receiving(_)), false) => Stay,
        _ => Stay,
    }
}
