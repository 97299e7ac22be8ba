//! Which set is asked about a bucket.

ghost use Rattle.std.specs.Prelude.{◌≡◌};
ghost use Rattle.vs_machine.specs.Kinds.Connections.{asked_set};

use vs_base::SetNo;
use vs_space::Status;

/// The set that a status names, where it can be asked.
pub fn asked_set(entry: &Option<Status>) -> Option<SetNo>
    ensures { result ≡ asked_set entry.now }
{
    match entry {
        Some(Status::Sending(dest)) => Some(*dest),
        Some(Status::Receiving(source)) => Some(*source),
        _ => None,
    }
}
