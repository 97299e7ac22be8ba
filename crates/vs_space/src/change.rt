//! Which changes of a bucket's status there are.

ghost use Rattle.std.specs.Prelude.{◌↔◌, IsTrue};
ghost use Rattle.vs_space.specs.Status.{MayChange};

use crate::status::Status;

/// The change of a status that isn't one of those allowed, with the status as it is.
#[derive(Clone, Copy, Debug)]
pub struct NotAllowed(pub Option<Status>);

/// Whether a bucket's status, or its having no entry, may become `new`.
pub fn may_change(old: &Option<Status>, new: &Option<Status>) -> bool
    ensures { IsTrue result ↔ MayChange old.now new.now }
{
    let Some(old) = old else {
        return matches!(new, Some(Status::Receiving(_)));
    };
    let Some(new) = new else {
        return *old == Status::Garbage;
    };
    match old {
        Status::Active => matches!(new, Status::Pinned | Status::Sending(_)),
        Status::Pinned => *new == Status::Active,
        Status::Sending(to) => *new == Status::Active || *new == Status::Sent(*to),
        Status::Receiving(_) => matches!(new, Status::Active | Status::Garbage),
        Status::Sent(_) => *new == Status::Garbage,
        Status::Garbage => false,
    }
}
