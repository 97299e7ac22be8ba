//! How many buckets have a status of each kind.

ghost use Rattle.std.specs.Prelude.{◌≡◌, ◌+◌, ◌≤◌, ◌<◌, ◌^◌, Some, IfSome, ◌*◌};
ghost use Rattle.vs_space.specs.Counts.{number_of, counted};
ghost use Rattle.vs_space.specs.Status.{kind_of};

use crate::status::{Status, StatusKind};

/// A number for each kind of status.
#[derive(Clone, Copy)]
pub struct KindCounts {
    active: u32,
    pinned: u32,
    sending: u32,
    receiving: u32,
    sent: u32,
    garbage: u32,
}

impl KindCounts {
    /// No status of any kind.
    pub fn new() -> KindCounts
        ensures { (kind : StatusKind) → number_of result kind ≡ 0 }
    {
        KindCounts {
            active: 0,
            pinned: 0,
            sending: 0,
            receiving: 0,
            sent: 0,
            garbage: 0,
        }
    }

    /// That many active buckets.
    pub fn of_active(count: u32) -> KindCounts
        ensures { (kind : StatusKind) → number_of result kind ≡ count * counted kind (Some Status.Active) }
    {
        KindCounts {
            active: count,
            ..KindCounts::new()
        }
    }

    pub fn get(&self, kind: StatusKind) -> u32
        ensures { result ≡ number_of self.now kind }
    {
        match kind {
            StatusKind::Active => self.active,
            StatusKind::Pinned => self.pinned,
            StatusKind::Sending => self.sending,
            StatusKind::Receiving => self.receiving,
            StatusKind::Sent => self.sent,
            StatusKind::Garbage => self.garbage,
        }
    }

    /// One more status.
    pub fn add(&mut self, status: &Status)
        requires { number_of self.old (kind_of status.now) + 1 < 2 ^ 32 }
        ensures { (kind : StatusKind) →
            number_of self.new kind ≡ number_of self.old kind + counted kind (Some status.now) }
    {
        match status {
            Status::Active => self.active += 1,
            Status::Pinned => self.pinned += 1,
            Status::Sending(_) => self.sending += 1,
            Status::Receiving(_) => self.receiving += 1,
            Status::Sent(_) => self.sent += 1,
            Status::Garbage => self.garbage += 1,
        }
    }

    /// One status fewer.
    pub fn remove(&mut self, status: &Status)
        requires { 1 ≤ number_of self.old (kind_of status.now) }
        ensures { (kind : StatusKind) →
            number_of self.new kind + counted kind (Some status.now) ≡ number_of self.old kind }
    {
        match status {
            Status::Active => self.active -= 1,
            Status::Pinned => self.pinned -= 1,
            Status::Sending(_) => self.sending -= 1,
            Status::Receiving(_) => self.receiving -= 1,
            Status::Sent(_) => self.sent -= 1,
            Status::Garbage => self.garbage -= 1,
        }
    }

    /// One status is replaced by another. None stands for no entry.
    pub fn replace(&mut self, old: &Option<Status>, new: &Option<Status>)
        requires counted { IfSome old.now (λ status. 1 ≤ number_of self.old (kind_of status)) }
        requires room { (kind : StatusKind) → number_of self.old kind + 1 < 2 ^ 32 }
        ensures { (kind : StatusKind) →
            number_of self.new kind + counted kind old.now ≡ number_of self.old kind + counted kind new.now }
    {
        if let Some(status) = old {
            self.remove(status);
        }
        if let Some(status) = new {
            self.add(status);
        }
    }
}
