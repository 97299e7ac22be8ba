//! Numbers by which the parts of a cluster are named.

ghost use Rattle.std.specs.Prelude.{ℕ, ◌≡◌, ◌≤◌};
ghost use Rattle.std.specs.Option.{SomeIff};
ghost use Rattle.vs_base.specs.Numbers.{IsSetNo, IsBucketId, IsClientNo, IsOpNo};

use crate::items::Items;
use std::marker::Model;

/// The number of a set, from 1 to 32.
#[derive(Clone, Copy, Debug, PartialEq, Eq, PartialOrd, Ord)]
pub struct SetNo {
    number: u8,
}

impl Model for SetNo {
    ghost Value = { ℕ };

    ghost view = { λ n. n.number };

    ghost invariant = { λ n. IsSetNo n.number };

    ghost inverse = { λ n. record { number = n } };
}

impl SetNo {
    /// The greatest number.
    pub const MAX: u8 = 32;

    pub fn new(number: u8) -> Option<SetNo>
        ensures { SomeIff result (IsSetNo number) number }
    {
        if number >= 1 && number <= Self::MAX {
            Some(SetNo { number })
        } else {
            None
        }
    }

    pub fn get(self) -> u8
        ensures value { result ≡ self }
        ensures range { IsSetNo self }
    {
        self.number
    }
}

/// The number of a bucket, from 1 to 30,000.
#[derive(Clone, Copy, Debug, PartialEq, Eq, PartialOrd, Ord)]
pub struct BucketId {
    number: u32,
}

impl Model for BucketId {
    ghost Value = { ℕ };

    ghost view = { λ n. n.number };

    ghost invariant = { λ n. IsBucketId n.number };

    ghost inverse = { λ n. record { number = n } };
}

impl BucketId {
    /// The greatest number.
    pub const MAX: u32 = 30_000;

    pub fn new(number: u32) -> Option<BucketId>
        ensures { SomeIff result (IsBucketId number) number }
    {
        if number >= 1 && number <= Self::MAX {
            Some(BucketId { number })
        } else {
            None
        }
    }

    pub fn get(self) -> u32
        ensures value { result ≡ self }
        ensures range { IsBucketId self }
    {
        self.number
    }
}

/// The number of a client, from 1 to 64.
#[derive(Clone, Copy, PartialEq, Eq)]
pub struct ClientNo {
    number: u8,
}

impl Model for ClientNo {
    ghost Value = { ℕ };

    ghost view = { λ n. n.number };

    ghost invariant = { λ n. IsClientNo n.number };

    ghost inverse = { λ n. record { number = n } };
}

impl ClientNo {
    /// The greatest number.
    pub const MAX: u8 = 64;

    pub fn new(number: u8) -> Option<ClientNo>
        ensures { SomeIff result (IsClientNo number) number }
    {
        if number >= 1 && number <= Self::MAX {
            Some(ClientNo { number })
        } else {
            None
        }
    }

    pub fn get(self) -> u8
        ensures value { result ≡ self }
        ensures range { IsClientNo self }
    {
        self.number
    }
}

/// The number of an operator, from 1 to 16.
#[derive(Clone, Copy, PartialEq, Eq)]
pub struct OpNo {
    number: u8,
}

impl Model for OpNo {
    ghost Value = { ℕ };

    ghost view = { λ n. n.number };

    ghost invariant = { λ n. IsOpNo n.number };

    ghost inverse = { λ n. record { number = n } };
}

impl OpNo {
    /// The greatest number.
    pub const MAX: u8 = 16;

    pub fn new(number: u8) -> Option<OpNo>
        ensures { SomeIff result (IsOpNo number) number }
    {
        if number >= 1 && number <= Self::MAX {
            Some(OpNo { number })
        } else {
            None
        }
    }

    pub fn get(self) -> u8
        ensures value { result ≡ self }
        ensures range { IsOpNo self }
    {
        self.number
    }
}

/// A list of bucket ids.
pub type Ids = Items<BucketId>;

/// A call of a client: the client, and the call's number in its script, from 1.
#[derive(Clone, Copy)]
pub struct CallId {
    pub client: ClientNo,
    pub call: u32,
}

/// Whether a call only reads, or may write.
#[derive(Clone, Copy, PartialEq, Eq)]
pub enum Mode {
    /// A read: `ro`.
    Ro,
    /// A write: `rw`.
    Rw,
}
