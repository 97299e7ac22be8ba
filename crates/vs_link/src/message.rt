//! Messages and replies.

ghost use Rattle.std.specs.Prelude.{◌≡◌, IfOk};
ghost use Rattle.vs_link.specs.Connection.{message, sent};

use vs_base::{BucketId, NoMemory};
use vs_rows::Page;
use vs_space::Reply;

/// A message from a set to another.
#[derive(Drop)]
pub enum Msg {
    /// The next rows of a bucket.
    Chunk(BucketId, Page),
    /// All rows were sent.
    Last(BucketId),
    /// A question for the bucket's status.
    Stat(BucketId),
}

/// A message with its number on the connection.
#[derive(Drop)]
pub struct Posted {
    pub sync: u64,
    pub msg: Msg,
}

/// The reply to the message of this number.
#[derive(Clone, Copy)]
pub struct Heard {
    pub sync: u64,
    pub bucket: BucketId,
    pub reply: Reply,
}

/// Nothing stands in the line.
#[derive(Clone, Copy, Debug)]
pub struct Empty;

impl Msg {
    /// A copy.
    pub fn try_clone(&self) -> Result<Msg, NoMemory>
        ensures { IfOk result (λ msg. message msg ≡ message self.now) }
    {
        Ok(match self {
            Msg::Chunk(bucket, page) => Msg::Chunk(*bucket, page.try_clone()?),
            Msg::Last(bucket) => Msg::Last(*bucket),
            Msg::Stat(bucket) => Msg::Stat(*bucket),
        })
    }
}

impl Posted {
    /// A copy.
    pub fn try_clone(&self) -> Result<Posted, NoMemory>
        ensures { IfOk result (λ posted. sent posted ≡ sent self.now) }
    {
        Ok(Posted {
            sync: self.sync,
            msg: self.msg.try_clone()?,
        })
    }
}
