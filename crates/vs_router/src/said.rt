//! What sets say of a bucket.

ghost use Rattle.std.specs.Prelude.{◌≡◌, ◌&&◌};

use vs_base::SetNo;

/// What a set says of a bucket: whether the set is up, and whether it serves the bucket.
#[derive(Clone, Copy)]
pub struct SetSaid {
    pub set: SetNo,
    pub up: bool,
    pub serves: bool,
}

impl SetSaid {
    /// Whether the set is up and serves the bucket.
    pub fn grants(self) -> bool
        ensures { result ≡ (self.up && self.serves) }
    {
        self.up && self.serves
    }
}
