//! A set that forces a number of waves.

use vs_base::SetNo;

/// A set that can't give or take what it has to in fewer waves.
#[derive(Clone, Copy, PartialEq)]
pub struct Forced {
    pub set: SetNo,
    /// Whether it gives buckets, or else takes them.
    pub gives: bool,
    /// How many it gives or takes in all.
    pub load: u32,
    /// How many it may give or take in one wave.
    pub limit: u32,
}
