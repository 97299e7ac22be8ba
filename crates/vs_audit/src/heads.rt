//! What the first lines of a report and of a history say.

/// How many sets and buckets there are.
#[derive(Clone, Copy)]
pub(crate) struct Size {
    pub sets: u32,
    pub buckets: u32,
}

/// A bucket, and how many lines of each kind its history has.
#[derive(Clone, Copy)]
pub(crate) struct Head {
    pub bucket: u32,
    pub rows: u64,
    pub writes: u64,
    pub reads: u64,
}
