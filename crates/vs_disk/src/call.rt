//! The calls of a disk in memory.

/// A call that a disk in memory has had.
#[derive(Drop)]
pub enum MemCall {
    /// One that wrote nothing, whether it failed or not.
    Quiet,
    /// A write at this place: all of its bytes, or those that it put down before it failed.
    Write(u64, Vec<u8>),
    /// A sync that succeeded.
    Sync,
}

/// A call that a disk in memory is to fail.
#[derive(Clone, Copy)]
pub struct FailingCall {
    /// How many calls go before it.
    pub call: u64,
    /// Where it is a write, how many of its bytes it puts down before it fails, at most.
    pub put: u64,
}
