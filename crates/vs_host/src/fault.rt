//! Why a call of a host was refused.

/// Why a file was not read.
#[derive(Clone, Copy, Debug, PartialEq, Eq)]
pub enum HostRead {
    /// The file isn't there, or reading it failed. The count of read faults has risen.
    Failed,
    /// The file is longer than the caller's limit.
    TooLong,
    /// Memory for the bytes was refused.
    NoMemory,
}

/// A text was not put out or logged, or only a front of it. The count of write faults has risen.
#[derive(Clone, Copy, Debug)]
pub struct HostFailed;
