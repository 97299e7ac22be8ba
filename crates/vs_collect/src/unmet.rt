//! Why a step of a deletion isn't taken.

use vs_space::Status;

/// Why a step of a deletion isn't taken.
#[derive(Clone, Copy, Debug, PartialEq, Eq)]
pub enum Unmet {
    /// The bucket has another status than the one that the step needs: this one, or no entry.
    Unfit(Option<Status>),
    /// A transfer of the bucket is live.
    Live,
    /// So many reads of the bucket are running.
    Referenced(u32),
    /// No row is left.
    NoRows,
    /// So many rows are left.
    Rows(u64),
}
