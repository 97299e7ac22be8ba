//! What a message that was taken did.

/// What a message that was taken did.
#[derive(Clone, Copy)]
pub enum Took {
    /// The first rows came: the bucket is now being received from the sender.
    Created,
    /// More rows came.
    Added,
    /// All rows are here: the bucket is now active.
    Activated,
}
