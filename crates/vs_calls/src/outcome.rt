//! What calls were answered.

use vs_base::Items;
use vs_rows::Answers;
use vs_space::Cause;

/// What a call was answered.
#[derive(Drop)]
pub enum Outcome {
    /// It acted at this place of its bucket's history, with these answers.
    Reply(u64, Answers),
    /// It was cut, or its set went down.
    Lost,
    /// Each of its tries was refused, the last for this cause.
    Spent(Cause),
}

/// The outcomes of a client's calls, in order.
pub type Outcomes = Items<Outcome>;
