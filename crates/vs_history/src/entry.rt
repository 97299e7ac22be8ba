//! Entries of a history.

ghost use Rattle.std.specs.Prelude.{◌≡◌, IfOk};

use vs_base::{CallId, NoMemory};
use vs_rows::{Answers, Ops, copy_answers};

/// A call that acted on the bucket.
#[derive(Drop)]
pub struct Entry {
    pub id: CallId,
    pub ops: Ops,
    pub answers: Answers,
    pub place: u64,
}

impl Entry {
    ghost use Rattle.vs_history.specs.History.{entry};

    pub fn try_clone(&self) -> Result<Entry, NoMemory>
        ensures { IfOk result (λ copy. entry copy ≡ entry self.now) }
    {
        let ops = self.ops.try_clone()?;
        let answers = copy_answers(self.answers.allocator(), &self.answers)?;
        Ok(Entry {
            id: self.id,
            ops,
            answers,
            place: self.place,
        })
    }
}
