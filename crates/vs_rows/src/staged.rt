//! What operations would change and answer.

ghost use Rattle.std.specs.Prelude.{◌≡◌, IfOk};
ghost use Rattle.vs_rows.specs.Said.{said_all};

use crate::answer::{Answers, copy_answers};
use crate::changes::Changes;
use vs_base::NoMemory;

/// What operations would change and answer. `Rows::stage` gives it, and `Rows::commit` makes the
/// changes.
#[derive(Drop)]
pub struct Staged {
    pub changes: Changes,
    pub answers: Answers,
}

impl Staged {
    pub fn try_clone(&self) -> Result<Staged, NoMemory>
        ensures changes { IfOk result (λ staged. staged.changes.items ≡ self.now.changes.items) }
        ensures answers { IfOk result (λ staged.
            said_all staged.answers.items ≡ said_all self.now.answers.items) }
    {
        let changes = self.changes.try_clone()?;
        let answers = copy_answers(self.answers.allocator(), &self.answers)?;
        Ok(Staged { changes, answers })
    }
}
