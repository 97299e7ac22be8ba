//! What operations answer.

ghost use Rattle.std.specs.Prelude.{◌≡◌, IfOk};

use crate::page::Page;
use crate::val::Val;
use std::alloc::Global;
use vs_base::{Items, NoMemory};

/// What an operation answers.
#[derive(Drop)]
pub enum Answer {
    /// The value of the key.
    Value(Val),
    /// The key isn't there.
    NoValue,
    /// It is done.
    Done,
    /// Nothing is inserted, since the key is there.
    Exists,
    /// Nothing is swapped, since the value is another one.
    Differs,
    /// The number of rows.
    Number(u64),
    /// The rows that a scan found.
    Pairs(Page),
}

/// Answers, one for each operation.
pub type Answers = Items<Answer>;

impl Answer {
    ghost use Rattle.vs_rows.specs.Said.{said};

    pub fn try_clone(&self) -> Result<Answer, NoMemory>
        ensures { IfOk result (λ answer. said answer ≡ said self.now) }
    {
        match self {
            Answer::Value(value) => Ok(Answer::Value(value.try_clone()?)),
            Answer::NoValue => Ok(Answer::NoValue),
            Answer::Done => Ok(Answer::Done),
            Answer::Exists => Ok(Answer::Exists),
            Answer::Differs => Ok(Answer::Differs),
            Answer::Number(n) => Ok(Answer::Number(*n)),
            Answer::Pairs(page) => Ok(Answer::Pairs(page.try_clone()?)),
        }
    }
}

ghost use Rattle.vs_rows.specs.Said.{said_all};

/// A list of answers that say the same.
pub fn copy_answers(alloc: Global, answers: &Answers) -> Result<Answers, NoMemory>
    ensures { IfOk result (λ copied. said_all copied.items ≡ said_all answers.now.items) }
{
    let mut copied = Items::new(alloc);
    copied.reserve_many(answers.len())?;
    for answer in answers.as_slice() {
        copied.push(answer.try_clone()?);
    }
    Ok(copied)
}
