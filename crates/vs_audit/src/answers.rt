//! The answers of an entry or of a reply, from the words of its line.

ghost use Rattle.std.specs.Prelude.{◌≡◌, ◌≤◌, IfOk, true, codes};
ghost use Rattle.std.specs.Str.{bytes_eq};
ghost use Rattle.vs_rows.specs.RowMap.{IsRising};
ghost use Rattle.vs_rows.specs.Said.{said, said_all};
ghost use Rattle.vs_audit.specs.Given.{MayTake};
ghost use Rattle.vs_audit.specs.Operations.{is_above, pair_at, pairs_at, answer_at, answer_of, answers_at};

use crate::answer_word::AnswerWord;
use crate::line_fault::LineFault;
use crate::words::Words;
use std::alloc::Global;
use vs_rows::{Answer, Answers, Key, Page, Val};

/// The most answers: one for each operation.
const MOST_ANSWERS: usize = 16;

/// Whether a key is above those of rows that rise.
pub(crate) fn is_above(rows: &[(Key, Val)], key: &Key) -> bool
    requires { IsRising rows.now }
    ensures { result ≡ is_above rows.now key.now }
{
    match rows.last() {
        Some((last, _)) => *last < *key,
        None => true,
    }
}

/// A key and a value, above the rows before it.
pub(crate) fn pair(
    alloc: Global,
    rows: &[(Key, Val)],
    words: &mut Words,
) -> Result<(Key, Val), LineFault>
    requires { IsRising rows.now }
    ensures read { MayTake (λ x. x) result words.new (pair_at rows.now words.old) }
    ensures above { IfOk result (λ row. is_above rows.now row.0 ≡ true) }
{
    let key = words.key(alloc)?;
    let value = words.value(alloc)?;
    if is_above(rows, &key) {
        Ok((key, value))
    } else {
        Err(LineFault::Bad)
    }
}

/// So many pairs.
fn pairs(alloc: Global, count: u64, words: &mut Words) -> Result<Page, LineFault>
    requires { count ≤ 1000 }
    ensures { MayTake (λ page. page.items) result words.new (pairs_at count words.old) }
{
    let mut page = Page::new(alloc);
    for n in 0..count {
        page.reserve()?;
        let pair = pair(alloc, page.as_slice(), words)?;
        page.push(pair);
    }
    Ok(page)
}

/// The answer of this word, whose value, number or pairs are the next words.
fn of_word(alloc: Global, name: AnswerWord, words: &mut Words) -> Result<Answer, LineFault>
    ensures { MayTake said result words.new (answer_of name words.old) }
{
    match name {
        AnswerWord::Value => Ok(Answer::Value(words.value(alloc)?)),
        AnswerWord::NoValue => Ok(Answer::NoValue),
        AnswerWord::Done => Ok(Answer::Done),
        AnswerWord::Exists => Ok(Answer::Exists),
        AnswerWord::Differs => Ok(Answer::Differs),
        AnswerWord::Number => Ok(Answer::Number(words.any_number()?)),
        AnswerWord::Pairs => {
            let count = words.number(0, Page::MAX as u64)?;
            Ok(Answer::Pairs(pairs(alloc, count, words)?))
        }
    }
}

fn answer(alloc: Global, words: &mut Words) -> Result<Answer, LineFault>
    ensures { MayTake said result words.new (answer_at words.old) }
{
    let word = words.word()?;
    match AnswerWord::of(word) {
        Some(name) => of_word(alloc, name, words),
        None => Err(LineFault::Bad),
    }
}

/// Whether another answer follows.
fn is_next(mark: &[u8]) -> bool
    ensures { result ≡ bytes_eq mark.now (codes ";") }
{
    mark == b";".as_slice()
}

/// The answers, which are all the words that are left.
pub(crate) fn answers(alloc: Global, words: &mut Words) -> Result<Answers, LineFault>
    ensures { MayTake (λ answers. said_all answers.items) result words.new (answers_at 16 words.old) }
{
    let mut answers = Answers::new(alloc);
    let first = answer(alloc, words)?;
    answers.reserve()?;
    answers.push(first);
    while let Some(mark) = words.next() {
        if !is_next(mark) {
            return Err(LineFault::Bad);
        }
        if answers.len() == MOST_ANSWERS {
            return Err(LineFault::Bad);
        }
        let next = answer(alloc, words)?;
        answers.reserve()?;
        answers.push(next);
    }
    Ok(answers)
}
