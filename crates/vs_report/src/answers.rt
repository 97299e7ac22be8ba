//! What operations answer.

ghost use Rattle.std.specs.Prelude.{OnOk};
ghost use Rattle.vs_rows.specs.Said.{said, said_all};
ghost use Rattle.vs_machine.specs.Report.{pairs_text, answer_text, answers_text};
ghost use Rattle.vs_report.specs.Adds.{Adds};

use crate::words::{put_number, put_text, put_word};
use vs_base::NoMemory;
use vs_rows::{Answer, Key, Val};

fn put_pairs(out: &mut Vec<u8>, pairs: &[(Key, Val)]) -> Result<(), NoMemory>
    ensures { OnOk result (Adds out.old out.new (pairs_text pairs.now)) }
{
    for (key, value) in pairs {
        put_word(out, key.as_bytes())?;
        put_word(out, value.as_bytes())?;
    }
    Ok(())
}

fn put_answer(out: &mut Vec<u8>, answer: &Answer) -> Result<(), NoMemory>
    ensures { OnOk result (Adds out.old out.new (answer_text (said answer.now))) }
{
    match answer {
        Answer::Value(value) => {
            put_text(out, b"value")?;
            put_word(out, value.as_bytes())
        }
        Answer::NoValue => put_text(out, b"none"),
        Answer::Done => put_text(out, b"done"),
        Answer::Exists => put_text(out, b"exists"),
        Answer::Differs => put_text(out, b"differs"),
        Answer::Number(n) => {
            put_text(out, b"number")?;
            put_number(out, *n)
        }
        Answer::Pairs(page) => {
            let pairs = page.as_slice();
            put_text(out, b"pairs")?;
            put_number(out, pairs.len() as u64)?;
            put_pairs(out, pairs)
        }
    }
}

/// Appends answers, with ` ; ` between them.
pub fn put_answers(out: &mut Vec<u8>, answers: &[Answer]) -> Result<(), NoMemory>
    ensures { OnOk result (Adds out.old out.new (answers_text (said_all answers.now))) }
{
    if let [first, rest @ ..] = answers {
        put_answer(out, first)?;
        for answer in rest {
            put_text(out, b" ; ")?;
            put_answer(out, answer)?;
        }
    }
    Ok(())
}
