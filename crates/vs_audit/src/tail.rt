//! What follows the name of a cause or of an outcome.

ghost use Rattle.std.specs.Prelude.{◌≡◌};
ghost use Rattle.vs_audit.specs.Given.{MayFollow};
ghost use Rattle.vs_audit.specs.Outcomes.{is_lone, is_paired, set_at, status_at, maybe_status_at, found_status_at, maybe_set_at, tail_at, named_at, cause_tail, refusal_tail, abort_tail, ending_tail, ending_at};

use crate::line_fault::LineFault;
use crate::words::Words;
use vs_text::number_between;

/// What follows a name.
#[derive(Clone, Copy)]
pub(crate) enum Tail {
    Nothing,
    Set,
    /// Nothing, or a set.
    MaybeSet,
    /// A number of 32 bits.
    Count,
    /// `none`, or a status.
    MaybeStatus,
    /// `0`, or `1` and a status.
    FoundStatus,
}

fn set(words: &mut Words, sets: u32) -> Result<(), LineFault>
    ensures { MayFollow result words.new (set_at sets words.old) }
{
    words.number(1, u64::from(sets))?;
    Ok(())
}

fn is_lone(word: &[u8]) -> bool
    ensures { result ≡ is_lone word.now }
{
    word == b"active".as_slice() || word == b"pinned".as_slice() || word == b"garbage".as_slice()
}

fn is_paired(word: &[u8]) -> bool
    ensures { result ≡ is_paired word.now }
{
    word == b"sending".as_slice() || word == b"receiving".as_slice() || word == b"sent".as_slice()
}

/// A status of a bucket, over so many sets.
pub(crate) fn status(words: &mut Words, sets: u32) -> Result<(), LineFault>
    ensures { MayFollow result words.new (status_at sets words.old) }
{
    let word = words.word()?;
    if is_lone(word) {
        return Ok(());
    }
    if !is_paired(word) {
        return Err(LineFault::Bad);
    }
    set(words, sets)
}

fn maybe_set(words: &mut Words, sets: u32) -> Result<(), LineFault>
    ensures { MayFollow result words.new (maybe_set_at sets words.old) }
{
    match words.next() {
        Some(word) => match number_between(word, 1, u64::from(sets)) {
            Some(_) => Ok(()),
            None => Err(LineFault::Bad),
        },
        None => Ok(()),
    }
}

fn maybe_status(words: &mut Words, sets: u32) -> Result<(), LineFault>
    ensures { MayFollow result words.new (maybe_status_at sets words.old) }
{
    if words.passes_word(b"none") {
        return Ok(());
    }
    status(words, sets)
}

fn found_status(words: &mut Words, sets: u32) -> Result<(), LineFault>
    ensures { MayFollow result words.new (found_status_at sets words.old) }
{
    let flag = words.number(0, 1)?;
    if flag == 0 {
        return Ok(());
    }
    status(words, sets)
}

impl Tail {
    /// Why a call was given up.
    fn of_cause(word: &[u8]) -> Option<Tail>
        ensures { result ≡ cause_tail word.now }
    {
        match word {
            b"wrong" => Some(Tail::MaybeSet),
            b"transfer" => Some(Tail::Set),
            b"locked" => Some(Tail::Nothing),
            b"down" => Some(Tail::Nothing),
            _ => None,
        }
    }

    /// Why a send was refused.
    fn of_refusal(word: &[u8]) -> Option<Tail>
        ensures { result ≡ refusal_tail word.now }
    {
        match word {
            b"self" => Some(Tail::Nothing),
            b"down" => Some(Tail::Set),
            b"status" => Some(Tail::MaybeStatus),
            b"pinned" => Some(Tail::Nothing),
            b"setlocked" => Some(Tail::Set),
            b"locked" => Some(Tail::Nothing),
            _ => None,
        }
    }

    /// Why a send was given up.
    fn of_abort(word: &[u8]) -> Option<Tail>
        ensures { result ≡ abort_tail word.now }
    {
        match word {
            b"drained" => Some(Tail::Nothing),
            b"closed" => Some(Tail::Nothing),
            b"setdown" => Some(Tail::Set),
            b"stopped" => Some(Tail::Nothing),
            b"setlocked" => Some(Tail::Nothing),
            b"receiving" => Some(Tail::Count),
            b"sender" => Some(Tail::Set),
            b"wrong" => Some(Tail::FoundStatus),
            _ => None,
        }
    }

    /// The other outcomes of a command.
    fn of_ending(word: &[u8]) -> Option<Tail>
        ensures { result ≡ ending_tail word.now }
    {
        match word {
            b"moved" => Some(Tail::Nothing),
            b"done" => Some(Tail::Nothing),
            b"late" => Some(Tail::Nothing),
            b"wasdown" => Some(Tail::Nothing),
            b"wasup" => Some(Tail::Nothing),
            b"open" => Some(Tail::Nothing),
            b"balanced" => Some(Tail::Count),
            b"stuck" => Some(Tail::Count),
            _ => None,
        }
    }

    /// Passes over what is of this kind, over so many sets.
    fn pass(self, words: &mut Words, sets: u32) -> Result<(), LineFault>
        ensures { MayFollow result words.new (tail_at sets self words.old) }
    {
        match self {
            Tail::Nothing => Ok(()),
            Tail::Set => set(words, sets),
            Tail::MaybeSet => maybe_set(words, sets),
            Tail::Count => {
                words.count()?;
                Ok(())
            }
            Tail::MaybeStatus => maybe_status(words, sets),
            Tail::FoundStatus => found_status(words, sets),
        }
    }
}

/// Why a call was given up, over so many sets.
pub(crate) fn cause(words: &mut Words, sets: u32) -> Result<(), LineFault>
    ensures { MayFollow result words.new (named_at cause_tail sets words.old) }
{
    let word = words.word()?;
    match Tail::of_cause(word) {
        Some(tail) => tail.pass(words, sets),
        None => Err(LineFault::Bad),
    }
}

fn refusal(words: &mut Words, sets: u32) -> Result<(), LineFault>
    ensures { MayFollow result words.new (named_at refusal_tail sets words.old) }
{
    let word = words.word()?;
    match Tail::of_refusal(word) {
        Some(tail) => tail.pass(words, sets),
        None => Err(LineFault::Bad),
    }
}

fn abort(words: &mut Words, sets: u32) -> Result<(), LineFault>
    ensures { MayFollow result words.new (named_at abort_tail sets words.old) }
{
    let word = words.word()?;
    match Tail::of_abort(word) {
        Some(tail) => tail.pass(words, sets),
        None => Err(LineFault::Bad),
    }
}

/// What became of a command, over so many sets.
pub(crate) fn ending(words: &mut Words, sets: u32) -> Result<(), LineFault>
    ensures { MayFollow result words.new (ending_at sets words.old) }
{
    let word = words.word()?;
    if word == b"refused".as_slice() {
        return refusal(words, sets);
    }
    if word == b"aborted".as_slice() {
        return abort(words, sets);
    }
    match Tail::of_ending(word) {
        Some(tail) => tail.pass(words, sets),
        None => Err(LineFault::Bad),
    }
}
