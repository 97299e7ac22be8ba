//! Events from their text.

ghost use Rattle.std.specs.Prelude.{List, ◌≡◌, ◌∷◌, IfOk, IfErr};
ghost use Rattle.vs_text.specs.Number.{Reads};
ghost use Rattle.vs_text.specs.Split.{words_of};
ghost use Rattle.vs_event.specs.declared.event.Event.{Event};
ghost use Rattle.vs_event.specs.Event.{IsEvent, AreEvents, event_words, events_text};
ghost use Rattle.vs_event.specs.Fault.{IsFaultOf, Gives};
ghost use Rattle.vs_event.specs.Reading.{ReadsSingle, ReadsPair, ReadsHaul, ReadsRestart, ReadsFault, IsShort, IsLong};
ghost use Rattle.vs_event.specs.Recorded.{IsRecorded, recorded_words};

use crate::event::{Event, Recorded};
use crate::fault::EventFault;
use crate::fields::{bucket, client, kept, last_set, operator, restart_by, set};
use crate::trace::Trace;
use crate::verb::{Pair, Single};
use std::alloc::Global;
use vs_text::{next_line, number_between, split_once};

/// The event of one number that these words write.
fn single_event(verb: Single, word: &[u8]) -> Option<Event>
    ensures { ReadsSingle verb word.now result }
{
    match verb {
        Single::Begin => Some(Event::Begin(client(word)?)),
        Single::Act => Some(Event::Act(client(word)?)),
        Single::End => Some(Event::End(client(word)?)),
        Single::Take => Some(Event::Take(client(word)?)),
        Single::Cut => Some(Event::Cut(operator(word)?)),
        Single::Start => Some(Event::Start(operator(word)?)),
        Single::Close => Some(Event::Close(operator(word)?)),
        Single::Pin => Some(Event::Pin(operator(word)?)),
        Single::Plan => Some(Event::Plan(operator(word)?)),
        Single::Stop => Some(Event::Stop(operator(word)?)),
    }
}

/// The event of two numbers that these words write.
fn pair_event(verb: Pair, first: &[u8], last: &[u8]) -> Option<Event>
    ensures { ReadsPair verb first.now last.now result }
{
    match verb {
        Pair::Post => Some(Event::Post(client(first)?, set(last)?)),
        Pair::NotYet => Some(Event::NotYet(set(first)?, bucket(last)?)),
        Pair::Freeze => Some(Event::Freeze(set(first)?, bucket(last)?)),
        Pair::Chunk => Some(Event::Chunk(set(first)?, bucket(last)?)),
        Pair::Seal => Some(Event::Seal(set(first)?, bucket(last)?)),
        Pair::Last => Some(Event::Last(set(first)?, bucket(last)?)),
        Pair::Abort => Some(Event::Abort(set(first)?, bucket(last)?)),
        Pair::EndMove => Some(Event::EndMove(set(first)?, bucket(last)?)),
        Pair::Deliver => Some(Event::Deliver(set(first)?, set(last)?)),
        Pair::Hear => Some(Event::Hear(set(first)?, set(last)?)),
        Pair::Ask => Some(Event::Ask(set(first)?, bucket(last)?)),
        Pair::Condemn => Some(Event::Condemn(set(first)?, bucket(last)?)),
        Pair::Wipe => Some(Event::Wipe(set(first)?, bucket(last)?)),
        Pair::Forget => Some(Event::Forget(set(first)?, bucket(last)?)),
    }
}

fn haul(first: &[u8], second: &[u8], rest: &[u8]) -> Option<Event>
    ensures { ReadsHaul (first.now ∷ second.now ∷ words_of rest.now) result }
{
    Some(Event::Haul(operator(first)?, set(second)?, last_set(rest)?))
}

fn restart(first: &[u8], second: &[u8], rest: &[u8]) -> Option<Event>
    ensures { ReadsRestart (first.now ∷ second.now ∷ words_of rest.now) result }
{
    Some(Event::Restart(set(first)?, kept(second)?, restart_by(rest)?))
}

/// The event of one number, or of two.
fn short_event(verb: &[u8], fields: &[u8]) -> Option<Event>
    ensures { Reads IsShort event_words (verb.now ∷ words_of fields.now) result }
{
    match split_once(fields, b' ') {
        None => single_event(Single::of(verb)?, fields),
        Some((first, rest)) => match split_once(rest, b' ') {
            None => pair_event(Pair::of(verb)?, first, rest),
            Some(_) => None,
        },
    }
}

fn recorded(words: &[u8]) -> Option<Recorded>
    ensures { Reads IsRecorded recorded_words (words_of words.now) result }
{
    let (verb, fields) = split_once(words, b' ')?;
    match short_event(verb, fields) {
        Some(event) => event.recorded(),
        None => None,
    }
}

fn fault(first: &[u8], second: &[u8], rest: &[u8]) -> Option<Event>
    ensures { ReadsFault (first.now ∷ second.now ∷ words_of rest.now) result }
{
    Some(Event::Fault(
        set(first)?,
        number_between(second, 0, u64::MAX)?,
        recorded(rest)?,
    ))
}

/// The event of more words than those of two numbers.
fn long_event(verb: &[u8], fields: &[u8]) -> Option<Event>
    ensures { Reads IsLong event_words (verb.now ∷ words_of fields.now) result }
{
    let (first, rest) = split_once(fields, b' ')?;
    let (second, rest) = split_once(rest, b' ')?;
    match verb {
        b"haul" => haul(first, second, rest),
        b"fault" => fault(first, second, rest),
        b"restart" => restart(first, second, rest),
        _ => None,
    }
}

/// The event of a line.
fn event_of(line: &[u8]) -> Option<Event>
    ensures { Reads IsEvent event_words (words_of line.now) result }
{
    let (verb, fields) = split_once(line, b' ')?;
    match short_event(verb, fields) {
        Some(event) => Some(event),
        None => long_event(verb, fields),
    }
}

fn events_of(alloc: Global, text: &[u8]) -> Result<Trace, EventFault>
    ensures found { IfOk result (λ trace.
        AreEvents trace.items × (text.now ≡ events_text trace.items)) }
    ensures bad { IfErr result (λ fault. IsFaultOf text.now fault) }
{
    let mut trace = Trace::new(alloc);
    let mut rest = text;
    while let Some((line, more)) = next_line(rest) {
        let Some(event) = event_of(line) else {
            return Err(EventFault::BadEvent(trace.len() + 1));
        };
        trace.reserve()?;
        trace.push(event);
        rest = more;
    }
    if rest.is_empty() {
        Ok(trace)
    } else {
        Err(EventFault::BadEvent(trace.len() + 1))
    }
}

/// The events of a text, one a line: its words are separated by one space, and each line is ended
/// by a line feed. The empty text is that of no events.
pub fn read_events(alloc: Global, text: &[u8]) -> Result<Trace, EventFault>
    // What is read is spelled so.
    ensures found { IfOk result (λ trace.
        AreEvents trace.items × (text.now ≡ events_text trace.items)) }

    // What is spelled so is read, unless memory is wanted.
    ensures again { (events : List Event) → AreEvents events
        → text.now ≡ events_text events → Gives events result }

    // The first line that is no event's is told.
    ensures bad { IfErr result (λ fault. IsFaultOf text.now fault) }
{
    events_of(alloc, text)
}
