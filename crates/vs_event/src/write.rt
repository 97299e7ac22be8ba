//! Events as text.

ghost use Rattle.std.specs.Prelude.{◌≡◌, ◌≤◌, ◌∷◌, [], ◌++◌, length, decimal, OnOk, IfOk};
ghost use Rattle.std.specs.List.{join_with_byte};
ghost use Rattle.vs_event.specs.declared.event.Event.TheVariants as event;
ghost use Rattle.vs_event.specs.Adds.{Adds, line_room};
ghost use Rattle.vs_event.specs.Event.{AreEvents, IsEvent, event_line, events_text, kept_word, restart_words};
ghost use Rattle.vs_event.specs.Recorded.{recorded_words};

use crate::buffer::TextBuffer;
use crate::event::{Event, Recorded, RestartBy};
use crate::trace::Trace;
use std::alloc::Global;
use vs_base::{BucketId, ClientNo, NoMemory, OpNo, SetNo};

/// How many bytes of room suffice for the line of any event.
pub(crate) const LONGEST_LINE: usize = 100;

// A line is written into a buffer with room for it: a first word has at most 7 bytes, a number 20.

fn put_one(out: &mut TextBuffer, verb: &[u8], number: u64)
    requires verb { length verb.now ≤ 7 }
    requires room { 28 ≤ out.old.room }
    ensures { Adds 28 out.old out.new (join_with_byte 32 (verb.now ∷ decimal number ∷ [])) }
{
    out.put(verb);
    out.put(b" ");
    out.put_number(number);
}

fn put_two(out: &mut TextBuffer, verb: &[u8], first: u64, last: u64)
    requires verb { length verb.now ≤ 7 }
    requires room { 49 ≤ out.old.room }
    ensures { Adds 49 out.old out.new
        (join_with_byte 32 (verb.now ∷ decimal first ∷ decimal last ∷ [])) }
{
    put_one(out, verb, first);
    out.put(b" ");
    out.put_number(last);
}

fn put_client(out: &mut TextBuffer, verb: &[u8], client: ClientNo)
    requires verb { length verb.now ≤ 7 }
    requires room { 28 ≤ out.old.room }
    ensures { Adds 28 out.old out.new (join_with_byte 32 (verb.now ∷ decimal client ∷ [])) }
{
    put_one(out, verb, u64::from(client.get()));
}

fn put_operator(out: &mut TextBuffer, verb: &[u8], operator: OpNo)
    requires verb { length verb.now ≤ 7 }
    requires room { 28 ≤ out.old.room }
    ensures { Adds 28 out.old out.new (join_with_byte 32 (verb.now ∷ decimal operator ∷ [])) }
{
    put_one(out, verb, u64::from(operator.get()));
}

fn put_bucket(out: &mut TextBuffer, verb: &[u8], set: SetNo, bucket: BucketId)
    requires verb { length verb.now ≤ 7 }
    requires room { 49 ≤ out.old.room }
    ensures { Adds 49 out.old out.new
        (join_with_byte 32 (verb.now ∷ decimal set ∷ decimal bucket ∷ [])) }
{
    put_two(out, verb, u64::from(set.get()), u64::from(bucket.get()));
}

fn put_sets(out: &mut TextBuffer, verb: &[u8], first: SetNo, last: SetNo)
    requires verb { length verb.now ≤ 7 }
    requires room { 49 ≤ out.old.room }
    ensures { Adds 49 out.old out.new
        (join_with_byte 32 (verb.now ∷ decimal first ∷ decimal last ∷ [])) }
{
    put_two(out, verb, u64::from(first.get()), u64::from(last.get()));
}

fn put_post(out: &mut TextBuffer, client: ClientNo, set: SetNo)
    requires { 49 ≤ out.old.room }
    ensures { Adds 49 out.old out.new (event_line (event.Post client set)) }
{
    put_two(out, b"post", u64::from(client.get()), u64::from(set.get()));
}

fn put_haul(out: &mut TextBuffer, operator: OpNo, from: SetNo, to: SetNo)
    requires { 70 ≤ out.old.room }
    ensures { Adds 70 out.old out.new (event_line (event.Haul operator from to)) }
{
    put_two(
        out,
        b"haul",
        u64::from(operator.get()),
        u64::from(from.get()),
    );
    out.put(b" ");
    out.put_number(u64::from(to.get()));
}

fn put_recorded(out: &mut TextBuffer, recorded: Recorded)
    requires { 49 ≤ out.old.room }
    ensures { Adds 49 out.old out.new (join_with_byte 32 (recorded_words recorded)) }
{
    match recorded {
        Recorded::Act(client) => put_client(out, b"act", client),
        Recorded::Freeze(set, bucket) => put_bucket(out, b"freeze", set, bucket),
        Recorded::Seal(set, bucket) => put_bucket(out, b"seal", set, bucket),
        Recorded::Deliver(from, to) => put_sets(out, b"deliver", from, to),
        Recorded::Hear(from, to) => put_sets(out, b"hear", from, to),
        Recorded::Condemn(set, bucket) => put_bucket(out, b"condemn", set, bucket),
        Recorded::Wipe(set, bucket) => put_bucket(out, b"wipe", set, bucket),
        Recorded::Forget(set, bucket) => put_bucket(out, b"forget", set, bucket),
        Recorded::Pin(operator) => put_operator(out, b"pin", operator),
    }
}

fn put_fault(out: &mut TextBuffer, set: SetNo, number: u64, recorded: Recorded)
    requires { 99 ≤ out.old.room }
    ensures { Adds 99 out.old out.new (event_line (event.Fault set number recorded)) }
{
    put_two(out, b"fault", u64::from(set.get()), number);
    out.put(b" ");
    put_recorded(out, recorded);
}

fn put_restart_by(out: &mut TextBuffer, by: RestartBy)
    requires { 28 ≤ out.old.room }
    ensures { Adds 28 out.old out.new (join_with_byte 32 (restart_words by)) }
{
    match by {
        RestartBy::Line(operator) => put_operator(out, b"line", operator),
        RestartBy::Service => out.put(b"service"),
    }
}

fn kept_word(kept: bool) -> &'static [u8]
    ensures word { result.now ≡ kept_word kept }
    ensures short { length result.now ≤ 4 }
{
    if kept { b"kept" } else { b"bare" }
}

fn put_restart(out: &mut TextBuffer, set: SetNo, kept: bool, by: RestartBy)
    requires { 62 ≤ out.old.room }
    ensures { Adds 62 out.old out.new (event_line (event.Restart set kept by)) }
{
    put_one(out, b"restart", u64::from(set.get()));
    out.put(b" ");
    out.put(kept_word(kept));
    out.put(b" ");
    put_restart_by(out, by);
}

fn put_event(out: &mut TextBuffer, event: Event)
    requires { 99 ≤ out.old.room }
    ensures { Adds 99 out.old out.new (event_line event) }
{
    match event {
        Event::Post(client, set) => put_post(out, client, set),
        Event::Begin(client) => put_client(out, b"begin", client),
        Event::Act(client) => put_client(out, b"act", client),
        Event::End(client) => put_client(out, b"end", client),
        Event::Take(client) => put_client(out, b"take", client),
        Event::Cut(operator) => put_operator(out, b"cut", operator),
        Event::Start(operator) => put_operator(out, b"start", operator),
        Event::Haul(operator, from, to) => put_haul(out, operator, from, to),
        Event::NotYet(set, bucket) => put_bucket(out, b"notyet", set, bucket),
        Event::Freeze(set, bucket) => put_bucket(out, b"freeze", set, bucket),
        Event::Chunk(set, bucket) => put_bucket(out, b"chunk", set, bucket),
        Event::Seal(set, bucket) => put_bucket(out, b"seal", set, bucket),
        Event::Last(set, bucket) => put_bucket(out, b"last", set, bucket),
        Event::Abort(set, bucket) => put_bucket(out, b"abort", set, bucket),
        Event::EndMove(set, bucket) => put_bucket(out, b"endmove", set, bucket),
        Event::Deliver(from, to) => put_sets(out, b"deliver", from, to),
        Event::Hear(from, to) => put_sets(out, b"hear", from, to),
        Event::Close(operator) => put_operator(out, b"close", operator),
        Event::Ask(set, bucket) => put_bucket(out, b"ask", set, bucket),
        Event::Condemn(set, bucket) => put_bucket(out, b"condemn", set, bucket),
        Event::Wipe(set, bucket) => put_bucket(out, b"wipe", set, bucket),
        Event::Forget(set, bucket) => put_bucket(out, b"forget", set, bucket),
        Event::Pin(operator) => put_operator(out, b"pin", operator),
        Event::Plan(operator) => put_operator(out, b"plan", operator),
        Event::Stop(operator) => put_operator(out, b"stop", operator),
        Event::Fault(set, number, recorded) => put_fault(out, set, number, recorded),
        Event::Restart(set, kept, by) => put_restart(out, set, kept, by),
    }
}

/// Adds the line of an event.
pub(crate) fn put_line(out: &mut TextBuffer, event: Event)
    requires { line_room ≤ out.old.room }
    ensures text { Adds line_room out.old out.new (event_line event ++ 10 ∷ []) }
    ensures is_event { IsEvent event }
{
    put_event(out, event);
    out.put(b"\n");
}

/// The text of events, one a line: its words are separated by one space, and each line is ended by
/// a line feed.
pub fn write_events(alloc: Global, trace: &Trace) -> Result<Vec<u8>, NoMemory>
    ensures text { IfOk result (λ text. text.items ≡ events_text trace.now.items) }

    // So the text is one that `read_events` reads again.
    ensures are_events { OnOk result (AreEvents trace.now.items) }
{
    let mut out = TextBuffer::new(alloc);
    for event in trace.as_slice() {
        out.reserve(LONGEST_LINE)?;
        put_line(&mut out, *event);
    }
    Ok(out.into_vec())
}
