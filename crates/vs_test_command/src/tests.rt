//! Words of every command, and words that are none.

use std::alloc::{AllocError, Global};
use std::process::Abort;
use vs_base::Items;
use vs_command::{Command, LONGEST_USAGE, Verbs, command_of, put_usage};

const NONE: Verbs = Verbs {
    run: false,
    play: false,
    generate: false,
    reads: false,
    plan: false,
    audit: false,
    info: false,
};

const ALL: Verbs = Verbs {
    run: true,
    play: true,
    generate: true,
    reads: true,
    plan: true,
    audit: true,
    info: true,
};

/// Words, and what is told of their command. Of words that are none nothing is told.
const TABLE: [(&[&str], &str); 42] = [
    (&["run", "c"], "run c"),
    (&["run", "c", "f", "g"], "run c f g"),
    (&["run", "c", "run", "c"], "run c run c"),
    (&["play", "c", "e"], "play c e"),
    (&["play", "c", "e", "g", "f"], "play c e g f"),
    (&["gen", "0"], "gen 0"),
    (&["gen", "007"], "gen 7"),
    (&["gen", "999999999"], "gen 999999999"),
    (&["reads", "c", "r", "f"], "reads c r f"),
    (&["plan", "c", "n"], "plan c n"),
    (&["audit", "r"], "audit r"),
    (&["info", "c"], "info c"),
    (&["info", "a b=-"], "info a b=-"),
    (&[], ""),
    (&[""], ""),
    (&["run"], ""),
    (&["run", ""], ""),
    (&["run", "c", ""], ""),
    (&["run", "-c"], ""),
    (&["run", "c", "-"], ""),
    (&["run", "c", "--", "f"], ""),
    (&["run", "--help"], ""),
    (&["run", "c", "-h"], ""),
    (&["play"], ""),
    (&["play", "c"], ""),
    (&["play", "c", "e", "-f"], ""),
    (&["gen"], ""),
    (&["gen", "1234567890"], ""),
    (&["gen", "+1"], ""),
    (&["gen", "1a"], ""),
    (&["gen", "1", "2"], ""),
    (&["reads", "c", "r"], ""),
    (&["plan", "c"], ""),
    (&["plan", "c", "n", "m"], ""),
    (&["audit"], ""),
    (&["audit", "r", "s"], ""),
    (&["info"], ""),
    (&["info", "c", "d"], ""),
    (&["help"], ""),
    (&["ru", "c"], ""),
    (&["runs", "c"], ""),
    (&["-V"], ""),
];

/// The verb, whether one file more than these is taken, and the most files.
const MOST: [(&str, usize, usize); 3] = [("run", 1, 80), ("play", 2, 80), ("reads", 2, 64)];

fn with_files(mut text: String, files: &[String]) -> Result<String, AllocError> {
    for file in files {
        text.push_str(" ")?;
        text.push_str(file.as_str())?;
    }
    Ok(text)
}

fn told(alloc: Global, command: &Command) -> Result<String, AllocError> {
    match command {
        Command::Run { config, files } => with_files(format!(in alloc; "run {config}")?, files),
        Command::Play {
            config,
            events,
            files,
        } => with_files(format!(in alloc; "play {config} {events}")?, files),
        Command::Gen(number) => format!(in alloc; "gen {number}"),
        Command::Reads {
            config,
            rows,
            files,
        } => with_files(format!(in alloc; "reads {config} {rows}")?, files),
        Command::Plan { config, counts } => format!(in alloc; "plan {config} {counts}"),
        Command::Audit { report } => format!(in alloc; "audit {report}"),
        Command::Info { config } => format!(in alloc; "info {config}"),
    }
}

fn owned(alloc: Global, words: &[&str]) -> Result<Vec<String>, AllocError> {
    let mut list = Vec::new(alloc);
    for word in words {
        list.push(String::from_str(alloc, word)?)?;
    }
    Ok(list)
}

/// The verb with so many words after it.
fn many(alloc: Global, verb: &str, count: usize) -> Result<Vec<String>, AllocError> {
    let mut words = Vec::new(alloc);
    words.push(String::from_str(alloc, verb)?)?;
    for _ in 0..count {
        words.push(String::from_str(alloc, "f")?)?;
    }
    Ok(words)
}

fn is_command<R: Abort>(rt: &R, alloc: Global, verbs: Verbs, words: &[String]) -> bool {
    command_of(alloc, verbs, words)
        .expect(rt, "memory for the words")
        .is_some()
}

fn usage(alloc: Global, verbs: Verbs) -> Items<u8> {
    let mut line = Items::new(alloc);
    if line.reserve_many(LONGEST_USAGE).is_ok() {
        put_usage(&mut line, verbs);
    }
    line
}

#[test]
fn words_are_a_command_or_none(rt: HostRuntime) -> Result<(), AllocError> {
    let alloc = rt.alloc();
    for (words, want) in TABLE {
        let words = owned(alloc, words)?;
        let found = command_of(alloc, ALL, &words).expect(&rt, "memory for the words");
        let text = match found {
            Some(command) => told(alloc, &command)?,
            None => String::new(alloc),
        };
        assert_eq!(rt; text.as_str(), want);
        assert!(rt; !is_command(&rt, alloc, NONE, &words));
    }
    for (verb, needed, most) in MOST {
        let words = many(alloc, verb, needed + most)?;
        assert!(rt; is_command(&rt, alloc, ALL, &words));
        let words = many(alloc, verb, needed + most + 1)?;
        assert!(rt; !is_command(&rt, alloc, ALL, &words));
    }
    let line = usage(alloc, NONE);
    assert_eq!(rt;
        line.as_slice(),
        b"vshard: usage: run CONFIG FILE... | play CONFIG EVENTS FILE... | gen NUMBER\n".as_slice()
    );
    let line = usage(alloc, ALL);
    assert_eq!(rt;
        line.as_slice(),
        b"vshard: usage: run CONFIG FILE... | play CONFIG EVENTS FILE... | gen NUMBER | reads CONFIG ROWS FILE... | plan CONFIG COUNTS | audit REPORT | info CONFIG\n".as_slice()
    );
    Ok(())
}
