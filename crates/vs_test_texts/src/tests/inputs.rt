//! Reads that fail.

use std::alloc::{AllocError, Global};
use std::process::Abort;
use std::test::Fail;
use vs_base::NoMemory;
use vs_host::{MemHost, NamedFile};
use vs_inputs::{InputFault, Inputs, command_of, fault_buffer, put_fault, read_inputs};

const TWO_SETS: &str =
    "bucket_count = 4\n[[set]]\nuuid = \"00000000-0000-4000-8000-000000000001\"\n[[set]]\nuuid = \"00000000-0000-4000-8000-000000000002\"\n";

const EVENTS: &str = "act 1\n";

const CLIENT: &str = "client\nro 3 get a\n";

const BALANCES: &str = "operator\nstop 1\nbalance\n";

/// The texts, the number of the read that fails, where one does, and the line.
const TABLE: [(&[&str], u64, &str); 5] = [
    (&[TWO_SETS, EVENTS, BALANCES], 0, ""),
    (
        &[TWO_SETS, EVENTS, CLIENT, CLIENT],
        1,
        "vshard: read input 1\n",
    ),
    (
        &[TWO_SETS, EVENTS, CLIENT, CLIENT],
        2,
        "vshard: read input 2\n",
    ),
    (
        &[TWO_SETS, EVENTS, CLIENT, CLIENT],
        4,
        "vshard: read input 4\n",
    ),
    (&[TWO_SETS, EVENTS, CLIENT, CLIENT], 5, ""),
];

fn file(alloc: Global, place: usize, text: &str) -> Result<NamedFile, AllocError> {
    Ok(NamedFile {
        name: format!(in alloc; "{place}")?,
        bytes: Vec::from_slice(alloc, text.as_bytes())?,
    })
}

/// A host of these texts, whose files have their places as names. The call of this number, counted
/// from 1, fails.
fn host(alloc: Global, texts: &[&str], failing: u64) -> Result<MemHost, AllocError> {
    let mut files = Vec::new(alloc);
    for (i, text) in texts.iter().enumerate() {
        files.push(file(alloc, i + 1, text)?)?;
    }
    let mut calls = Vec::new(alloc);
    calls.push(failing)?;
    Ok(MemHost::new(alloc, files, calls))
}

/// The words of `play` with so many files.
fn words(alloc: Global, files: usize) -> Result<Vec<String>, AllocError> {
    let mut words = Vec::new(alloc);
    words.push(String::from_str(alloc, "play")?)?;
    for place in 1..=files {
        words.push(format!(in alloc; "{place}")?)?;
    }
    Ok(words)
}

/// The line of a fault, or nothing where there is none.
fn line_of(alloc: Global, read: Result<Inputs, InputFault>) -> Result<Vec<u8>, NoMemory> {
    let mut line = fault_buffer(alloc)?;
    if let Err(fault) = read {
        put_fault(&mut line, fault);
    }
    Ok(line.into_vec())
}

/// The line of the fault of these texts, and nothing where they are taken.
fn line(rt: &impl Abort, alloc: Global, texts: &[&str], failing: u64) -> Result<Vec<u8>, NoMemory> {
    let mut host = host(alloc, texts, failing)?;
    let words = words(alloc, texts.len())?;
    let command = command_of(&words).expect(rt, "the words of play");
    line_of(alloc, read_inputs(alloc, &mut host, &command.names))
}

#[test]
fn names_the_first_fault(rt: HostRuntime) -> Result<(), Fail> {
    for (texts, failing, wanted) in TABLE {
        let found = line(&rt, rt.alloc(), texts, failing)?;
        assert_eq!(rt; found.as_slice(), wanted.as_bytes(), "at {wanted}");
    }
    Ok(())
}
