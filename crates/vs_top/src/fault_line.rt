//! The line that is logged with a fault.

ghost use Rattle.std.specs.Prelude.{◌≡◌, ◌⊎◌, ◌++◌, IfOk, OnOk};
ghost use Rattle.vs_inputs.specs.FaultLine as inputs;
ghost use Rattle.vs_top.specs.Logged.{IsEarly, IsTold, IsToldOr};
ghost use Rattle.vs_top.specs.Statuses.{fault_line, hyphenated, journal_words};

use crate::fault::Fault;
use std::alloc::Global;
use uuid::Uuid;
use vs_base::{BucketId, NoMemory, SetNo};
use vs_core::Placement;
use vs_event::Reason;
use vs_host::Host;
use vs_inputs::{InputFault, fault_buffer, put_fault};
use vs_report::{put_placement, put_reason};
use vs_store::StoreFault;
use vs_text::put_number;

const USAGE: &[u8] =
    b"vshard: usage: run CONFIG FILE... | play CONFIG EVENTS FILE... | gen NUMBER\n";

const WRITE: &[u8] = b"vshard: write\n";

const MEMORY: &[u8] = b"vshard: memory\n";

/// The line of an event that is impossible.
fn event_line(alloc: Global, number: u64, reason: &Reason) -> Result<Vec<u8>, NoMemory>
    ensures { IfOk result (λ line. line.items ≡ fault_line (Fault.Event number reason.now)) }
{
    let mut line = Vec::new(alloc);
    line.extend_from_slice(b"vshard: event ")?;
    put_number(&mut line, number)?;
    line.extend_from_slice(b": ")?;
    put_reason(&mut line, reason)?;
    line.push(b'\n')?;
    Ok(line)
}

/// The line of a fault of an input.
fn input_line(alloc: Global, fault: InputFault) -> Result<Vec<u8>, NoMemory>
    ensures { IfOk result (λ line. line.items ≡ inputs.fault_line fault) }
{
    let mut line = Vec::new(alloc);
    let mut buffer = fault_buffer(alloc)?;
    put_fault(&mut buffer, fault);
    line.extend_from_slice(buffer.as_slice())?;
    Ok(line)
}

/// Logs the line of a fault that takes no memory, and answers its status.
fn log_short<H: Host>(host: &mut H, fault: &Fault, line: &[u8]) -> u8
    requires { line.now ≡ fault_line fault.now }
    ensures { IsTold fault.now result (H.told host.old) (H.told host.new) }
{
    let _ = host.log(line);
    fault.status()
}

/// Logs the line of a fault, or that there is no memory for it, and answers the status.
fn log_long<H: Host>(host: &mut H, fault: &Fault, line: Result<Vec<u8>, NoMemory>) -> u8
    requires { IfOk line (λ line. line.items ≡ fault_line fault.now) }
    ensures { IsTold fault.now result (H.told host.old) (H.told host.new)
        ⊎ IsTold Fault.NoMemory result (H.told host.old) (H.told host.new) }
{
    match line {
        Ok(line) => log_short(host, fault, &line),
        Err(NoMemory) => log_short(host, &Fault::NoMemory, MEMORY),
    }
}

/// The line of a disk that failed.
fn disk_line(alloc: Global, set: SetNo) -> Result<Vec<u8>, NoMemory>
    ensures { IfOk result (λ line. line.items ≡ fault_line (Fault.Disk set)) }
{
    let mut line = Vec::new(alloc);
    line.extend_from_slice(b"vshard: disk ")?;
    put_number(&mut line, u64::from(set.get()))?;
    line.push(b'\n')?;
    Ok(line)
}

/// The line of a journal that is full.
fn full_line(alloc: Global, set: SetNo) -> Result<Vec<u8>, NoMemory>
    ensures { IfOk result (λ line. line.items ≡ fault_line (Fault.Full set)) }
{
    let mut line = Vec::new(alloc);
    line.extend_from_slice(b"vshard: full ")?;
    put_number(&mut line, u64::from(set.get()))?;
    line.push(b'\n')?;
    Ok(line)
}

/// Appends a uuid, hyphenated, in lower case.
fn put_uuid(out: &mut Vec<u8>, uuid: &Uuid) -> Result<(), NoMemory>
    ensures { OnOk result (out.new.items ≡ out.old.items ++ hyphenated uuid.now) }
{
    let mut text = [0; 36];
    out.extend_from_slice(uuid.hyphenated().encode_lower(&mut text).as_bytes())?;
    Ok(())
}

/// Appends what a journal is in place of the one of this uuid.
fn put_journal(out: &mut Vec<u8>, fault: StoreFault, wanted: &Uuid) -> Result<(), NoMemory>
    ensures { OnOk result (out.new.items ≡ out.old.items ++ journal_words fault wanted.now) }
{
    match fault {
        StoreFault::NotAJournal(place) => {
            out.extend_from_slice(b"NotAJournal ")?;
            put_number(out, place)?;
            Ok(())
        }
        StoreFault::OtherSet(found) => {
            out.extend_from_slice(b"OtherSet ")?;
            put_uuid(out, &found)?;
            out.extend_from_slice(b" ")?;
            put_uuid(out, wanted)
        }
        StoreFault::OtherCount(found) => {
            out.extend_from_slice(b"OtherCount ")?;
            put_number(out, u64::from(found))?;
            Ok(())
        }
        StoreFault::Full(_) | StoreFault::DiskFault | StoreFault::NoMemory => Ok(()),
    }
}

/// The line of a journal that was refused.
fn journal_line(
    alloc: Global,
    set: SetNo,
    fault: StoreFault,
    wanted: Uuid,
) -> Result<Vec<u8>, NoMemory>
    ensures { IfOk result (λ line. line.items ≡ fault_line (Fault.Journal set fault wanted)) }
{
    let mut line = Vec::new(alloc);
    line.extend_from_slice(b"vshard: journal ")?;
    put_number(&mut line, u64::from(set.get()))?;
    line.extend_from_slice(b": ")?;
    put_journal(&mut line, fault, &wanted)?;
    line.push(b'\n')?;
    Ok(line)
}

/// The line of a bucket in which the journals don't fit together.
fn incoherent_line(
    alloc: Global,
    bucket: BucketId,
    entries: &Placement,
) -> Result<Vec<u8>, NoMemory>
    ensures { IfOk result (λ line. line.items ≡ fault_line (Fault.Incoherent bucket entries.now)) }
{
    let mut line = Vec::new(alloc);
    line.extend_from_slice(b"vshard: incoherent ")?;
    put_placement(&mut line, bucket, entries.as_slice())?;
    line.push(b'\n')?;
    Ok(line)
}

/// The line of a fault that comes before anything is put out, with its line feed.
pub fn fault_text(alloc: Global, fault: &Fault) -> Result<Vec<u8>, NoMemory>
    requires { IsEarly fault.now }
    ensures { IfOk result (λ line. line.items ≡ fault_line fault.now) }
{
    match fault {
        Fault::Text(input, text) => input_line(alloc, InputFault::Text(*input, *text)),
        Fault::Event(number, reason) => event_line(alloc, *number, reason),
        Fault::Read(input) => input_line(alloc, InputFault::Read(*input)),
        Fault::Disk(set) => disk_line(alloc, *set),
        Fault::Journal(set, fault, wanted) => journal_line(alloc, *set, *fault, *wanted),
        Fault::Incoherent(bucket, entries) => incoherent_line(alloc, *bucket, entries),
        Fault::Full(set) => full_line(alloc, *set),
        Fault::Words | Fault::Write | Fault::NoMemory => unreachable!(),
    }
}

/// Logs the line of a fault, and answers the status. Where there is no memory for the line, that is told in its place.
pub fn log_fault<H: Host>(alloc: Global, host: &mut H, fault: &Fault) -> u8
    ensures { IsToldOr fault.now result (H.told host.old) (H.told host.new) }
{
    match fault {
        Fault::Words => log_short(host, fault, USAGE),
        Fault::Write => log_short(host, fault, WRITE),
        Fault::NoMemory => log_short(host, fault, MEMORY),
        fault => {
            let line = fault_text(alloc, fault);
            log_long(host, fault, line)
        }
    }
}

/// Logs the line of words that are no command, and answers the status.
pub fn log_usage<H: Host>(host: &mut H) -> u8
    ensures { IsTold Fault.Words result (H.told host.old) (H.told host.new) }
{
    log_short(host, &Fault::Words, USAGE)
}
