//! The state that the bodies of a journal stand for.

ghost use Rattle.std.specs.Prelude.{◌≡◌, ◌≢◌, ◌↔◌, ◌+◌, ◌-◌, ◌<◌, ◌≤◌, ◌^◌, ℕ, [], Err, length, IsTrue, IfOk, IfErr, IsOkAnd, OnOk, OnErr};
ghost use Rattle.std.specs.Result.{IsErrOf};
ghost use Rattle.vs_disk.specs.Told.{IsOpen, Failed, Reads};
ghost use Rattle.vs_frame.specs.Head.{IsHead};
ghost use Rattle.vs_frame.specs.Journal.{begun};
ghost use Rattle.vs_frame.specs.Scan.{told_under, version_under, part_of, place_of, last_body, MayGoOn, HasBody, IsDone, HasRead};
ghost use Rattle.vs_frame.specs.Unwritten.{IsUnwritten};
ghost use Rattle.vs_record.specs.States.{durable, IsOfBuckets};
ghost use Rattle.vs_store.specs.Faults.{Gives, IsOfReading, IsRefusal};
ghost use Rattle.vs_store.specs.Replay.{number_in, count_in, IsReadAs};
ghost use Rattle.vs_store.specs.Standing.{stepped, change_with, state_of, of_set, opened};

use crate::fault::StoreFault;
use std::alloc::Global;
use vs_disk::Disk;
use vs_frame::{Head, Scan};
use vs_record::{RecordFault, SetState, read_change};

// How many bytes an entry takes beside its body.
const FRAMING: u64 = 5;

// Makes the change of a body that is to have this number, and whose gate stands at this place.
fn step(
    alloc: Global,
    state: &mut SetState,
    bucket_count: u32,
    gate: u64,
    number: Option<u64>,
    body: &[u8],
) -> Result<(), StoreFault>
    ensures { Gives (λ _. durable state.new) result
        (stepped bucket_count (durable state.old) gate (change_with number body.now)) }
{
    let version = if number.is_some() { 2 } else { 1 };
    let (found, change) = match read_change(alloc, body, version) {
        Ok(entry) => entry,
        Err(RecordFault::BadBody) => return Err(StoreFault::NotAJournal(gate)),
        Err(RecordFault::NoMemory) => return Err(StoreFault::NoMemory),
    };
    if found != number {
        return Err(StoreFault::NotAJournal(gate));
    }
    if !state.fits(&change, bucket_count) {
        return Err(StoreFault::NotAJournal(gate));
    }
    state.apply(alloc, change)?;
    Ok(())
}

// Makes the change of the last body read, and tells how many bodies of the second part there are
// then, where there were so many before.
fn add_body<D: Disk + Drop>(
    alloc: Global,
    scan: &Scan<D>,
    state: &mut SetState,
    bucket_count: u32,
    count: u64,
) -> Result<u64, StoreFault>
    requires body { HasBody scan.now }
    requires place { 5 + length (last_body scan.now) ≤ place_of scan.now }
    requires few { count + 36 ≤ place_of scan.now }
    ensures step { Gives (λ _. durable state.new) result
        (stepped bucket_count (durable state.old)
        (place_of scan.now - (5 + length (last_body scan.now)))
        (change_with (number_in (part_of scan.now) count) (last_body scan.now))) }
    ensures count { IfOk result (λ n. n ≡ count_in (part_of scan.now) count) }
{
    let body = scan.body();
    let place = scan.place();
    let gate = place - (FRAMING + body.len() as u64);
    if scan.part() == 2 {
        step(alloc, state, bucket_count, gate, Some(count + 1), body)?;
        return Ok(count + 1);
    }
    step(alloc, state, bucket_count, gate, None, body)?;
    Ok(count)
}

// Makes the changes of a journal's bodies as they come, from the buckets that it begins with. It
// tells how many bodies the second part has.
fn replay<D: Disk + Drop>(
    alloc: Global,
    scan: &mut Scan<D>,
    head: &Head,
) -> Result<(SetState, u64), StoreFault>
    requires going { MayGoOn scan.old }
    requires head { IsHead head.now }
    requires begun { HasRead scan.old (begun head.now (version_under scan.old)) }
    ensures done { OnOk result (IsDone scan.new) }
    ensures few { IfOk result (λ r. r.1 + 36 ≤ place_of scan.new) }
    ensures within { IfOk result (λ r. IsOfBuckets head.now.bucket_count r.0) }
    ensures stands { IfOk result (λ r. Reads (told_under scan.old) (λ file.
        IsOkAnd (state_of file) (λ s. IsReadAs (place_of scan.new) r.1 (version_under scan.old)
        (durable r.0) s × (s.journal.head ≡ head.now)))) }
    ensures refused { IfErr result (λ e. (place : ℕ) → e ≡ StoreFault.NotAJournal place
        → Reads (told_under scan.old) (λ file. state_of file ≡ Err place)) }
    ensures version { version_under scan.new ≡ version_under scan.old }
    ensures unwritten { IsUnwritten (told_under scan.old) (told_under scan.new) }
    ensures fault { IsErrOf result StoreFault.DiskFault
        → Failed (told_under scan.old) (told_under scan.new) }
    ensures cause { IfErr result IsOfReading }
{
    let mut state = SetState::booted(alloc, head.boot_first, head.boot_count)?;
    let mut count = 0;
    'bodies: while scan.next()? {
        count = add_body(alloc, scan, &mut state, head.bucket_count, count)?;
    }
    Ok((state, count))
}

// Whether the head that was found is that of the set, in a cluster of as many buckets.
fn of_set(head: &Head, found: &Head) -> Result<(), StoreFault>
    ensures { result ≡ of_set head.now found.now }
{
    if found.uuid != head.uuid {
        return Err(StoreFault::OtherSet(found.uuid));
    }
    if found.bucket_count != head.bucket_count {
        return Err(StoreFault::OtherCount(found.bucket_count));
    }
    Ok(())
}

// The state that the journal of a set stands for, and how many bodies its second part has. The head
// that was found is looked at once all was read.
pub fn read_set<D: Disk + Drop>(
    alloc: Global,
    scan: &mut Scan<D>,
    found: &Head,
    head: &Head,
) -> Result<(SetState, u64), StoreFault>
    requires going { MayGoOn scan.old }
    requires lawful { IsHead found.now }
    requires begun { HasRead scan.old (begun found.now (version_under scan.old)) }
    ensures done { OnOk result (IsDone scan.new) }
    ensures few { IfOk result (λ r. r.1 + 36 ≤ place_of scan.new) }
    ensures within { IfOk result (λ r. IsOfBuckets head.now.bucket_count r.0) }
    ensures opened { IfOk result (λ r. Reads (told_under scan.old) (λ file.
        IsOkAnd (opened head.now file) (IsReadAs (place_of scan.new) r.1 (version_under scan.old)
        (durable r.0)))) }
    ensures refused { IfErr result (λ e. IsRefusal e → Reads (told_under scan.old) (λ file.
        opened head.now file ≡ Err e)) }
    ensures version { version_under scan.new ≡ version_under scan.old }
    ensures unwritten { IsUnwritten (told_under scan.old) (told_under scan.new) }
    ensures fault { IsErrOf result StoreFault.DiskFault
        → Failed (told_under scan.old) (told_under scan.new) }
    ensures cause { IfErr result (λ e. (len : ℕ) → e ≢ StoreFault.Full len) }
{
    let (state, count) = replay(alloc, scan, found)?;
    of_set(head, found)?;
    Ok((state, count))
}

// Whether a disk has no bytes.
pub fn is_empty<D: Disk>(disk: &mut D) -> Result<bool, StoreFault>
    requires { IsOpen (D.told disk.old) }
    ensures empty { IfOk result (λ empty. Reads (D.told disk.old) (λ file.
        IsTrue empty ↔ (file ≡ []))) }
    ensures fault { OnErr result (Failed (D.told disk.old) (D.told disk.new)) }
    ensures cause { IfErr result (λ e. e ≡ StoreFault.DiskFault) }
    ensures unwritten { IsUnwritten (D.told disk.old) (D.told disk.new) }
{
    match disk.len() {
        Ok(len) => Ok(len == 0),
        Err(_) => Err(StoreFault::DiskFault),
    }
}
