//! Reading a journal, a body at a time.

ghost use Rattle.std.specs.Prelude.{◌≡◌, ◌<◌, ◌≤◌, ◌^◌, min, IsTrue, length};
ghost use Rattle.vs_disk.specs.Told.{IsOpen, Reads, IsSynced};
ghost use Rattle.vs_frame.specs.Ahead.{IsPieceOf};
ghost use Rattle.vs_frame.specs.Gate.{IsGate};
ghost use Rattle.vs_frame.specs.Head.{version_in};

use crate::ahead::ReadAhead;
use crate::begin::begin;
use crate::entry::FRAMING;
use crate::fault::FrameFault;
use crate::frame::Frame;
use crate::head::Head;
use crate::look::look;
use std::alloc::Global;
use vs_disk::Disk;

/// A journal that is being read, with room for one body.
#[derive(Drop)]
pub struct Scan<D: Disk + Drop> {
    disk: D,
    // The length of the disk.
    len: u64,
    version: u8,
    part: u8,
    // The gate that comes next.
    place: u64,
    room: Vec<u8>,
    ahead: ReadAhead,
    // No bytes, for the frame.
    piece: Vec<u8>,
    // The size of the last body.
    size: usize,
    may_go_on: bool,
    has_body: bool,
    is_done: bool,
    ghost is_open: { IsOpen (D.told disk) },
    ghost reserved: { len ≤ (D.told disk).reserved },
    ghost len_is: { Reads (D.told disk) (λ file. len ≡ length file) },
    ghost version_is: { Reads (D.told disk) (λ file. version ≡ version_in file) },
    ghost version_known: { (1 ≤ version) × (version ≤ 2) },
    ghost part_known: { (1 ≤ part) × (part ≤ 2) },
    ghost behind_head: { 36 ≤ place },
    ghost has_room: { min len (2 ^ 20) ≤ length room.items },
    ghost read_ahead: { Reads (D.told disk) (λ file. IsPieceOf file ahead) },
    ghost in_room: { size ≤ length room.items },
    ghost durable: { IsSynced (D.told disk) },
    ghost within: { IsTrue is_done → place < len },
    ghost shut: { IsTrue is_done → Reads (D.told disk) (λ file. IsGate file place) },
}

impl<D: Disk + Drop> Scan<D> {
    ghost use Rattle.std.specs.Prelude.{◌≢◌, ◌+◌, false, ℕ, take, IsNone, IfSome, IfOk, IfErr, OnOk, Ok, Err};
    ghost use Rattle.std.specs.Result.{IsErrOf};
    ghost use Rattle.vs_disk.specs.Told.{Failed};
    ghost use Rattle.vs_frame.specs.Head.{IsHead};
    ghost use Rattle.vs_frame.specs.Frame.{disk_of, gate_of, last_of, next_of, version_of, IsReady};
    ghost use Rattle.vs_frame.specs.Journal.{Journal, begun, with_body, with_gate, IsAlong, IsEntry, IsJournal, IsWrongFirst, IsWrongBehind};
    ghost use Rattle.vs_frame.specs.Reading.{journal_of, cut_at};
    ghost use Rattle.vs_frame.specs.Scan.{disk_under, told_under, version_under, part_of, place_of, left_of, last_body, MayGoOn, HasBody, IsDone, IsSoFar, HasRead};
    ghost use Rattle.vs_frame.specs.Unwritten.{IsUnwritten};

    // Begins with a sync, reads the head and makes room for one body. It writes nothing.
    pub(crate) fn begin(alloc: Global, disk: D) -> Result<(Scan<D>, Head), (FrameFault, D)>
        requires open { IsOpen (D.told disk) }
        ensures ready { IfOk result (λ r. MayGoOn r.0) }
        ensures lawful { IfOk result (λ r. IsHead r.1) }
        ensures version { IfOk result (λ r. Reads (D.told disk) (λ file.
            version_under r.0 ≡ version_in file)) }
        ensures begun { IfOk result (λ r. HasRead r.0 (begun r.1 (version_under r.0))) }
        ensures unwritten { IfOk result (λ r. IsUnwritten (D.told disk) (told_under r.0)) }
        ensures refused { IfErr result (λ e. (place : ℕ) → e.0 ≡ FrameFault.NotAJournal place
            → Reads (D.told disk) (λ file. IsWrongFirst file place)) }
        ensures fault { IfErr result (λ e. e.0 ≡ FrameFault.DiskFault
            → Failed (D.told disk) (D.told e.1)) }
        ensures unwritten_too { IfErr result (λ e. IsUnwritten (D.told disk) (D.told e.1)) }
    {
        let mut disk = disk;
        match begin(alloc, &mut disk) {
            Ok((head, version, len, room, ahead)) => Ok((
                Scan {
                    disk,
                    len,
                    version,
                    part: 1,
                    place: Head::LEN as u64,
                    room,
                    ahead,
                    piece: Vec::new(alloc),
                    size: 0,
                    may_go_on: true,
                    has_body: false,
                    is_done: false,
                },
                head,
            )),
            Err(fault) => Err((fault, disk)),
        }
    }

    // Looks at the gate that comes next: where that ends the first of two parts, at the one behind it.
    fn look(&mut self) -> Result<Option<usize>, FrameFault>
        requires { self.old.is_done ≡ false }
        ensures going { OnOk result (self.new.is_done ≡ false) }
        ensures within { IfOk result (λ found. IsNone found → self.new.place < self.new.len) }
        ensures shut { IfOk result (λ found. IsNone found → (j : Journal) → HasRead self.old j
            → Reads (told_under self.old) (λ file. IsJournal file (with_gate (place_of self.new) j))) }
        ensures gate { IfOk result (λ found. IsNone found → Reads (told_under self.old) (λ file.
            IsGate file (place_of self.new))) }
        ensures size { IfOk result (λ found. IfSome found (λ size.
            (size ≤ length self.new.room.items) × (self.new.place + (5 + size) ≤ self.new.len))) }
        ensures entry { IfOk result (λ found. IfSome found (λ size. Reads (told_under self.old)
            (λ file. IsEntry file (place_of self.new) (take size self.new.room.items)))) }
        ensures so_far { IfOk result (λ found. IfSome found (λ size. (j : Journal)
            → HasRead self.old j → HasRead self.new (with_gate (place_of self.new) j))) }
        ensures refused { IfErr result (λ e. (place : ℕ) → e ≡ FrameFault.NotAJournal place
            → (j : Journal) → HasRead self.old j
            → Reads (told_under self.old) (λ file. IsWrongBehind file place j)) }
        ensures version { version_under self.new ≡ version_under self.old }
        ensures len { self.new.len ≡ self.old.len }
        ensures later { OnOk result (self.old.place ≤ self.new.place) }
        ensures unwritten { IsUnwritten (told_under self.old) (told_under self.new) }
        ensures fault { IsErrOf result FrameFault.DiskFault
            → Failed (told_under self.old) (told_under self.new) }
        ensures cause { IfErr result (λ e. e ≢ FrameFault.NoMemory) }
    {
        let found = look(
            &mut self.disk,
            &mut self.ahead,
            self.place,
            self.len,
            &mut self.room,
        )?;
        if found.is_some() {
            return Ok(found);
        }
        if self.part == self.version {
            return Ok(None);
        }
        self.part = 2;
        self.place += 1;
        let next = look(
            &mut self.disk,
            &mut self.ahead,
            self.place,
            self.len,
            &mut self.room,
        )?;
        Ok(next)
    }

    /// Reads one more body, and answers false where the journal ends. It writes nothing and takes
    /// no memory.
    pub fn next(&mut self) -> Result<bool, FrameFault>
        requires { MayGoOn self.old }

        // At true there is one more body, and it is the next of the file's.
        ensures more { IfOk result (λ more. IsTrue more → MayGoOn self.new × HasBody self.new) }
        ensures body { IfOk result (λ more. IsTrue more → (j : Journal) → HasRead self.old j
            → HasRead self.new
            (with_body (part_of self.new) (last_body self.new) (place_of self.new) j)) }

        ensures later { IfOk result (λ more. IsTrue more
            → place_of self.old + (5 + length (last_body self.new)) ≤ place_of self.new) }
        ensures no_earlier { OnOk result (place_of self.old ≤ place_of self.new) }
        ensures shorter { IfOk result (λ more. IsTrue more → left_of self.new < left_of self.old) }

        // At false those that were read are all.
        ensures done { IfOk result (λ more. more ≡ false → IsDone self.new) }
        ensures all { IfOk result (λ more. more ≡ false → (j : Journal) → HasRead self.old j
            → Reads (told_under self.old) (λ file. journal_of file
            ≡ Ok (with_gate (place_of self.new) j))) }

        // It is refused as no journal with the least place that is wrong, exactly by the bytes.
        ensures refused { IfErr result (λ e. (place : ℕ) → e ≡ FrameFault.NotAJournal place
            → (j : Journal) → HasRead self.old j
            → Reads (told_under self.old) (λ file. journal_of file ≡ Err place)) }

        // Those that were read are all in front of that place.
        ensures before { IfErr result (λ e. (place : ℕ) → e ≡ FrameFault.NotAJournal place
            → (j : Journal) → HasRead self.old j
            → Reads (told_under self.old) (λ file. (gate : ℕ)
            × (journal_of (cut_at place file) ≡ Ok (with_gate gate j)))) }
        ensures version { version_under self.new ≡ version_under self.old }
        ensures unwritten { IsUnwritten (told_under self.old) (told_under self.new) }
        ensures fault { IsErrOf result FrameFault.DiskFault
            → Failed (told_under self.old) (told_under self.new) }
        ensures cause { IfErr result (λ e. e ≢ FrameFault.NoMemory) }
    {
        self.may_go_on = false;
        self.has_body = false;
        self.is_done = false;
        match self.look()? {
            Some(size) => {
                self.size = size;
                self.place += FRAMING + size as u64;
                self.may_go_on = true;
                self.has_body = true;
                Ok(true)
            }
            None => {
                self.is_done = true;
                Ok(false)
            }
        }
    }

    /// The last body read.
    pub fn body(&self) -> &[u8]
        requires { HasBody self.now }
        ensures { result.now ≡ last_body self.now }
    {
        &self.room[..self.size]
    }

    /// The part of the last body read, 1 or 2.
    pub fn part(&self) -> u8
        requires { HasBody self.now }
        ensures part { result ≡ part_of self.now }
        ensures known { (1 ≤ result) × (result ≤ 2) }
    {
        self.part
    }

    /// The place of the gate that comes next.
    pub fn place(&self) -> u64
        ensures { result ≡ place_of self.now }
    {
        self.place
    }

    /// The journal, ready for one more body.
    pub fn into_frame(self) -> Frame<D>
        requires { IsDone self }
        ensures disk { disk_of result ≡ disk_under self }
        ensures ready { IsReady result }
        ensures gate { gate_of result ≡ place_of self }
        ensures version { version_of result ≡ version_under self }
        ensures none { last_of result ≡ next_of result }
        ensures level { last_of result ≡ gate_of result }
        ensures durable { IsSynced (told_under self) }
    {
        Frame::at(self.disk, self.place, self.version, self.piece)
    }

    /// The disk.
    pub fn into_disk(self) -> D
        ensures disk { result ≡ disk_under self }
        ensures open { IsOpen (D.told result) }
    {
        self.disk
    }
}
