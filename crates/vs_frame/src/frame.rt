//! A disk with entries behind gates.

ghost use Rattle.std.specs.Prelude.{◌≡◌, ◌≢◌, ◌↔◌, ◌+◌, ◌<◌, ◌≤◌, IsTrue, false, length, if◌then◌else◌, List, ℕ, get_or, IfOk, IfErr, OnOk, OnErr, Err};
ghost use Rattle.std.specs.Result.{IsErrOf};
ghost use Rattle.vs_disk.specs.Told.{IsOpen, Failed, Reads, IsSynced};
ghost use Rattle.vs_disk.specs.Model.{Torn, Keeps, LeavesThrough};
ghost use Rattle.vs_frame.specs.Gate.{IsGate, IsEitherGate};

use crate::calls::{find, start, turn};
use crate::entry::{CLOSED, FRAMING, set_piece};
use crate::fault::FrameFault;
use crate::head::Head;
use crate::put::{add, put};
use crate::scan::Scan;
use std::alloc::Global;
use vs_disk::Disk;

// The first gate of the second part of a new journal.
const FIRST_GATE: u64 = 37;

/// An open disk, and the place of its closed gate.
#[derive(Drop)]
pub struct Frame<D: Disk + Drop> {
    disk: D,
    version: u8,
    gate: u64,
    // The gate of an append that failed, since one that didn't, and the one behind its entry. They
    // are the same place where none failed, and again once a reopening found that gate closed.
    last: u64,
    next: u64,
    // Whether the last reopening found that entry.
    is_found: bool,
    must_reopen: bool,
    piece: Vec<u8>,
    ghost is_open: { IsOpen (D.told disk) },
    ghost room: { next < (D.told disk).reserved },
    ghost order: { last ≤ next },
    ghost from: { last ≤ gate },
    ghost upto: { gate ≤ next },
    ghost version_known: { (1 ≤ version) × (version ≤ 2) },
    ghost behind_head: { 36 ≤ last },
    ghost gate_behind_head: { 36 ≤ gate },
    ghost gated: { must_reopen ≡ false → Reads (D.told disk) (λ file. IsGate file gate) },
    ghost pending: { Reads (D.told disk) (λ file. IsEitherGate file last next) },
    ghost found: { IsTrue is_found → last < next },
    ghost behind: { IsTrue is_found → Reads (D.told disk) (λ file. IsGate file next) },
    ghost durable: { must_reopen ≡ false → IsSynced (D.told disk) },
}

impl<D: Disk + Drop> Frame<D> {
    ghost use Rattle.vs_frame.specs.Head.{version_in, IsHead};
    ghost use Rattle.vs_frame.specs.Journal.{Journal, fresh, begun, grown, migrated, IsBody, IsJournal, IsOldOrNew, IsOldOrMigrated, HasBehind};
    ghost use Rattle.vs_frame.specs.Reading.{journal_of, cut_at, HasNoBodies};
    ghost use Rattle.vs_frame.specs.Unwritten.{IsUnwritten, TornOf};
    ghost use Rattle.vs_frame.specs.Frame.{disk_of, told_of, version_of, gate_of, last_of, next_of, IsReady, MustReopen, HasFound, IsAtEndOf, IsSame};
    ghost use Rattle.vs_frame.specs.Scan.{told_under, version_under, MayGoOn, HasRead};

    // A frame on a disk whose closed gate is at this place.
    pub(crate) fn at(disk: D, gate: u64, version: u8, piece: Vec<u8>) -> Frame<D>
        requires open { IsOpen (D.told disk) }
        requires room { gate < (D.told disk).reserved }
        requires version { (1 ≤ version) × (version ≤ 2) }
        requires head { 36 ≤ gate }
        requires gated { Reads (D.told disk) (λ file. IsGate file gate) }
        requires durable { IsSynced (D.told disk) }
        ensures disk { disk_of result ≡ disk }
        ensures ready { IsReady result }
        ensures gate { gate_of result ≡ gate }
        ensures version { version_of result ≡ version }
        ensures none { last_of result ≡ next_of result }
        ensures level { last_of result ≡ gate_of result }
    {
        Frame {
            disk,
            version,
            gate,
            last: gate,
            next: gate,
            is_found: false,
            must_reopen: false,
            piece,
        }
    }

    /// Makes a disk a journal of version 2 without bodies. After a refusal the disk may hold a new
    /// journal or a part of one.
    pub fn create(alloc: Global, disk: D, head: &Head) -> Result<Frame<D>, (FrameFault, D)>
        requires open { IsOpen (D.told disk) }
        requires head { IsHead head.now }

        ensures ready { IfOk result (λ frame. IsReady frame × IsAtEndOf frame (fresh head.now)) }
        ensures journal { IfOk result (λ frame. Reads (told_of frame) (λ file.
            IsJournal file (fresh head.now))) }
        ensures durable { IfOk result (λ frame. IsSynced (told_of frame)) }
        ensures none { IfOk result (λ frame. last_of frame ≡ next_of frame) }
        ensures level { IfOk result (λ frame. last_of frame ≡ gate_of frame) }
        ensures keeps { IfOk result (λ frame. Keeps (D.told disk) (told_of frame)) }

        // Only the first 38 bytes may differ, also after a refusal, so the disk is no longer than it
        // was or than a new journal.
        ensures torn_ok { IfOk result (λ frame. Reads (D.told disk) (λ file.
            Torn 0 38 file (told_of frame).reads_as)) }
        ensures torn { IfErr result (λ e. Reads (D.told disk) (λ file.
            Torn 0 38 file (D.told e.1).reads_as)) }

        // So it is after a crash at any moment within the call.
        ensures any_moment { IfOk result (λ frame.
            LeavesThrough (D.told disk) (told_of frame) (TornOf 0 38 (D.told disk))) }
        ensures any_moment_err { IfErr result (λ e.
            LeavesThrough (D.told disk) (D.told e.1) (TornOf 0 38 (D.told disk))) }

        ensures fault { IfErr result (λ e. e.0 ≡ FrameFault.DiskFault
            → Failed (D.told disk) (D.told e.1)) }
        ensures memory { IfErr result (λ e. e.0 ≡ FrameFault.NoMemory
            → IsUnwritten (D.told disk) (D.told e.1)) }
        ensures cause { IfErr result (λ e. (place : ℕ) → e.0 ≢ FrameFault.NotAJournal place) }
        ensures refused { IfErr result (λ e. Keeps (D.told disk) (D.told e.1)) }
    {
        let mut disk = disk;
        match start(alloc, &mut disk, head) {
            Ok(()) => Ok(Frame::at(disk, FIRST_GATE, 2, Vec::new(alloc))),
            Err(fault) => Err((fault, disk)),
        }
    }

    /// Begins to read a journal: syncs, reads the head, and makes room for one body. It writes
    /// nothing.
    pub fn scan(alloc: Global, disk: D) -> Result<(Scan<D>, Head), (FrameFault, D)>
        requires open { IsOpen (D.told disk) }

        ensures ready { IfOk result (λ r. MayGoOn r.0) }
        ensures lawful { IfOk result (λ r. IsHead r.1) }
        ensures version { IfOk result (λ r. Reads (D.told disk) (λ file.
            version_under r.0 ≡ version_in file)) }
        ensures begun { IfOk result (λ r. HasRead r.0 (begun r.1 (version_under r.0))) }
        ensures unwritten { IfOk result (λ r. IsUnwritten (D.told disk) (told_under r.0)) }

        // It is refused as no journal with the least place that is wrong, exactly by the bytes.
        ensures refused { IfErr result (λ e. (place : ℕ) → e.0 ≡ FrameFault.NotAJournal place
            → Reads (D.told disk) (λ file. journal_of file ≡ Err place)) }
        ensures before { IfErr result (λ e. (place : ℕ) → e.0 ≡ FrameFault.NotAJournal place
            → Reads (D.told disk) (λ file. HasNoBodies (journal_of (cut_at place file)))) }

        ensures fault { IfErr result (λ e. e.0 ≡ FrameFault.DiskFault
            → Failed (D.told disk) (D.told e.1)) }
        ensures unwritten_too { IfErr result (λ e. IsUnwritten (D.told disk) (D.told e.1)) }
    {
        Scan::begin(alloc, disk)
    }

    /// Writes a journal of version 1 as one of version 2: puts a closed gate behind its own, syncs,
    /// sets the version byte, and syncs. After `DiskFault` only the disk may be taken back.
    pub fn migrate(&mut self) -> Result<(), FrameFault>
        requires version { version_of self.old ≡ 1 }
        requires ready { IsReady self.old }

        // After Ok it reads as the same bodies in version 2, and every crash leaves that.
        ensures ready { OnOk result (IsReady self.new × (version_of self.new ≡ 2)
            × (gate_of self.new ≡ gate_of self.old + 1)) }
        ensures migrated { OnOk result (Reads (told_of self.old) (λ file. (j : Journal)
            → IsJournal file j → IsAtEndOf self.old j
            → IsJournal (told_of self.new).reads_as (migrated j))) }
        ensures durable { OnOk result (IsSynced (told_of self.new)) }
        ensures none { OnOk result (last_of self.new ≡ next_of self.new) }
        ensures level { OnOk result (last_of self.new ≡ gate_of self.new) }

        // At every moment within the call a crash leaves the same bodies, in the one version or in
        // the other, and so it reads at every return.
        ensures any_moment { (j : Journal) → IsJournal (told_of self.old).reads_as j
            → IsAtEndOf self.old j
            → LeavesThrough (told_of self.old) (told_of self.new) (IsOldOrMigrated j) }
        ensures reads { Reads (told_of self.old) (λ file. (j : Journal) → IsJournal file j
            → IsAtEndOf self.old j → IsOldOrMigrated j (told_of self.new).reads_as) }

        ensures fault { IsErrOf result FrameFault.DiskFault
            → Failed (told_of self.old) (told_of self.new) }
        ensures memory { IsErrOf result FrameFault.NoMemory
            → IsSame self.old self.new × IsUnwritten (told_of self.old) (told_of self.new) }
        ensures cause { (place : ℕ) → ¬ IsErrOf result (FrameFault.NotAJournal place) }
        ensures keeps { Keeps (told_of self.old) (told_of self.new) }
    {
        let Some(end) = self.gate.checked_add(2) else {
            return Err(FrameFault::NoMemory);
        };
        self.disk.reserve(end)?;
        self.last = self.gate;
        self.next = self.gate;
        self.is_found = false;
        self.must_reopen = true;
        turn(&mut self.disk, self.gate)?;
        self.gate += 1;
        self.last = self.gate;
        self.next = self.gate;
        self.version = 2;
        self.must_reopen = false;
        Ok(())
    }

    /// Adds a body of 1 to 1,048,576 bytes: writes its entry, syncs, opens its gate, and syncs.
    /// After `DiskFault` the frame must be reopened.
    pub fn append(&mut self, body: &[u8]) -> Result<(), FrameFault>
        requires size { IsBody body.now }
        requires version { version_of self.old ≡ 2 }
        requires ready { IsReady self.old }

        // After Ok it reads as the new list, and every crash leaves that.
        ensures ready { OnOk result (IsReady self.new) }
        ensures gate { OnOk result (gate_of self.new ≡ gate_of self.old + (5 + length body.now)) }
        ensures appended { OnOk result (Reads (told_of self.old) (λ file. (j : Journal)
            → IsJournal file j → IsAtEndOf self.old j
            → IsJournal (told_of self.new).reads_as (grown body.now j))) }
        ensures durable { OnOk result (IsSynced (told_of self.new)) }
        ensures none { OnOk result (last_of self.new ≡ next_of self.new) }
        ensures level { OnOk result (last_of self.new ≡ gate_of self.new) }

        // At every moment within the call a crash leaves the old list or the new one, and so it
        // reads at every return.
        ensures any_moment { (j : Journal) → IsJournal (told_of self.old).reads_as j
            → IsAtEndOf self.old j
            → LeavesThrough (told_of self.old) (told_of self.new) (IsOldOrNew j body.now) }
        ensures reads { Reads (told_of self.old) (λ file. (j : Journal) → IsJournal file j
            → IsAtEndOf self.old j → IsOldOrNew j body.now (told_of self.new).reads_as) }

        ensures fault { IsErrOf result FrameFault.DiskFault
            → Failed (told_of self.old) (told_of self.new) }
        ensures failed { IsErrOf result FrameFault.DiskFault
            → MustReopen self.new × (last_of self.new ≡ gate_of self.old)
            × (next_of self.new ≡ gate_of self.old + (5 + length body.now))
            × (gate_of self.new ≡ gate_of self.old) }
        ensures memory { IsErrOf result FrameFault.NoMemory
            → IsSame self.old self.new × IsUnwritten (told_of self.old) (told_of self.new) }
        ensures forgets { ¬ IsErrOf result FrameFault.NoMemory → ¬ HasFound self.new }
        ensures version { version_of self.new ≡ 2 }
        ensures cause { (place : ℕ) → ¬ IsErrOf result (FrameFault.NotAJournal place) }
        ensures keeps { Keeps (told_of self.old) (told_of self.new) }
    {
        let size = FRAMING + body.len() as u64;
        let Some(end) = self.gate.checked_add(size + 1) else {
            return Err(FrameFault::NoMemory);
        };
        set_piece(&mut self.piece, body)?;
        self.disk.reserve(end)?;
        self.last = self.gate;
        self.next = self.gate + size;
        self.is_found = false;
        self.must_reopen = true;
        add(&mut self.disk, self.gate, &self.piece)?;
        self.gate = self.next;
        self.last = self.next;
        self.must_reopen = false;
        Ok(())
    }

    /// Syncs, and looks whether the gate of the append that failed is open. Where none failed since
    /// the last that answered Ok, it answers false. After false that append is forgotten. After
    /// `DiskFault` the frame must still be reopened. It takes no memory.
    pub fn reopen(&mut self) -> Result<bool, FrameFault>
        requires { version_of self.old ≡ 2 }
        ensures ready { OnOk result (IsReady self.new) }
        ensures none { last_of self.old ≡ next_of self.old → IfOk result (λ found. found ≡ false) }
        ensures found { IfOk result (λ found. IsTrue found ↔ HasFound self.new) }
        ensures exactly { IfOk result (λ found. Reads (told_of self.old) (λ file.
            last_of self.old ≢ next_of self.old
            → IsTrue found ↔ (get_or file (last_of self.old) 0 ≡ 165))) }
        ensures gate { IfOk result (λ found.
            gate_of self.new ≡ (if found then next_of self.old else last_of self.old)) }
        ensures behind { IfOk result (λ found. IsTrue found → last_of self.new < gate_of self.new) }

        // The body of the append that failed is there exactly at true.
        ensures told { IfOk result (λ found. Reads (told_of self.old) (λ file.
            (j : Journal) (body : List ℕ) → IsOldOrNew j body file
            → j.gate ≡ last_of self.old
            → next_of self.old ≡ last_of self.old + (5 + length body)
            → IsJournal (told_of self.new).reads_as (if found then grown body j else j))) }

        ensures durable { OnOk result (IsSynced (told_of self.new)) }
        ensures last { last_of self.new ≡ last_of self.old }
        ensures next { IfOk result (λ found.
            next_of self.new ≡ (if found then next_of self.old else last_of self.old)) }
        ensures version { version_of self.new ≡ 2 }
        ensures same { OnErr result ((gate_of self.new ≡ gate_of self.old)
            × (next_of self.new ≡ next_of self.old)
            × (HasFound self.new → HasFound self.old)) }
        ensures unwritten { IsUnwritten (told_of self.old) (told_of self.new) }
        ensures fault { OnErr result (Failed (told_of self.old) (told_of self.new)) }
        ensures cause { IfErr result (λ e. (e ≡ FrameFault.DiskFault) × MustReopen self.new) }
    {
        self.must_reopen = true;
        let found = find(&mut self.disk, self.last, self.next)?;
        if !found {
            self.next = self.last;
        }
        self.gate = self.next;
        self.is_found = found;
        self.must_reopen = false;
        Ok(found)
    }

    /// Closes the gate of the body that `reopen` found. After `DiskFault` the frame must be
    /// reopened. It takes no memory.
    pub fn drop_last(&mut self) -> Result<(), FrameFault>
        requires version { version_of self.old ≡ 2 }
        requires ready { IsReady self.old }
        requires found { HasFound self.old }
        ensures ready { OnOk result (IsReady self.new) }
        ensures gate { gate_of self.new ≡ last_of self.old }
        ensures dropped { OnOk result (Reads (told_of self.old) (λ file.
            (j : Journal) (body : List ℕ) → HasBehind file j body → j.gate ≡ last_of self.old
            → IsJournal (told_of self.new).reads_as j)) }
        ensures durable { OnOk result (IsSynced (told_of self.new)) }

        // At every moment within the call a crash leaves the list with the body or without, and so
        // it reads at every return.
        ensures any_moment { (j : Journal) (body : List ℕ)
            → HasBehind (told_of self.old).reads_as j body → j.gate ≡ last_of self.old
            → LeavesThrough (told_of self.old) (told_of self.new) (IsOldOrNew j body) }
        ensures behind { Reads (told_of self.old) (λ file. (j : Journal) (body : List ℕ)
            → HasBehind file j body → j.gate ≡ last_of self.old
            → HasBehind (told_of self.new).reads_as j body) }

        ensures last { last_of self.new ≡ last_of self.old }
        ensures next { next_of self.new ≡ next_of self.old }
        ensures found { HasFound self.new }
        ensures version { version_of self.new ≡ 2 }
        ensures fault { OnErr result (Failed (told_of self.old) (told_of self.new)) }
        ensures cause { IfErr result (λ e. (e ≡ FrameFault.DiskFault) × MustReopen self.new) }
        ensures keeps { Keeps (told_of self.old) (told_of self.new) }
    {
        self.must_reopen = true;
        self.gate = self.last;
        put(&mut self.disk, self.last, &[CLOSED])?;
        self.must_reopen = false;
        Ok(())
    }

    /// Forgets the append that failed: what the journal has up to its closed gate is all, and a
    /// further `reopen` answers false. It does nothing with the disk, and takes no memory.
    pub fn forget_last(&mut self)
        requires ready { IsReady self.old }
        ensures ready { IsReady self.new }
        ensures gate { gate_of self.new ≡ gate_of self.old }
        ensures none { next_of self.new ≡ last_of self.new }
        ensures level { last_of self.new ≡ gate_of self.new }
        ensures disk { disk_of self.new ≡ disk_of self.old }
        ensures version { version_of self.new ≡ version_of self.old }
    {
        self.last = self.gate;
        self.next = self.gate;
        self.is_found = false;
    }

    /// The version of its journal, 1 or 2.
    pub fn version(&self) -> u8
        ensures version { result ≡ version_of self.now }
        ensures known { (1 ≤ result) × (result ≤ 2) }
    {
        self.version
    }

    /// The place of its closed gate: the length of the journal, less one. An append that failed isn't
    /// counted until a reopening finds its entry.
    pub fn gate(&self) -> u64
        ensures gate { result ≡ gate_of self.now }
        ensures from { last_of self.now ≤ result }
        ensures within { result < (told_of self.now).reserved }
    {
        self.gate
    }

    /// How often its disk failed, up to 2^63.
    pub fn faults(&self) -> u64
        ensures { result ≡ (told_of self.now).faults }
    {
        self.disk.faults()
    }

    /// Whether it must be reopened.
    pub fn must_reopen(&self) -> bool
        ensures { result ≡ false ↔ IsReady self.now }
    {
        self.must_reopen
    }

    /// The disk.
    pub fn into_disk(self) -> D
        ensures disk { result ≡ disk_of self }
        ensures open { IsOpen (D.told result) }
    {
        self.disk
    }
}
