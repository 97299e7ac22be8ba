//! Stores.

ghost use Rattle.std.specs.Prelude.{◌≡◌, ◌≢◌, ◌↔◌, ◌+◌, ◌-◌, ◌^◌, ◌<◌, ◌≤◌, min, false, [], ℕ, None, Some, Ok, Err, IsTrue, IfOk, IfErr, OnOk, OnErr, if◌then◌else◌};
ghost use Rattle.std.specs.Result.{IsErrOf};
ghost use Rattle.vs_disk.specs.Told.{IsOpen, Failed, Reads};
ghost use Rattle.vs_disk.specs.Model.{Keeps, LeavesThrough};
ghost use Rattle.vs_frame.specs.Frame.{version_of, gate_of, last_of};

use crate::fault::StoreFault;
use crate::replay::{is_empty, read_set};
use crate::upgrade::upgrade;
use std::alloc::Global;
use vs_base::NoMemory;
use vs_disk::Disk;
use vs_frame::{Frame, FrameFault, Head, Scan};
use vs_record::{Change, SetState, write_change};

/// The journal of a set, and the greatest length that it may have, in bytes.
#[derive(Drop)]
pub struct Store<D: Disk + Drop> {
    frame: Frame<D>,
    limit: u64,
    // How many changes of the second part stand in front of that of an append that failed, since
    // one that didn't. Where none failed these are all.
    count: u64,
    // Whether a reopening found that change.
    has_last: bool,
    ghost version: { version_of frame ≡ 2 },
    ghost few: { count + 36 ≤ last_of frame },
    ghost few_with_last: { IsTrue has_last → count + 37 ≤ gate_of frame },
}

impl<D: Disk + Drop> Store<D> {
    ghost use Rattle.vs_frame.specs.Head.{IsHead};
    ghost use Rattle.vs_frame.specs.Journal.{begun};
    ghost use Rattle.vs_frame.specs.Scan.{told_under, version_under, MayGoOn, HasRead};
    ghost use Rattle.vs_frame.specs.Unwritten.{IsUnwritten};
    ghost use Rattle.vs_record.specs.Body.{HasCounts};
    ghost use Rattle.vs_record.specs.Change as plain;
    ghost use Rattle.vs_record.specs.Change.{change as plain_of};
    ghost use Rattle.vs_record.specs.Durable.{Durable, applied};
    ghost use Rattle.vs_record.specs.States.{durable, IsOfBuckets};
    ghost use Rattle.std.specs.Prelude.{Option};
    ghost use Rattle.vs_frame.specs.declared.head.Head as head;
    ghost use Rattle.vs_store.specs.Faults.{IsOfAppend};
    ghost use Rattle.vs_store.specs.Files.{StandsForSome, taken};
    ghost use Rattle.vs_store.specs.Holding.{Holds, StillHolds, Accepts, counted};
    ghost use Rattle.vs_store.specs.Opening.{LeavesSame, IsOpened, IsNotOpened};
    ghost use Rattle.vs_store.specs.Standing.{entry_len};
    ghost use Rattle.vs_store.specs.Store.{disk_of, told_of, limit_of, length_of, length_with, IsReady, IsCalm, MustReopen, HasFound};

    /// Opens the journal of a set, and gives the state that it stands for. A disk of length 0 is
    /// made a new journal with this head; after a refusal it may hold one, or a part of one. A
    /// journal of version 1 is written as one of version 2, and every other disk is only read.
    pub fn open(
        alloc: Global,
        disk: D,
        head: &Head,
        limit: u64,
    ) -> Result<(Store<D>, SetState), (StoreFault, D)>
        requires open { IsOpen (D.told disk) }
        requires head { IsHead head.now }
        requires limit { 38 ≤ limit }
        ensures opened { IfOk result (λ r.
            IsOpened head.now limit (D.told disk) r.0 (durable r.1)) }

        // No state has anything of a bucket above the count, whatever the disk tells.
        ensures within { IfOk result (λ r. IsOfBuckets head.now.bucket_count r.1) }

        ensures refused { IfErr result (λ e.
            IsNotOpened head.now limit (D.told disk) e.0 (D.told e.1)) }

        // At every moment within the call, also of a migration, a crash of a whole journal leaves
        // one that opens to the same state.
        ensures any_moment { IfOk result (λ r.
            LeavesSame head.now (D.told disk) (told_of r.0)) }
        ensures any_moment_err { IfErr result (λ e.
            LeavesSame head.now (D.told disk) (D.told e.1)) }
    {
        let mut disk = disk;
        match is_empty(&mut disk) {
            Ok(empty) => {
                if empty {
                    Store::create(alloc, disk, head, limit)
                } else {
                    Store::load(alloc, disk, head, limit)
                }
            }
            Err(fault) => Err((fault, disk)),
        }
    }

    // Makes a disk a new journal.
    fn create(
        alloc: Global,
        disk: D,
        head: &Head,
        limit: u64,
    ) -> Result<(Store<D>, SetState), (StoreFault, D)>
        requires open { IsOpen (D.told disk) }
        requires head { IsHead head.now }
        requires none { Reads (D.told disk) (λ file. file ≡ []) }
        ensures opened { IfOk result (λ r.
            IsOpened head.now limit (D.told disk) r.0 (durable r.1)) }
        ensures within { IfOk result (λ r. IsOfBuckets head.now.bucket_count r.1) }
        ensures refused { IfErr result (λ e.
            IsNotOpened head.now limit (D.told disk) e.0 (D.told e.1)) }
    {
        match SetState::booted(alloc, head.boot_first, head.boot_count) {
            Ok(state) => match Frame::create(alloc, disk, head) {
                Ok(frame) => Ok((
                    Store {
                        frame,
                        limit,
                        count: 0,
                        has_last: false,
                    },
                    state,
                )),
                Err((fault, disk)) => Err((StoreFault::from(fault), disk)),
            },
            Err(NoMemory) => Err((StoreFault::NoMemory, disk)),
        }
    }

    // Reads the journal of a disk that has bytes.
    fn load(
        alloc: Global,
        disk: D,
        head: &Head,
        limit: u64,
    ) -> Result<(Store<D>, SetState), (StoreFault, D)>
        requires open { IsOpen (D.told disk) }
        requires some { Reads (D.told disk) (λ file. file ≢ []) }
        ensures opened { IfOk result (λ r.
            IsOpened head.now limit (D.told disk) r.0 (durable r.1)) }
        ensures within { IfOk result (λ r. IsOfBuckets head.now.bucket_count r.1) }
        ensures refused { IfErr result (λ e.
            IsNotOpened head.now limit (D.told disk) e.0 (D.told e.1)) }
    {
        match Frame::scan(alloc, disk) {
            Ok((scan, found)) => Store::read(alloc, scan, &found, head, limit),
            Err((fault, disk)) => Err((StoreFault::from(fault), disk)),
        }
    }

    // Reads a journal to its end, and writes it as one of version 2.
    fn read(
        alloc: Global,
        scan: Scan<D>,
        found: &Head,
        head: &Head,
        limit: u64,
    ) -> Result<(Store<D>, SetState), (StoreFault, D)>
        requires going { MayGoOn scan }
        requires lawful { IsHead found.now }
        requires begun { HasRead scan (begun found.now (version_under scan)) }
        requires some { Reads (told_under scan) (λ file. file ≢ []) }
        ensures opened { IfOk result (λ r.
            IsOpened head.now limit (told_under scan) r.0 (durable r.1)) }
        ensures within { IfOk result (λ r. IsOfBuckets head.now.bucket_count r.1) }
        ensures refused { IfErr result (λ e.
            IsNotOpened head.now limit (told_under scan) e.0 (D.told e.1)) }
    {
        let mut scan = scan;
        let (state, count) = match read_set(alloc, &mut scan, found, head) {
            Ok(read) => read,
            Err(fault) => return Err((fault, scan.into_disk())),
        };
        let mut frame = scan.into_frame();
        match upgrade(&mut frame, limit) {
            Ok(()) => Ok((
                Store {
                    frame,
                    limit,
                    count,
                    has_last: false,
                },
                state,
            )),
            Err(fault) => Err((fault, frame.into_disk())),
        }
    }

    // The number of the change that is added next.
    fn next_number(&self) -> u64
        requires { IsReady self.now }
        ensures number { result ≡ counted self.now + 1 }
        ensures few { result + 36 ≤ gate_of self.now.frame + 1 }
    {
        let _gate = self.frame.gate();
        if self.has_last {
            self.count + 2
        } else {
            self.count + 1
        }
    }

    /// Adds a change that fits the state that the journal stands for. After `DiskFault` the store
    /// must be reopened, and the change is pending: it is there or not.
    pub fn append(&mut self, alloc: Global, change: &Change) -> Result<(), StoreFault>
        requires counts { HasCounts (plain_of change.now) }
        requires fits { Accepts self.old (plain_of change.now) }
        requires ready { IsReady self.old }

        // After Ok it holds the state with the change, and every crash leaves that.
        ensures ready { OnOk result (IsReady self.new) }
        ensures appended { OnOk result ((head : head.Head) (d : Durable)
            → Holds self.old head d None
            → Holds self.new head (applied d (plain_of change.now)) None) }
        ensures length { OnOk result
            (length_of self.new ≡ length_with self.old (plain_of change.now)) }

        // At every moment within the call a crash leaves the state with the change or without.
        ensures any_moment { (head : head.Head) (d : Durable) → Holds self.old head d None
            → LeavesThrough (told_of self.old) (told_of self.new)
            (StandsForSome head d (Some (plain_of change.now))) }

        // It is full exactly where the journal would be longer than the limit, want of memory aside.
        ensures full { (len : ℕ) → IsErrOf result (StoreFault.Full len)
            → (len ≡ length_with self.old (plain_of change.now)) × (limit_of self.old < len)
            × (self.new ≡ self.old) }
        ensures room { OnOk result (length_with self.old (plain_of change.now) ≤ limit_of self.old) }
        ensures calm { OnOk result (IsCalm self.new) }
        ensures still_calm { IfErr result (λ e. e ≢ StoreFault.DiskFault
            → IsCalm self.old → IsCalm self.new) }
        ensures fault { IsErrOf result StoreFault.DiskFault → Failed (told_of self.old) (told_of self.new)
            × (length_with self.old (plain_of change.now) ≤ limit_of self.old) }
        ensures pending { IsErrOf result StoreFault.DiskFault
            → MustReopen self.new × (length_of self.new ≡ length_of self.old) }
        ensures pending_held { IsErrOf result StoreFault.DiskFault → (head : head.Head) (d : Durable)
            → Holds self.old head d None → Holds self.new head d (Some (plain_of change.now)) }
        ensures memory { IsErrOf result StoreFault.NoMemory → IsReady self.new
            × (length_of self.new ≡ length_of self.old)
            × IsUnwritten (told_of self.old) (told_of self.new) }
        ensures same { IfErr result (λ e. e ≢ StoreFault.DiskFault
            → StillHolds self.old self.new) }
        ensures cause { IfErr result IsOfAppend }
        ensures limit { limit_of self.new ≡ limit_of self.old }
        ensures keeps { Keeps (told_of self.old) (told_of self.new) }
    {
        let number = self.next_number();
        let body = write_change(alloc, change, number)?;
        let Some(len) = self.frame.gate().checked_add(body.len() as u64 + 6) else {
            return Err(StoreFault::NoMemory);
        };
        if len > self.limit {
            return Err(StoreFault::Full(len));
        }
        match self.frame.append(&body) {
            Ok(()) => {
                self.count = number;
                self.has_last = false;
                Ok(())
            }
            Err(FrameFault::DiskFault) => {
                self.count = number - 1;
                self.has_last = false;
                Err(StoreFault::DiskFault)
            }
            Err(FrameFault::NoMemory) => Err(StoreFault::NoMemory),
            Err(FrameFault::NotAJournal(_)) => unreachable!(),
        }
    }

    /// Syncs, and looks whether the change of an append that failed is there. Where none failed
    /// since the last that answered Ok, it answers false. After false that change is forgotten.
    /// After `DiskFault` the store must still be reopened. It takes no memory.
    pub fn reopen(&mut self) -> Result<bool, StoreFault>
        ensures ready { OnOk result (IsReady self.new) }
        ensures found { IfOk result (λ found. IsTrue found ↔ HasFound self.new) }

        // The pending change is there exactly at true.
        ensures held { IfOk result (λ found. (head : head.Head) (d : Durable) (pending : Option plain.Change)
            → Holds self.old head d pending
            → Holds self.new head (if found then taken d pending else d) None) }

        // What the store held it still holds.
        ensures still { StillHolds self.old self.new }

        // After false there is nothing to forget, and where there was nothing it answers false.
        ensures calm { IfOk result (λ found. found ≡ false → IsCalm self.new) }
        ensures still_calm { IsCalm self.old → IsCalm self.new }
        ensures none { IsCalm self.old → IfOk result (λ found. found ≡ false) }

        ensures unwritten { IsUnwritten (told_of self.old) (told_of self.new) }
        ensures fault { OnErr result (Failed (told_of self.old) (told_of self.new)) }
        ensures cause { IfErr result (λ e. (e ≡ StoreFault.DiskFault) × MustReopen self.new) }
        ensures limit { limit_of self.new ≡ limit_of self.old }
    {
        let found = self.frame.reopen()?;
        self.has_last = found;
        Ok(found)
    }

    /// Takes away the change that `reopen` found. After `DiskFault` the store must be reopened, and
    /// the change is pending. It takes no memory.
    pub fn drop_last(&mut self) -> Result<(), StoreFault>
        requires ready { IsReady self.old }
        requires found { HasFound self.old }
        ensures ready { OnOk result (IsReady self.new) }
        ensures found { HasFound self.new }
        ensures dropped { OnOk result ((head : head.Head) (d : Durable) (c : plain.Change)
            → Holds self.old head d (Some c) → Holds self.new head d None) }
        ensures still { (head : head.Head) (d : Durable) (c : plain.Change)
            → Holds self.old head d (Some c) → Holds self.new head d (Some c) }

        // At every moment within the call a crash leaves the state with the change or without.
        ensures any_moment { (head : head.Head) (d : Durable) (c : plain.Change)
            → Holds self.old head d (Some c)
            → LeavesThrough (told_of self.old) (told_of self.new) (StandsForSome head d (Some c)) }

        ensures fault { OnErr result (Failed (told_of self.old) (told_of self.new)) }
        ensures cause { IfErr result (λ e. (e ≡ StoreFault.DiskFault) × MustReopen self.new) }
        ensures limit { limit_of self.new ≡ limit_of self.old }
        ensures keeps { Keeps (told_of self.old) (told_of self.new) }
    {
        self.has_last = false;
        self.frame.drop_last()?;
        Ok(())
    }

    /// Forgets the append that failed: what the journal has up to its gate is all, and a further
    /// `reopen` answers false. It does nothing with the disk, and takes no memory.
    pub fn forget_last(&mut self)
        requires ready { IsReady self.old }
        ensures ready { IsReady self.new }
        ensures calm { IsCalm self.new }
        ensures held { (head : head.Head) (d : Durable) → Holds self.old head d None
            → Holds self.new head d None }
        ensures length { length_of self.new ≡ length_of self.old }
        ensures disk { disk_of self.new ≡ disk_of self.old }
        ensures limit { limit_of self.new ≡ limit_of self.old }
    {
        self.count = self.next_number() - 1;
        self.has_last = false;
        self.frame.forget_last();
    }

    /// The length of the journal, in bytes, with the gate that ends it. A change that is pending
    /// isn't counted.
    pub fn journal_len(&self) -> u64
        ensures length { result ≡ min (length_of self.now) (2 ^ 64 - 1) }
        ensures within { result ≤ (told_of self.now).reserved }
    {
        self.frame.gate().saturating_add(1)
    }

    /// How often its disk failed, up to 2^63.
    pub fn faults(&self) -> u64
        ensures { result ≡ (told_of self.now).faults }
    {
        self.frame.faults()
    }

    /// Whether it must be reopened.
    pub fn must_reopen(&self) -> bool
        ensures { result ≡ false ↔ IsReady self.now }
    {
        self.frame.must_reopen()
    }

    /// The disk.
    pub fn into_disk(self) -> D
        ensures disk { result ≡ disk_of self }
        ensures open { IsOpen (D.told result) }
    {
        self.frame.into_disk()
    }
}
