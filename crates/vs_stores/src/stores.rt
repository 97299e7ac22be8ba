//! The journals of all sets.

ghost use Rattle.std.specs.Prelude.{◌≡◌, ◌≢◌, ◌+◌, ◌-◌, ◌^◌, ◌<◌, ◌≤◌, ◌++◌, ◌∷◌, [], min, ℕ, Option, true, false, None, Some, All, length, slice_get, vec_len, vec_capacity, IfOk, IfErr, OnOk, OnErr};
ghost use Rattle.std.specs.Result.{IsErrOf};
ghost use Rattle.vs_disk.specs.Told.{IsOpen};
ghost use Rattle.vs_frame.specs.Head.{IsHead};
ghost use Rattle.vs_record.specs.Body.{HasCounts};
ghost use Rattle.vs_record.specs.Change as plain;
ghost use Rattle.vs_record.specs.Change.{change as plain_of};
ghost use Rattle.vs_stores.specs.Limits.{HaveLimit};

use crate::fault::{AppendFault, OpenFault};
use crate::ready::{number_at, place_of};
use crate::restart::{keep, take_out};
use std::alloc::Global;
use vs_base::SetNo;
use vs_disk::{Disk, DiskFailed};
use vs_frame::Head;
use vs_record::{Change, SetState};
use vs_store::{Store, StoreFault};

/// The journal of each set, and the disks that no set uses. A call works on the journal of one set,
/// and leaves the others as they are.
#[derive(Drop)]
pub struct Stores<D: Disk + Drop> {
    // set 1 first
    stores: Vec<Store<D>>,
    // with room for all disks
    spare: Vec<D>,
    limit: u64,
    ghost room: { vec_len stores + vec_len spare ≤ vec_capacity spare },
    ghost limits: { HaveLimit limit stores.items },
}

impl<D: Disk + Drop> Stores<D> {
    ghost use Rattle.vs_frame.specs.declared.head.Head as head;
    ghost use Rattle.vs_record.specs.States.{durable, IsOfBuckets};
    ghost use Rattle.vs_store.specs.Opening.{IsOpened, IsNotOpened};
    ghost use Rattle.vs_store.specs.declared.fault.StoreFault as fault;
    ghost use Rattle.vs_stores.specs.Calls.{AcceptsAt, AwaitsAt, Turns, StillHold, StillBare, StillAwait, FailsAt, IsSafeThrough, IsMade, IsPending, IsRefused, IsTooLong};
    ghost use Rattle.vs_stores.specs.Due.{Due, decided};
    ghost use Rattle.vs_stores.specs.OpenedStores.{AreOpened, AreNotOpened, AreReady, AreDue, IsAdded, IsNotAdded};
    ghost use Rattle.vs_store.specs.Store.{disk_of};
    ghost use Rattle.vs_stores.specs.Stores.{stores_of, spare_of, disks_of, limit_of, HasSet, OfBoth, AllHold, IsReadyAt, IsCalmAt, length_at, KeepsOthers, IsReservedAt, faults_at};

    /// Opens the journals of all sets, whose heads these are, set 1 first, on the first disks, which
    /// `make_ready` has opened. A journal of length 0 is created. The first set that is refused ends
    /// it.
    pub fn open(
        alloc: Global,
        disks: Vec<D>,
        heads: &[Head],
        limit: u64,
    ) -> Result<(Stores<D>, Vec<SetState>), (OpenFault, Vec<D>)>
        requires heads { All IsHead heads.now }
        requires count { length heads.now ≤ 32 }
        requires disks { length heads.now ≤ length disks.items }
        requires ready { AreReady D.told (length heads.now) disks.items }
        requires limit { 38 ≤ limit }
        ensures opened { IfOk result (λ r.
            AreOpened heads.now limit disks.items r.0 r.1.items) }
        ensures holds { IfOk result (λ r. (due : ℕ → Due) → AreDue heads.now r.1.items due
            → AllHold r.0 due) }
        ensures within { (n : ℕ) → All (λ head. head.bucket_count ≡ n) heads.now
            → IfOk result (λ r. All (IsOfBuckets n) r.1.items) }
        ensures refused { IfErr result (λ e.
            AreNotOpened D.told heads.now limit disks.items e.0 e.1.items) }
    {
        let mut all = Stores {
            stores: Vec::new(alloc),
            spare: disks,
            limit,
        };
        let mut states = Vec::new(alloc);
        'heads: for head in heads {
            let set = number_at(all.sets());
            let state = match all.add(alloc, head) {
                Ok(state) => state,
                Err(fault) => return Err((OpenFault::of_store(set, fault), all.close())),
            };
            let Ok(()) = states.push(state) else {
                return Err((OpenFault::NoMemory, all.close()));
            };
        }
        Ok((all, states))
    }

    // Opens the journal of one set more, on the first of the disks that no set uses.
    fn add(&mut self, alloc: Global, head: &Head) -> Result<SetState, StoreFault>
        requires head { IsHead head.now }
        requires disk { (it : D) → slice_get (spare_of self.old) 0 ≡ Some it → IsOpen (D.told it) }
        requires some { 1 ≤ length (spare_of self.old) }
        requires limit { 38 ≤ limit_of self.old }
        ensures added { IfOk result (λ state. IsAdded self.old self.new head.now (durable state)) }
        ensures within { IfOk result (IsOfBuckets head.now.bucket_count) }
        ensures refused { IfErr result (IsNotAdded self.old self.new head.now) }
    {
        if self.stores.reserve(1).is_err() {
            return Err(StoreFault::NoMemory);
        }
        let disk = self.spare.remove(0);
        match Store::open(alloc, disk, head, self.limit) {
            Ok((store, state)) => {
                self.stores.push_reserved(store);
                Ok(state)
            }
            Err((fault, disk)) => {
                self.spare.insert(0, disk).unwrap();
                Err(fault)
            }
        }
    }

    /// How many sets there are.
    pub fn sets(&self) -> usize
        ensures { result ≡ length (stores_of self.now) }
    {
        self.stores.len()
    }

    /// Adds a change to the journal of a set that has no other pending, where it fits the state
    /// that the journal stands for. After `DiskFault` it is pending: it is there or not.
    pub fn append(&mut self, alloc: Global, set: SetNo, change: &Change) -> Result<(), AppendFault>
        requires has { HasSet self.old set }
        requires ready { IsReadyAt self.old set }
        requires counts { HasCounts (plain_of change.now) }
        requires fits { AcceptsAt self.old set (plain_of change.now) }
        ensures made { OnOk result (IsMade self.old self.new set (plain_of change.now)) }
        ensures pending { IsErrOf result AppendFault.DiskFault
            → IsPending self.old self.new set (plain_of change.now) }
        ensures refused { IfErr result (λ e. e ≢ AppendFault.DiskFault
            → IsRefused self.old self.new set) }
        ensures full { (len : ℕ) → IsErrOf result (AppendFault.Full len)
            → IsTooLong self.old set (plain_of change.now) len }

        // At every moment within the call a crash leaves the state with the change or without.
        ensures any_moment { IsSafeThrough self.old self.new set None (Some (plain_of change.now)) }
        ensures others { KeepsOthers self.old self.new set }
    {
        let store = &mut self.stores[place_of(set)];
        match store.append(alloc, change) {
            Ok(()) => Ok(()),
            Err(fault) => Err(AppendFault::of_store(fault)),
        }
    }

    /// Looks whether the change that is pending is in the journal of a set. After that none need be
    /// pending any more: the state is the one with the change or the one without, as it answers. It
    /// writes nothing, and takes no memory.
    pub fn reopen(&mut self, set: SetNo) -> Result<bool, DiskFailed>
        requires has { HasSet self.old set }
        ensures ready { OnOk result (IsReadyAt self.new set) }
        ensures decided { IfOk result (λ found. (pending : Option plain.Change)
            → Turns self.old self.new set pending (λ o. decided o found)) }

        // What the stores held they still hold.
        ensures still { StillHold self.old self.new }

        // Where no append failed that wasn't forgotten it answers false, and after that answer none
        // is left to forget.
        ensures none { IsCalmAt self.old set → IfOk result (λ found. found ≡ false) }
        ensures calm { IfOk result (λ found. found ≡ false → IsCalmAt self.new set) }
        ensures still_calm { IsCalmAt self.old set → IsCalmAt self.new set }
        ensures failed { OnErr result (FailsAt self.old self.new set) }
        ensures any_moment { (pending : Option plain.Change)
            → IsSafeThrough self.old self.new set pending pending }
        ensures others { KeepsOthers self.old self.new set }
    {
        let store = &mut self.stores[place_of(set)];
        match store.reopen() {
            Ok(found) => Ok(found),
            Err(_) => Err(DiskFailed),
        }
    }

    /// Forgets the append that failed, where nothing is pending: what the journal of the set has up
    /// to its gate is all. It does nothing with the disk, and takes no memory.
    pub fn forget_last(&mut self, set: SetNo)
        requires has { HasSet self.old set }
        requires ready { IsReadyAt self.old set }
        ensures ready { IsReadyAt self.new set }
        ensures calm { IsCalmAt self.new set }
        ensures still { StillBare self.old self.new set }
        ensures length { length_at self.new set ≡ length_at self.old set }
        ensures disk { OfBoth self.old self.new set (λ was is. disk_of is ≡ disk_of was) }
        ensures others { KeepsOthers self.old self.new set }
    {
        let store = &mut self.stores[place_of(set)];
        store.forget_last();
    }

    /// Makes sure that the change that is pending is in the journal of a set: it is appended where
    /// it isn't there.
    pub fn keep_pending(
        &mut self,
        alloc: Global,
        set: SetNo,
        change: &Change,
    ) -> Result<(), AppendFault>
        requires has { HasSet self.old set }
        requires counts { HasCounts (plain_of change.now) }
        requires awaits { AwaitsAt self.old set (plain_of change.now) }
        ensures ready { OnOk result (IsReadyAt self.new set) }
        ensures calm { OnOk result (IsCalmAt self.new set) }
        ensures kept { OnOk result
            (Turns self.old self.new set (Some (plain_of change.now)) (λ o. decided o true)) }
        ensures still { OnErr result (StillAwait self.old self.new set (plain_of change.now)) }
        ensures failed { IsErrOf result AppendFault.DiskFault → FailsAt self.old self.new set }
        ensures full { (len : ℕ) → IsErrOf result (AppendFault.Full len)
            → IsTooLong self.new set (plain_of change.now) len }
        ensures ready_full { (len : ℕ) → IsErrOf result (AppendFault.Full len)
            → IsReadyAt self.new set }
        ensures any_moment { IsSafeThrough self.old self.new set
            (Some (plain_of change.now)) (Some (plain_of change.now)) }
        ensures others { KeepsOthers self.old self.new set }
    {
        let store = &mut self.stores[place_of(set)];
        keep(alloc, store, change)
    }

    /// Makes sure that the change that is pending isn't in the journal of a set: it is taken out
    /// where it is there. It takes no memory.
    pub fn drop_pending(&mut self, set: SetNo) -> Result<(), DiskFailed>
        requires has { HasSet self.old set }
        ensures ready { OnOk result (IsReadyAt self.new set) }
        ensures calm { OnOk result (IsCalmAt self.new set) }
        ensures dropped { OnOk result ((c : plain.Change)
            → Turns self.old self.new set (Some c) (λ o. decided o false)) }
        ensures still { OnErr result ((c : plain.Change) → StillAwait self.old self.new set c) }
        ensures failed { OnErr result (FailsAt self.old self.new set) }
        ensures any_moment { (c : plain.Change)
            → IsSafeThrough self.old self.new set (Some c) (Some c) }
        ensures others { KeepsOthers self.old self.new set }
    {
        let store = &mut self.stores[place_of(set)];
        take_out(store)
    }

    /// The length of the journal of a set, in bytes, with the gate that ends it. A change that is
    /// pending isn't counted.
    pub fn journal_len(&self, set: SetNo) -> u64
        requires { HasSet self.now set }
        ensures length { result ≡ min (length_at self.now set) (2 ^ 64 - 1) }
        ensures within { IsReservedAt self.now set result }
    {
        let store = &self.stores[place_of(set)];
        store.journal_len()
    }

    /// How often the disk of a set failed, up to 2^63.
    pub fn faults(&self, set: SetNo) -> u64
        requires { HasSet self.now set }
        ensures { result ≡ faults_at self.now set }
    {
        let store = &self.stores[place_of(set)];
        store.faults()
    }

    /// The greatest length that a journal may have, in bytes.
    pub fn limit(&self) -> u64
        ensures { result ≡ limit_of self.now }
    {
        self.limit
    }

    /// All disks, those of the sets first, set 1 first. It takes no memory.
    pub fn close(self) -> Vec<D>
        ensures { result.items ≡ disks_of self }
    {
        let Stores { stores, spare, .. } = self;
        let mut stores = stores;
        let mut disks = spare;
        'stores: while let Some(store) = stores.pop() {
            disks.insert(0, store.into_disk()).unwrap();
        }
        disks
    }
}
