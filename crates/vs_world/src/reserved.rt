//! Events for which memory was taken ahead.

ghost use Rattle.std.specs.Prelude.{◌≡◌, ◌↔◌, true, Ok, Err, OnOk, OnErr};
ghost use Rattle.vs_core.specs.Core.{IsReservedKind};
ghost use Rattle.vs_core.specs.Safety.{IsSafeEvent, IsSafeRun};
ghost use Rattle.vs_machine.specs.Step.{step};
ghost use Rattle.vs_world.specs.Began.{start_of};
ghost use Rattle.vs_world.specs.Counted.{KeepsCount};
ghost use Rattle.vs_world.specs.Played.{IsAdvanced, IsSame, began, state_of};
ghost use Rattle.vs_world.specs.World.{IsKept};

use crate::world::World;
use vs_base::NoMemory;
use vs_core::safe_runs;
use vs_disk::Disk;
use vs_event::{Event, Reason};
use vs_machine::{given_inputs, recorded_changes, steered_posts};

impl<D: Disk + Drop> World<D> {
    /// Takes all memory of any one event of the kinds Begin, End, Take, Abort and Close.
    pub fn reserve(&mut self) -> Result<(), NoMemory>
        ensures reserved { OnOk result (self.new.is_reserved ≡ true) }
        ensures same { IsSame self.old.played self.new.played }
        ensures disks { self.new.disks ≡ self.old.disks }
        ensures kept { IsKept D.told self.new }
    {
        self.events.reserve()?;
        self.core.reserve()?;
        Ok(())
    }

    /// Carries out an event of the kinds Begin, End, Take, Abort and Close for which memory was taken. It takes none.
    pub fn step_reserved(&mut self, event: Event) -> Result<(), Reason>
        requires kind { IsReservedKind event }
        requires reserved { self.old.is_reserved ≡ true }
        ensures ok { OnOk result (IsAdvanced self.old.played self.new.played event) }
        ensures refused { (reason : Reason) → (result ≡ Err reason)
            ↔ (step (state_of self.old.played) event ≡ Err reason) }
        ensures unchanged { OnErr result (self.new ≡ self.old) }
        ensures disks { self.new.disks ≡ self.old.disks }
        ensures kept { IsKept D.told self.new }
        ensures counted { KeepsCount D.told self.old self.new }
        ensures event { OnOk result
            (IsSafeEvent (state_of self.old.played) event (state_of self.new.played)) }
        ensures run { IsSafeRun (start_of (began self.new.played)) self.new.played.events }
    {
        safe_runs();
        given_inputs();
        recorded_changes();
        steered_posts();
        self.core.can(&event)?;
        self.events.push(event);
        self.core.apply(&event);
        Ok(())
    }
}
