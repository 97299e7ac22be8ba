//! Why files are not played.

ghost use Rattle.std.specs.Prelude.{◌≡◌, ◌≤◌, length};
ghost use Rattle.vs_config.specs.Configuration.{configuration};
ghost use Rattle.vs_world.specs.declared.fault.WorldFault.TheVariants as opening;
ghost use Rattle.vs_top.specs.Faults.{IsNumbered, IsOfPlay, IsOfSets, from_opening, from_play, uuid_in};

use crate::play::PlayFault;
use uuid::Uuid;
use vs_base::{BucketId, NoMemory, SetNo};
use vs_config::Config;
use vs_core::Placement;
use vs_event::Reason;
use vs_host::HostFailed;
use vs_inputs::{InputFault, TextFault};
use vs_store::StoreFault;
use vs_world::WorldFault;

/// Why files are not played. An input is named by the place of its file among the words after the command, from 1.
#[derive(Drop)]
pub enum Fault {
    /// The words are no command.
    Words,
    /// This is wrong with the text of the input.
    Text(u64, TextFault),
    /// The event of this number, counted from 1, is impossible after those before it.
    Event(u64, Reason),
    /// Reading the file of the input failed.
    Read(u64),
    /// Putting the report out failed.
    Write,
    /// The disk of this set failed.
    Disk(SetNo),
    /// The journal of this set is none, or not that of this uuid in a cluster of so many buckets.
    Journal(SetNo, StoreFault, Uuid),
    /// What the journals stand for doesn't fit together in this bucket, which these sets have.
    Incoherent(BucketId, Placement),
    /// An entry would carry the journal of this set past the limit.
    Full(SetNo),
    /// Memory was refused.
    NoMemory,
}

/// The uuid of a set of a configuration.
fn uuid_of(config: &Config, set: SetNo) -> Uuid
    requires { set ≤ length config.now.sets.items }
    ensures { result ≡ uuid_in (configuration config.now) set }
{
    match config.sets.get(usize::from(set.get()) - 1) {
        Some(of_set) => of_set.uuid,
        None => unreachable!(),
    }
}

/// The fault of a journal that was refused.
fn of_journal(set: SetNo, fault: StoreFault, config: &Config) -> Fault
    requires { set ≤ length config.now.sets.items }
    ensures is { result ≡ from_opening (opening.OfSet set fault) (configuration config.now) }
    ensures numbered { IsNumbered result }
{
    match fault {
        StoreFault::DiskFault => Fault::Disk(set),
        StoreFault::Full(_) => Fault::Full(set),
        StoreFault::NoMemory => Fault::NoMemory,
        StoreFault::NotAJournal(_) | StoreFault::OtherSet(_) | StoreFault::OtherCount(_) => {
            Fault::Journal(set, fault, uuid_of(config, set))
        }
    }
}

impl Fault {
    ghost use Rattle.std.specs.Prelude.{◌≡◌};
    ghost use Rattle.vs_top.specs.Statuses.{status_of};

    /// The status with which the command ends.
    pub fn status(&self) -> u8
        ensures { result ≡ status_of self.now }
    {
        match self {
            Fault::Words => 2,
            Fault::Text(_, _) => 3,
            Fault::Event(_, _) => 4,
            Fault::Read(_) => 5,
            Fault::Write => 6,
            Fault::Disk(_) => 7,
            Fault::Journal(_, _, _) | Fault::Incoherent(_, _) => 8,
            Fault::NoMemory => 9,
            Fault::Full(_) => 10,
        }
    }

    /// Why the journals of this configuration weren't opened.
    pub fn of_opening(fault: WorldFault, config: &Config) -> Fault
        requires { IsOfSets fault (length config.now.sets.items) }
        ensures is { result ≡ from_opening fault (configuration config.now) }
        ensures numbered { IsNumbered result }
    {
        match fault {
            WorldFault::OfSet(set, fault) => of_journal(set, fault, config),
            WorldFault::Incoherent { bucket, entries } => Fault::Incoherent(bucket, entries),
            WorldFault::NoMemory => Fault::NoMemory,
        }
    }

    /// Why a cluster of this configuration wasn't played to the end.
    pub fn of_play(fault: PlayFault, config: &Config) -> Fault
        requires { IsOfPlay fault (length config.now.sets.items) }
        ensures is { result ≡ from_play fault (configuration config.now) }
        ensures numbered { IsNumbered result }
    {
        match fault {
            PlayFault::Opening(fault) => Fault::of_opening(fault, config),
            PlayFault::Event(number, reason) => Fault::Event(number, reason),
            PlayFault::Disk(_, set) => Fault::Disk(set),
            PlayFault::Full(_, set) => Fault::Full(set),
            PlayFault::NoMemory => Fault::NoMemory,
        }
    }
}

impl From<InputFault> for Fault {
    ghost use Rattle.std.specs.Prelude.{◌≡◌};
    ghost use Rattle.vs_top.specs.Faults.{from_inputs};

    ghost from_gives = { λ e fault. fault ≡ from_inputs e };

    fn from(e: InputFault) -> Self {
        match e {
            InputFault::Text(input, fault) => Fault::Text(input, fault),
            InputFault::Read(input) => Fault::Read(input),
            InputFault::NoMemory => Fault::NoMemory,
        }
    }
}

impl From<NoMemory> for Fault {
    ghost use Rattle.std.specs.Prelude.{◌≡◌};
    ghost use Rattle.vs_top.specs.declared.fault.Fault.TheVariants as faults;

    ghost from_gives = { λ _ fault. fault ≡ faults.NoMemory };

    fn from(_e: NoMemory) -> Self {
        Fault::NoMemory
    }
}

impl From<HostFailed> for Fault {
    ghost use Rattle.std.specs.Prelude.{◌≡◌};
    ghost use Rattle.vs_top.specs.declared.fault.Fault.TheVariants as faults;

    ghost from_gives = { λ _ fault. fault ≡ faults.Write };

    fn from(_e: HostFailed) -> Self {
        Fault::Write
    }
}
