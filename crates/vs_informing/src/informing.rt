//! The command: from the file of the configuration to the line, and how it ends.

ghost use Rattle.std.specs.Prelude.{◌≡◌, ◌∷◌, [], Contains, IsTrue, IfErr, IfOk, OnOk, length};
ghost use Rattle.vs_config.specs.Configuration.{Configuration, configuration};
ghost use Rattle.vs_config.specs.Lawful.{IsLawful};
ghost use Rattle.vs_ending.specs.Ending.{KeepsHost};
ghost use Rattle.vs_informing.specs.Cluster.{IsInfoOf, IsRefusal, opened_on};
ghost use Rattle.vs_informing.specs.Endings.{Ends, IsCause, IsGood, IsTold, MayEndGood};
ghost use Rattle.vs_inputs.specs.Gives.{GivesConfig};
ghost use Rattle.vs_inputs.specs.Reading as reading;
ghost use Rattle.vs_top.specs.Endings.{AreGoodDisks, NoneRose, between};
ghost use Rattle.vs_top.specs.Faults.{IsNumbered, from_opening};
ghost use Rattle.vs_world.specs.declared.fault.WorldFault.{WorldFault as OpeningFault};

use crate::cluster::opened_info;
use std::alloc::Global;
use std::mem;
use vs_config::Config;
use vs_disk::Disk;
use vs_host::Host;
use vs_inputs::read_config_file;
use vs_top::{Fault, log_fault};

/// What is told of the cluster of a configuration over these disks, which come back.
fn info_of<D: Disk + Drop>(
    alloc: Global,
    config: &Config,
    disks: &mut Vec<D>,
) -> Result<Vec<u8>, Fault>
    requires lawful { IsLawful (configuration config.now) }
    requires disks { length disks.old.items ≡ 32 }
    ensures count { length disks.new.items ≡ 32 }
    ensures ok { IfOk result (λ text. IsInfoOf (opened_on D.told (configuration config.now)
        disks.old.items disks.new.items) text.items) }
    ensures numbered { IfErr result IsNumbered }
    ensures err { IfErr result (λ fault. (cause : OpeningFault)
        × (fault ≡ from_opening cause (configuration config.now))
        × IsRefusal D.told (configuration config.now) disks.old.items cause disks.new.items) }
{
    let given = mem::replace(disks, Vec::new(alloc));
    match opened_info(alloc, config, given) {
        Ok((text, back)) => {
            *disks = back;
            Ok(text)
        }
        Err((fault, back)) => {
            *disks = back;
            Err(Fault::of_opening(fault, config))
        }
    }
}

/// Opens the journals of the configuration's sets, and puts out what is told of them.
fn put_info<H: Host, D: Disk + Drop>(
    alloc: Global,
    config: &str,
    host: &mut H,
    disks: &mut Vec<D>,
) -> Result<(), Fault>
    requires config { IsTrue ((H.told host.old).may_read config.now) }
    requires disks { length disks.old.items ≡ 32 }
    ensures host { KeepsHost (H.told host.old) (H.told host.new) }
    ensures log { (H.told host.new).log ≡ (H.told host.old).log }
    ensures count { length disks.new.items ≡ 32 }
    ensures ok { OnOk result (IsTold (between D.told (H.told host.old) (H.told host.new)
        disks.old.items disks.new.items) config.now) }
    ensures err { IfErr result (λ fault. IsCause fault (between D.told (H.told host.old)
        (H.told host.new) disks.old.items disks.new.items) config.now) }
    ensures good { (value : Configuration)
        → reading.IsGood (H.told host.old).file config.now GivesConfig value
        → AreGoodDisks D.told value disks.old.items → IfErr result MayEndGood }
{
    let config = read_config_file(alloc, host, config)?;
    let text = info_of(alloc, &config, disks)?;
    host.out(&text)?;
    Ok(())
}

/// `info CONFIG`: puts out what the journals of the sets of a configuration hold, as `vs_info` tells it of the cluster that begins
/// with them, in which nothing has happened. It answers the status, and logs one line where that isn't 0. Journals are opened
/// as a play opens them: those of length 0 are created. Of the 32 disks the first has the journal of set 1; they come back in
/// their places.
pub fn inform<H: Host, D: Disk + Drop>(
    alloc: Global,
    config: &str,
    host: &mut H,
    disks: &mut Vec<D>,
) -> u8
    requires config { IsTrue ((H.told host.old).may_read config.now) }
    requires disks { length disks.old.items ≡ 32 }

    // Each status is one of eight.
    ensures status { Contains (0 ∷ 3 ∷ 5 ∷ 6 ∷ 7 ∷ 8 ∷ 9 ∷ 10 ∷ []) result }

    // What each of them says.
    ensures ends { Ends result (between D.told (H.told host.old) (H.told host.new)
        disks.old.items disks.new.items) config.now }

    // Where neither a read nor a write fails, and no disk, a good file over good disks ends so.
    ensures good { IsGood (between D.told (H.told host.old) (H.told host.new)
        disks.old.items disks.new.items) config.now
        → NoneRose (between D.told (H.told host.old) (H.told host.new)
        disks.old.items disks.new.items) → Contains (0 ∷ 9 ∷ []) result }

    // What stays.
    ensures host { KeepsHost (H.told host.old) (H.told host.new) }
    ensures count { length disks.new.items ≡ 32 }
{
    match put_info(alloc, config, host, disks) {
        Ok(()) => 0,
        Err(fault) => log_fault(alloc, host, &fault),
    }
}
