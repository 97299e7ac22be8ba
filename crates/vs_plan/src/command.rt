//! The command: from the two files to the plan, and how it ends.

ghost use Rattle.std.specs.Prelude.{◌≡◌, ◌∷◌, [], Contains, IsTrue, IfErr, OnOk};
ghost use Rattle.vs_ending.specs.Ending.{KeepsHost, NoneRose};
ghost use Rattle.vs_plan.specs.Endings.{AreGood, Ends, IsCause, IsOfOutside, IsPlanned};
ghost use Rattle.vs_plan.specs.Names.{files};

use crate::counts::read_counts;
use crate::fault::PlanFault;
use crate::fault_line::log_fault;
use crate::planning::planned_text;
use std::alloc::Global;
use vs_host::Host;
use vs_inputs::{read_config_file, read_text};

/// The place of the counts among the words after the command, from 1.
const COUNTS_PLACE: u64 = 2;

/// Plans for the files, and puts the plan out.
fn plan_files<H: Host>(
    alloc: Global,
    config: &str,
    counts: &str,
    host: &mut H,
) -> Result<(), PlanFault>
    requires config { IsTrue ((H.told host.old).may_read config.now) }
    requires counts { IsTrue ((H.told host.old).may_read counts.now) }
    ensures host { KeepsHost (H.told host.old) (H.told host.new) }
    ensures log { (H.told host.new).log ≡ (H.told host.old).log }
    ensures ok { OnOk result
        (IsPlanned (H.told host.old) (H.told host.new) (files config.now counts.now)) }
    ensures err { IfErr result (λ fault.
        IsCause fault (H.told host.old) (H.told host.new) (files config.now counts.now)) }
    ensures good { AreGood (H.told host.old).file (files config.now counts.now)
        → IfErr result IsOfOutside }
{
    let config = read_config_file(alloc, host, config)?;
    let text = read_text(host, counts, COUNTS_PLACE)?;
    let counts = read_counts(alloc, &text, config.sets.len())?;
    let text = planned_text(alloc, &config, counts.as_slice())?;
    host.out(&text)?;
    Ok(())
}

/// `plan CONFIG COUNTS`: puts out in how few waves the sets of a configuration come from these counts to their ideals, and what
/// each wave moves. It answers the status, and logs one line where that isn't 0.
pub fn plan<H: Host>(alloc: Global, config: &str, counts: &str, host: &mut H) -> u8
    requires config { IsTrue ((H.told host.old).may_read config.now) }
    requires counts { IsTrue ((H.told host.old).may_read counts.now) }

    // Each status is one of five.
    ensures status { Contains (0 ∷ 3 ∷ 5 ∷ 6 ∷ 9 ∷ []) result }

    // What each of them says.
    ensures ends { Ends result (H.told host.old) (H.told host.new) (files config.now counts.now) }

    // Where neither a read nor a write fails, good files end so.
    ensures good { AreGood (H.told host.old).file (files config.now counts.now)
        → NoneRose (H.told host.old) (H.told host.new) → Contains (0 ∷ 9 ∷ []) result }

    // What stays.
    ensures host { KeepsHost (H.told host.old) (H.told host.new) }
{
    match plan_files(alloc, config, counts, host) {
        Ok(()) => 0,
        Err(fault) => log_fault(alloc, host, &fault),
    }
}
