//! A new cluster of two sets.

ghost use Rattle.std.specs.Prelude.{◌≡◌, [], length, IfOk};

use crate::{config, new_core};
use std::alloc::Global;
use std::test::Fail;
use vs_base::{BucketId, NoMemory, SetNo};
use vs_core::Core;
use vs_script::{ClientCalls, OperatorCommands, Scripts};
use vs_survey::{finished, page, serves, settled};

fn no_scripts(alloc: Global) -> Scripts
    ensures clients { result.clients.items ≡ [] }
    ensures operators { result.operators.items ≡ [] }
{
    Scripts {
        clients: ClientCalls::new(alloc),
        operators: OperatorCommands::new(alloc),
    }
}

fn boot(alloc: Global) -> Result<Core, NoMemory> {
    new_core(alloc, &config(alloc)?, no_scripts(alloc))
}

#[test]
fn reads_a_new_cluster(rt: HostRuntime) -> Result<(), Fail> {
    let one = SetNo::new(1).expect(&rt, "1 is a set");
    let two = SetNo::new(2).expect(&rt, "2 is a set");
    let first = BucketId::new(1).expect(&rt, "1 is a bucket");
    let core = boot(rt.alloc())?;
    assert!(rt; finished(&core), "nothing is to be answered");
    assert!(rt; settled(&core), "nothing is under way");
    assert!(rt; serves(&core, one, first), "set 1 has bucket 1");
    assert!(rt; !serves(&core, two, first), "set 2 hasn't");
    assert_eq!(rt; page(&core, one, None)?.len(), 3);
    assert_eq!(rt; page(&core, one, Some(first))?.len(), 2);
    Ok(())
}
