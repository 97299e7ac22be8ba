//! Runs on disks of which a call fails.

ghost use Rattle.std.specs.Prelude.{◌≡◌, ◌<◌, length, IfOk};

use super::outside::{Ending, TWO_SETS, are_others_untouched, call, copies, disks};
use std::alloc::Global;
use std::process::Abort;
use std::sync::Wait;
use std::test::Fail;
use std::thread::Threads;
use vs_disk::MemDisk;
use vs_gate::OpenGate;
use vs_host::MemHost;

/// A write and a read of bucket 3, at set 1.
const CALLS: &[u8] = b"client\nrw 3 put a 1\nro 3 get a\n";

/// Bucket 3 moves from set 1 to set 2.
const MOVE: &[u8] = b"operator\nsend 3 1 2\n";

/// Runs a script on new disks, of which these calls of the disk of one set fail. The disks of sets 3 to 32 come back as they were, each in
/// its place.
fn run<R: Abort + Threads + Wait + Sync>(
    rt: &R,
    alloc: Global,
    script: &[u8],
    set: u8,
    failing: &[u64],
) -> Result<(Ending, Vec<MemDisk>), Fail>
    ensures { IfOk result (λ r. length r.1.items ≡ 32) }
{
    let files: [(&str, &[u8]); 2] = [("config", TWO_SETS), ("script", script)];
    let mut disks = disks(alloc, set, failing)?;
    let ending = call(rt, alloc, "run", &files, &mut disks, &OpenGate)?;
    assert!(rt; are_others_untouched(&disks), "{failing:?}");
    Ok((ending, disks))
}

/// How many calls a disk has before a run begins. In a run of the client's calls that of set 1 then has four more.
fn calls_to_open<R: Abort + Threads + Wait + Sync>(rt: &R, alloc: Global) -> Result<u64, Fail>
    ensures { IfOk result (λ n. n < 100) }
{
    let (ending, disks) = run(rt, alloc, CALLS, 1, &[])?;
    assert_eq!(rt; ending.status, 0);
    let to_open = disks[1].calls();
    assert!(rt; 0 < to_open && to_open < 100, "{to_open}");
    assert_eq!(rt;
        disks[0].calls(),
        to_open + 4,
        "an append writes and syncs twice"
    );
    Ok(to_open)
}

/// The run can't begin, and says which disk failed.
fn can_not_begin<R: Abort + Threads + Wait + Sync>(
    rt: &R,
    alloc: Global,
    set: u8,
    failing: &[u64],
    line: &[u8],
) -> Result<(), Fail> {
    let (ending, _disks) = run(rt, alloc, CALLS, set, failing)?;
    assert_eq!(rt; ending.status, 7, "{failing:?}");
    assert_eq!(rt; ending.host.logged(), line, "{failing:?}");
    assert_eq!(rt; ending.host.put_out(), b"".as_slice());
    Ok(())
}

/// Whether the log of a run of this script, played on new disks, gives the same report.
fn is_played_again<'a, R: Threads + Wait + Sync>(
    rt: &R,
    alloc: Global,
    script: &'a [u8],
    host: &'a MemHost,
) -> Result<bool, Fail> {
    let files: [(&str, &[u8]); 3] = [
        ("config", TWO_SETS),
        ("events", host.logged()),
        ("script", script),
    ];
    let mut disks = disks(alloc, 1, &[])?;
    let again = call(rt, alloc, "play", &files, &mut disks, &OpenGate)?;
    Ok(again.status == 0 && again.host.put_out() == host.put_out())
}

/// The write is lost where a call of its append fails, and is there afterwards or not.
fn loses<R: Abort + Threads + Wait + Sync>(
    rt: &R,
    alloc: Global,
    number: u64,
    is_kept: bool,
) -> Result<(), Fail> {
    let (ending, _disks) = run(rt, alloc, CALLS, 1, &[number])?;
    assert_eq!(rt; ending.status, 0, "call {number}");
    let report = str::from_utf8(ending.host.put_out())?;
    let log = str::from_utf8(ending.host.logged())?;
    assert!(rt; report.contains("\ncall 1 1 lost\n"), "{report}");
    let has_write = report.contains("\nwrite 1 1 1 put a 1 => done\n");
    assert_eq!(rt; has_write, is_kept, "{report}");
    assert!(rt; log.contains("\nfault 1 1 act 1\n"), "{log}");
    let restart = if is_kept {
        "\nrestart 1 kept service\n"
    } else {
        "\nrestart 1 bare service\n"
    };
    assert!(rt; log.contains(restart), "{log}");
    assert!(rt; is_played_again(rt, alloc, CALLS, &ending.host)?, "{log}");
    Ok(())
}

#[test]
fn a_call_of_a_disk_fails(rt: HostRuntime) -> Result<(), Fail> {
    let alloc = rt.alloc();
    let to_open = calls_to_open(&rt, alloc)?;
    for number in 0..to_open {
        can_not_begin(&rt, alloc, 1, &[number], b"vshard: disk 1\n")?;
        can_not_begin(&rt, alloc, 2, &[number], b"vshard: disk 2\n")?;
    }
    for number in 0..4 {
        loses(&rt, alloc, to_open + number, 2 <= number)?;
    }
    Ok(())
}

/// The run ends, and its log gives the same report again. Or its calls and commands were answered and a disk failed when the cluster was
/// brought to rest, which is then said behind the events. The journals fit together.
fn ends<R: Abort + Threads + Wait + Sync>(
    rt: &R,
    alloc: Global,
    script: &[u8],
    set: u8,
    failing: &[u64],
    line: &[u8],
) -> Result<(), Fail> {
    let (ending, disks) = run(rt, alloc, script, set, failing)?;
    if ending.status == 0 {
        let is_same = is_played_again(rt, alloc, script, &ending.host)?;
        assert!(rt; is_same, "{failing:?}");
    } else {
        assert_eq!(rt; ending.status, 7, "{failing:?}");
        assert!(rt; ending.host.logged().ends_with(line), "{failing:?}");
        assert_eq!(rt; ending.host.put_out(), b"".as_slice());
    }
    let files: [(&str, &[u8]); 1] = [("config", TWO_SETS)];
    let mut disks = copies(alloc, &disks)?;
    let info = call(rt, alloc, "info", &files, &mut disks, &OpenGate)?;
    assert_eq!(rt; info.status, 0, "{failing:?}");
    Ok(())
}

// Which calls of the disks a run has depends on the order of its events: a set may be started again by its service while the client goes
// on, or when all is answered.
#[test]
fn disks_fail_again_and_again(rt: HostRuntime) -> Result<(), Fail> {
    let alloc = rt.alloc();
    let to_open = calls_to_open(&rt, alloc)?;
    let last_calls = [to_open + 3, to_open + 4, to_open + 5, to_open + 7];
    ends(&rt, alloc, CALLS, 1, &last_calls, b"\nvshard: disk 1\n")?;
    for step in 0..40 {
        let number = to_open + step;
        let calls = [number, number + 1, number + 4];
        ends(&rt, alloc, MOVE, 1, &calls, b"\nvshard: disk 1\n")?;
        ends(&rt, alloc, MOVE, 2, &calls, b"\nvshard: disk 2\n")?;
    }
    Ok(())
}
