//! Work that is generated, against calls that another program drew.

use std::process::Abort;
use std::test::Fail;
use uuid::Uuid;
use vs_config::Config;
use vs_gen::generate;
use vs_rows::Op;
use vs_script::{Call, Calls, Command, Script, Scripts, read_script};

/// The first and the last call of the first client, one of the second, and the first and the last
/// of the eighth.
const CALLS: &[u8] =
    b"client\nrw 279 put k31 v673\nrw 1697 put k13 v206\nrw 2388 insert k4 v976 ; count\nro 2953 get k22\nro 2981 count ; scan k8 5\n";

/// The clients and the numbers of these calls, from 0.
const PLACES: [(usize, usize); 5] = [(0, 0), (0, 2_499), (1, 2), (7, 0), (7, 2_499)];

fn is_same_op(op: &Op, other: &Op) -> bool {
    match (op, other) {
        (Op::Get(key), Op::Get(wanted)) => key == wanted,
        (Op::Put(key, value), Op::Put(wanted, other)) => key == wanted && value == other,
        (Op::Insert(key, value), Op::Insert(wanted, other)) => key == wanted && value == other,
        (Op::Count, Op::Count) => true,
        (Op::Scan(key, rows), Op::Scan(wanted, other)) => key == wanted && rows == other,
        _ => false,
    }
}

fn is_same_call(call: &Call, other: &Call) -> bool {
    let (ops, others) = (call.ops.as_slice(), other.ops.as_slice());
    call.mode == other.mode
        && call.bucket == other.bucket
        && ops.len() == others.len()
        && ops
            .iter()
            .zip(others)
            .all(|(op, other)| is_same_op(op, other))
}

fn expect_calls(rt: &impl Abort, scripts: &Scripts, wanted: &Calls) {
    assert_eq!(rt; scripts.clients.len(), 8);
    for client in scripts.clients.as_slice() {
        assert_eq!(rt; client.len(), 2_500);
    }
    assert_eq!(rt; wanted.len(), PLACES.len());
    for ((client, number), wanted) in PLACES.iter().zip(wanted.as_slice()) {
        let calls = scripts.clients.get(*client).expect(rt, "a client");
        let call = calls.get(*number).expect(rt, "a call");
        assert!(rt;
            is_same_call(call, wanted),
            "call {number} of client {client}"
        );
    }
}

fn expect_sets(rt: &impl Abort, config: &Config, weights: &[u32]) {
    assert_eq!(rt; config.sets.len(), weights.len());
    for ((i, set), weight) in config.sets.as_slice().iter().enumerate().zip(weights) {
        let uuid = Uuid::from_u128(0x4000_8000_0000_0000_0001 + i as u128);
        assert!(rt; set.uuid == uuid && set.weight == *weight && !set.lock);
    }
}

#[test]
fn work_is_generated(rt: HostRuntime) -> Result<(), Fail> {
    let alloc = rt.alloc();
    let work = generate(alloc, 7)?;
    expect_sets(&rt, &work.first, &[1, 1, 1, 1]);
    expect_sets(&rt, &work.second, &[2, 1, 1, 1]);
    assert_eq!(rt; work.second.bucket_count, 3_000);
    match read_script(alloc, CALLS, &work.second)? {
        Script::Client(wanted) => expect_calls(&rt, &work.scripts, &wanted),
        Script::Operator(_) => assert!(rt; false),
    }
    assert_eq!(rt; work.scripts.operators.len(), 1);
    let commands = work.scripts.operators.get(0).expect(&rt, "an operator");
    assert_eq!(rt; commands.len(), 1);
    assert!(rt; matches!(commands.get(0), Some(Command::Balance)));
    Ok(())
}
