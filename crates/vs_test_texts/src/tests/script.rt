//! Scripts that are copied, alone and together.

use std::test::Fail;
use vs_base::Mode;
use vs_config::read_config;
use vs_rows::Op;
use vs_script::{Command, Script, gather, read_script};

const CONFIG: &[u8] =
    b"bucket_count = 9\n[[set]]\nuuid = \"00000000-0000-4000-8000-000000000001\"\n[[set]]\nuuid = \"00000000-0000-4000-8000-000000000002\"\n";

const CLIENT: &[u8] = b"client\nro 1 count\nrw 9 put a 1 ; scan b 100\n";

const OPERATOR: &[u8] = b"operator\nsend 1 1 2\ncut 1 2\nbalance\n";

#[test]
fn scripts_are_copied(rt: HostRuntime) -> Result<(), Fail> {
    let alloc = rt.alloc();
    let config = read_config(alloc, CONFIG)?;
    let mut given: Vec<Script> = Vec::new(alloc);
    for text in [CLIENT, OPERATOR] {
        given.push(read_script(alloc, text, &config)?.try_clone()?)?;
    }
    let scripts = gather(alloc, given)?.try_clone()?;
    assert_eq!(rt; scripts.clients.len(), 1);
    assert_eq!(rt; scripts.operators.len(), 1);
    let calls = scripts.clients.get(0).expect(&rt, "a client");
    assert_eq!(rt; calls.len(), 2);
    let call = calls.get(1).expect(&rt, "its second call");
    assert!(rt; call.mode == Mode::Rw && call.bucket.get() == 9 && call.ops.len() == 2);
    assert!(rt;
        matches!(call.ops.get(1), Some(Op::Scan(key, 100)) if key.as_bytes() == b"b".as_slice())
    );
    let commands = scripts.operators.get(0).expect(&rt, "an operator");
    assert_eq!(rt; commands.len(), 3);
    assert!(rt; matches!(commands.get(1), Some(Command::Cut(client, 2)) if client.get() == 1));
    assert!(rt; matches!(commands.get(2), Some(Command::Balance)));
    Ok(())
}
