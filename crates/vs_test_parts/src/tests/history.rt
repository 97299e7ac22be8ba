//! A write and a read of one bucket, and its rows at both places.

use std::test::Fail;
use vs_base::{CallId, ClientNo, Items};
use vs_history::History;
use vs_rows::{Key, Op, Ops, Rows, Val};

#[test]
fn places(rt: HostRuntime) -> Result<(), Fail> {
    let alloc = rt.alloc();
    let client = ClientNo::new(1).expect(&rt, "1 is a client");
    let mut history = History::new(alloc, Rows::new(alloc));
    history.reserve()?;
    let put = Op::Put(Key::new(alloc, b"a")?, Val::new(alloc, b"1")?);
    let get = Op::Get(Key::new(alloc, b"a")?);
    let write = Ops::one(alloc, put)?;
    let read = Ops::one(alloc, get)?;
    let place = history.place_write(CallId { client, call: 1 }, write, Items::new(alloc));
    assert_eq!(rt; place, 1);
    history.place_read(CallId { client, call: 2 }, read, Items::new(alloc), 1);
    assert_eq!(rt; history.writes(), 1);
    assert_eq!(rt; history.reads(), 1);
    assert_eq!(rt; history.rows_at(0)?.len(), 0);
    assert_eq!(rt; history.rows_at(1)?.len(), 1);
    assert_eq!(rt; history.write_entry(1).try_clone()?.place, 1);
    assert_eq!(rt; history.read_entry(1).place, 1);
    Ok(())
}
