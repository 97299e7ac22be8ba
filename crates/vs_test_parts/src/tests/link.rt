//! A message and its reply, and a connection that is closed.

use std::test::Fail;
use vs_base::{BucketId, SetNo};
use vs_link::{Heard, Links, Msg, Reply};
use vs_rows::{Key, Page, Val};

#[test]
fn messages(rt: HostRuntime) -> Result<(), Fail> {
    let alloc = rt.alloc();
    let one = SetNo::new(1).expect(&rt, "1 is a set");
    let two = SetNo::new(2).expect(&rt, "2 is a set");
    let bucket = BucketId::new(3).expect(&rt, "3 is a bucket");
    let mut page = Page::new(alloc);
    page.reserve()?;
    page.push((Key::new(alloc, b"a")?, Val::new(alloc, b"1")?));
    let mut links = Links::new(alloc, 2)?;
    links.reserve(one, two)?;
    assert_eq!(rt; links.post(one, two, Msg::Chunk(bucket, page)), 0);
    links.reserve(one, two)?;
    assert_eq!(rt; links.post(one, two, Msg::Last(bucket)), 1);
    let copy = links.try_clone()?;
    let posted = links.take_call(one, two).expect(&rt, "a call");
    assert_eq!(rt; posted.sync, 0);
    links.answer(
        one,
        two,
        Heard {
            sync: 0,
            bucket,
            reply: Reply::Took,
        },
    );
    links.close(one, two);
    assert_eq!(rt; links.epoch(one, two), 1);
    assert!(rt; links.head_call(one, two).is_none());
    assert!(rt; links.head_reply(one, two).is_none());
    assert!(rt;
        copy.head_call(one, two)
            .is_some_and(|posted| posted.sync == 0)
    );
    Ok(())
}
