//! Each step of a deletion, with what it needs and without.

use std::test::Fail;
use vs_base::SetNo;
use vs_collect::{Unmet, condemn, forget, wipe_some};
use vs_rows::{Key, Page, Rows, Val};
use vs_space::Status;

#[test]
fn steps(rt: HostRuntime) -> Result<(), Fail> {
    let alloc = rt.alloc();
    let two = SetNo::new(2).expect(&rt, "2 is a set");
    let sent = Some(Status::Sent(two));
    let active = Some(Status::Active);
    let garbage = Some(Status::Garbage);
    for (status, live, reads, want) in [
        (sent, false, 0, Ok(())),
        (sent, true, 1, Err(Unmet::Live)),
        (sent, false, 1, Err(Unmet::Referenced(1))),
        (None, true, 1, Err(Unmet::Unfit(None))),
    ] {
        assert_eq!(rt; condemn(status, live, reads), want);
    }
    for (status, rows, want) in [
        (garbage, 0, Ok(())),
        (garbage, 3, Err(Unmet::Rows(3))),
        (active, 3, Err(Unmet::Unfit(active))),
    ] {
        assert_eq!(rt; forget(status, rows), want);
    }
    let mut page = Page::new(alloc);
    page.reserve()?;
    page.push((Key::new(alloc, b"a")?, Val::new(alloc, b"1")?));
    let mut rows = Rows::new(alloc);
    rows.reserve(1)?;
    rows.put_page(page);
    assert_eq!(rt; wipe_some(None, &mut rows), Err(Unmet::Unfit(None)));
    assert_eq!(rt; wipe_some(Some(Status::Garbage), &mut rows), Ok(1));
    assert_eq!(rt;
        wipe_some(Some(Status::Garbage), &mut rows),
        Err(Unmet::NoRows)
    );
    Ok(())
}
