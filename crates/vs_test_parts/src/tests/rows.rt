//! Rows, and operations on them.

use std::alloc::Global;
use std::test::Fail;
use vs_rows::{Answer, Answers, Changes, Key, Op, Ops, Page, RowFault, Rows, Val, copy_answers};

fn key(alloc: Global, text: &str) -> Result<Key, RowFault> {
    Key::new(alloc, text.as_bytes())
}

fn val(alloc: Global, text: &str) -> Result<Val, RowFault> {
    Val::new(alloc, text.as_bytes())
}

#[test]
fn names(rt: HostRuntime) {
    let alloc = rt.alloc();
    for text in ["a", ";;", "!", "~"] {
        assert!(rt; key(alloc, text).is_ok(), "{text}");
        assert!(rt; val(alloc, text).is_ok(), "{text}");
    }
    for text in ["", ";", "a b", "\n", "\u{7f}"] {
        assert!(rt;
            matches!(key(alloc, text), Err(RowFault::BadText)),
            "{text}"
        );
        assert!(rt;
            matches!(val(alloc, text), Err(RowFault::BadText)),
            "{text}"
        );
    }
}

/// Rows with these keys, each with itself as its value.
fn rows_of(alloc: Global, keys: &[&str]) -> Result<Rows, Fail> {
    let mut rows = Rows::new(alloc);
    for text in keys {
        rows.apply(&Ops::one(alloc, Op::Put(key(alloc, text)?, val(alloc, text)?))?)?;
    }
    Ok(rows)
}

/// Whether rows have these keys alone.
fn has_keys(alloc: Global, rows: &Rows, keys: &[&str]) -> Result<bool, Fail> {
    Ok(rows.equals(&rows_of(alloc, keys)?))
}

#[test]
fn pages(rt: HostRuntime) -> Result<(), Fail> {
    let alloc = rt.alloc();
    let rows = rows_of(alloc, &["c", "a", "b"])?;
    let page = rows.page(Some(&key(alloc, "a")?), 1)?;
    let mut copy = rows_of(alloc, &["a"])?;
    copy.reserve(1)?;
    copy.put_page(page);
    assert!(rt; has_keys(alloc, &copy, &["a", "b"])?);
    Ok(())
}

#[test]
fn stages(rt: HostRuntime) -> Result<(), Fail> {
    let alloc = rt.alloc();
    let mut rows = rows_of(alloc, &["a", "b"])?;
    let staged = rows.stage(&Ops::one(alloc, Op::Delete(key(alloc, "a")?))?)?;
    assert!(rt; has_keys(alloc, &rows, &["a", "b"])?);
    rows.commit(staged.changes);
    assert!(rt; has_keys(alloc, &rows, &["b"])?);
    Ok(())
}

#[test]
fn copies_rows(rt: HostRuntime) -> Result<(), Fail> {
    let alloc = rt.alloc();
    let rows = rows_of(alloc, &["a", "b"])?;
    assert!(rt; has_keys(alloc, &rows.try_clone()?, &["a", "b"])?);
    assert_eq!(rt; rows.page(None, 1_000)?.try_clone()?.len(), 2);
    Ok(())
}

#[test]
fn copies_operations(rt: HostRuntime) -> Result<(), Fail> {
    let alloc = rt.alloc();
    let mut ops = Ops::one(alloc, Op::Delete(key(alloc, "a")?))?;
    ops.reserve()?;
    ops.push(Op::Count.try_clone()?);
    let staged = Rows::new(alloc).stage(&ops.try_clone()?)?.try_clone()?;
    assert_eq!(rt; staged.answers.len(), 2);
    assert_eq!(rt; staged.changes.len(), 0);
    Ok(())
}

#[test]
fn lists(rt: HostRuntime) -> Result<(), Fail> {
    let alloc = rt.alloc();
    let first = key(alloc, "a")?;
    let mut changes = Changes::new(alloc);
    changes.reserve()?;
    changes.push((first.try_clone()?, None));
    assert_eq!(rt; changes.try_clone()?.len(), 1);

    let mut page = Page::new(alloc);
    assert!(rt; page.can_push(&first));
    page.reserve()?;
    page.push((first, val(alloc, "1")?.try_clone()?));
    assert_eq!(rt; page.len(), 1);
    Ok(())
}

#[test]
fn copies_answers(rt: HostRuntime) -> Result<(), Fail> {
    let alloc = rt.alloc();
    let mut answers = Answers::new(alloc);
    answers.reserve()?;
    answers.push(Answer::Number(1).try_clone()?);
    let copied = copy_answers(alloc, &answers)?;
    assert!(rt; matches!(copied.get(0), Some(Answer::Number(1))));
    Ok(())
}
