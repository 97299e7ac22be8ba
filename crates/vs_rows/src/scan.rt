//! Scans of rows with changes that aren't made yet.

ghost use Rattle.std.specs.Prelude.{◌≡◌, ◌≤◌, ◌∷◌, [], ◌++◌, length, take, OnOk, IfOk};
ghost use Rattle.vs_rows.specs.RowMap.{IsRising, rows_from};
ghost use Rattle.vs_rows.specs.Changes.{with_changes, row_of};

use crate::key::Key;
use crate::page::Page;
use crate::sorted;
use crate::val::Val;
use std::alloc::Global;
use vs_base::{Items, NoMemory};

/// The first rows that the changes leave, from a key on. The rows between two changes are copied
/// in one go.
pub(crate) fn scan(
    alloc: Global,
    rows: &[(Key, Val)],
    changes: &[(Key, Option<Val>)],
    from: &Key,
    n: usize,
) -> Result<Page, NoMemory>
    requires rows { IsRising rows.now }
    requires changes { IsRising changes.now }
    requires short { n ≤ 1000 }
    ensures { IfOk result (λ page.
        page.items ≡ take n (rows_from (with_changes rows.now changes.now) from.now)) }
{
    let mut read = Items::new(alloc);
    let mut rest = sorted::rows_from(rows, from);
    for change in sorted::rows_from(changes, from) {
        read_rows(&mut read, sorted::rows_below(rest, &change.0), n)?;
        read_change(&mut read, change, n)?;
        rest = sorted::rows_above(rest, Some(&change.0));
    }
    read_rows(&mut read, rest, n)?;
    Ok(Page::from_items(read))
}

/// Reads the row that a change leaves, if any, up to n in all.
fn read_change(
    read: &mut Items<(Key, Val)>,
    change: &(Key, Option<Val>),
    n: usize,
) -> Result<(), NoMemory>
    requires { length read.old.items ≤ n }
    ensures { OnOk result (read.new.items ≡ take n (read.old.items ++ row_of change.now)) }
{
    if let (key, Some(value)) = change {
        if read.len() < n {
            let row = (key.try_clone()?, value.try_clone()?);
            read.reserve()?;
            read.push(row);
        }
    }
    Ok(())
}

/// Reads rows, up to n in all.
fn read_rows(read: &mut Items<(Key, Val)>, rows: &[(Key, Val)], n: usize) -> Result<(), NoMemory>
    requires { length read.old.items ≤ n }
    ensures { OnOk result (read.new.items ≡ take n (read.old.items ++ rows.now)) }
{
    let count = rows.len().min(n - read.len());
    read.reserve_many(count)?;
    for (key, value) in &rows[..count] {
        read.push((key.try_clone()?, value.try_clone()?));
    }
    Ok(())
}
