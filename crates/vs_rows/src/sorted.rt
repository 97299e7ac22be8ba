//! Rows in a vector, rising by key.

ghost use Rattle.std.specs.Prelude.{◌≡◌, ◌<◌, ◌≤◌, ◌+◌, ◌-◌, MatchResult, vec_len, vec_capacity};
ghost use Rattle.std.specs.Option.{option_copied};
ghost use Rattle.vs_rows.specs.RowMap.{IsRising, value_of, with_value, without_key, rows_below, rows_from, rows_above};
ghost use Rattle.vs_rows.specs.Place.{FoundAt, MissingAt};

use crate::key::Key;
use std::cmp::Ordering;

/// Where a key stands, or where it would. It is found by halving.
fn place<V>(rows: &[(Key, V)], key: &Key) -> Result<usize, usize>
    requires { IsRising rows.now }
    ensures { MatchResult result (FoundAt rows.now key.now) (MissingAt rows.now key.now) }
{
    let mut low = 0;
    let mut high = rows.len();
    while low < high {
        let mid = low + (high - low) / 2;
        match key.cmp(&rows[mid].0) {
            Ordering::Less => high = mid,
            Ordering::Equal => return Ok(mid),
            Ordering::Greater => low = mid + 1,
        }
    }
    Err(low)
}

/// The value of a key.
pub(crate) fn value<'a, V>(rows: &'a [(Key, V)], key: &Key) -> Option<&'a V>
    requires { IsRising rows.now }
    ensures { option_copied result ≡ value_of rows.now key.now }
{
    match place(rows, key) {
        Ok(i) => Some(&rows[i].1),
        Err(_) => None,
    }
}

/// The rows whose key is below this one.
pub(crate) fn rows_below<'a, V>(rows: &'a [(Key, V)], key: &Key) -> &'a [(Key, V)]
    requires { IsRising rows.now }
    ensures { result.now ≡ rows_below rows.now key.now }
{
    match place(rows, key) {
        Ok(i) | Err(i) => &rows[..i],
    }
}

/// The rows whose key isn't below this one.
pub(crate) fn rows_from<'a, V>(rows: &'a [(Key, V)], key: &Key) -> &'a [(Key, V)]
    requires { IsRising rows.now }
    ensures items { result.now ≡ rows_from rows.now key.now }
    ensures rising { IsRising result.now }
{
    match place(rows, key) {
        Ok(i) | Err(i) => &rows[i..],
    }
}

/// The rows whose key is above this one, or all rows.
pub(crate) fn rows_above<'a, V>(rows: &'a [(Key, V)], key: Option<&Key>) -> &'a [(Key, V)]
    requires { IsRising rows.now }
    ensures items { result.now ≡ rows_above rows.now (option_copied key.entry) }
    ensures rising { IsRising result.now }
{
    match key {
        Some(key) => match place(rows, key) {
            Ok(i) => &rows[i + 1..],
            Err(i) => &rows[i..],
        },
        None => rows,
    }
}

/// Sets the value of a key. There is room for one row, and it takes no memory.
#[tactic(auto, using(crate::proofs::Rising::rising_with))]
pub(crate) fn put<V: Drop>(rows: &mut Vec<(Key, V)>, key: Key, value: V)
    requires rising { IsRising rows.old.items }
    requires room { vec_len rows.old < vec_capacity rows.old }
    ensures items { rows.new.items ≡ with_value rows.old.items key value }
    ensures rising { IsRising rows.new.items }
    ensures room { vec_capacity rows.old - vec_len rows.old
        ≤ vec_capacity rows.new - vec_len rows.new + 1 }
{
    match place(rows, &key) {
        Ok(i) => rows[i].1 = value,
        Err(i) => rows.insert(i, (key, value)).unwrap(),
    }
}

/// Removes a key, which may be there or not.
pub(crate) fn remove<V: Drop>(rows: &mut Vec<(Key, V)>, key: &Key)
    requires { IsRising rows.old.items }
    ensures items { rows.new.items ≡ without_key rows.old.items key.now }
    ensures rising { IsRising rows.new.items }
    ensures room { vec_capacity rows.old - vec_len rows.old
        ≤ vec_capacity rows.new - vec_len rows.new }
{
    if let Ok(i) = place(rows, key) {
        rows.remove(i);
    }
}
