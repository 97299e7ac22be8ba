//! The keys and values of generated calls.

ghost use Rattle.std.specs.Prelude.{◌≡◌, ◌∷◌, decimal, IfOk};
ghost use Rattle.vs_gen.specs.Calls.{key_of, value_of};

use std::alloc::Global;
use vs_base::NoMemory;
use vs_rows::{Key, RowFault, Val};
use vs_text::put_number;

/// A letter and a number.
fn text(alloc: Global, letter: u8, number: u32) -> Result<Vec<u8>, NoMemory>
    ensures { IfOk result (λ text. text.items ≡ letter ∷ decimal number) }
{
    let mut text = Vec::from_slice(alloc, &[letter])?;
    put_number(&mut text, u64::from(number))?;
    Ok(text)
}

/// One of a hundred keys.
pub(crate) fn key(alloc: Global, draw: u32) -> Result<Key, NoMemory>
    ensures { IfOk result (λ key. key ≡ key_of draw) }
{
    let text = text(alloc, b'k', draw % 100)?;
    match Key::new(alloc, &text) {
        Ok(key) => Ok(key),
        Err(RowFault::BadText) => unreachable!(),
        Err(RowFault::NoMemory) => Err(NoMemory),
    }
}

/// One of a thousand values.
pub(crate) fn value(alloc: Global, draw: u32) -> Result<Val, NoMemory>
    ensures { IfOk result (λ value. value ≡ value_of draw) }
{
    let text = text(alloc, b'v', draw % 1_000)?;
    match Val::new(alloc, &text) {
        Ok(value) => Ok(value),
        Err(RowFault::BadText) => unreachable!(),
        Err(RowFault::NoMemory) => Err(NoMemory),
    }
}
