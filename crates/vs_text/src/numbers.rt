//! Decimal numbers.

ghost use Rattle.std.specs.Prelude.{ℕ, Some, ◌≡◌, ◌≤◌, ◌<◌, ◌^◌, ◌++◌, decimal, OnOk, OnErr, IsTrue, ◌↔◌};
ghost use Rattle.std.specs.Option.{SomeIff};
ghost use Rattle.std.specs.Str.Parse.{digits_value};
ghost use Rattle.vs_text.specs.Number.{ReadsNumber, IsShortNumeral, IsPlain, read_digits, with_digit};

use itoa::Buffer;
use vs_base::NoMemory;

/// The number with one more decimal digit at its end, where it is below 2^64.
#[inline]
fn with_digit(number: u64, digit: u8) -> Option<u64>
    ensures { result ≡ with_digit number digit }
{
    if !digit.is_ascii_digit() {
        return None;
    }
    number.checked_mul(10)?.checked_add(u64::from(digit - b'0'))
}

/// The number that decimal digits write, where it is below 2^64. No digits write 0.
#[inline]
fn value_of(digits: &[u8]) -> Option<u64>
    ensures { result ≡ read_digits 0 digits.now }
{
    let mut number = 0;
    for digit in digits {
        number = with_digit(number, *digit)?;
    }
    Some(number)
}

/// The number that one to nine decimal digits write. They may begin with zeros.
pub fn number(word: &[u8]) -> Option<u32>
    ensures value { SomeIff result (IsShortNumeral word.now) (digits_value 10 word.now) }

    // The digits that `put_number` writes are read again.
    ensures again { (n : ℕ) → n < 10 ^ 9 → word.now ≡ decimal n → result ≡ Some n }
{
    if word.is_empty() || word.len() > 9 {
        return None;
    }
    match value_of(word) {
        Some(number) => Some(number as u32),
        None => None,
    }
}

fn is_plain(word: &[u8]) -> bool
    ensures { IsTrue result ↔ IsPlain word.now }
{
    !word.is_empty() && (word[0] != b'0' || word.len() == 1)
}

/// The number of this range that a word writes in decimal digits, without leading zeros.
pub fn number_between(word: &[u8], least: u64, most: u64) -> Option<u64>
    ensures value { ReadsNumber (λ n. (least ≤ n) × (n ≤ most)) word.now result }

    // The digits that `put_number` writes are read again.
    ensures again { (n : ℕ) → least ≤ n → n ≤ most → word.now ≡ decimal n → result ≡ Some n }
{
    if !is_plain(word) {
        return None;
    }
    match value_of(word) {
        Some(number) => {
            if least <= number && number <= most {
                Some(number)
            } else {
                None
            }
        }
        None => None,
    }
}

/// Appends the decimal digits of a number, without leading zeros.
pub fn put_number(out: &mut Vec<u8>, n: u64) -> Result<(), NoMemory>
    ensures written { OnOk result (out.new.items ≡ out.old.items ++ decimal n) }
    ensures same { OnErr result (out.new.items ≡ out.old.items) }
{
    out.extend_from_slice(Buffer::new().format(n).as_bytes())?;
    Ok(())
}
