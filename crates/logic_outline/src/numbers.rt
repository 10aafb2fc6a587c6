//! Numbers read from their texts.

ghost use Rattle.std.specs.Prelude.{◌≡◌, ℕ, ◌^◌, ◌<◌, ◌≤◌, ◌↔◌, ◌++◌, length, List};
ghost use Rattle.std.specs.Prelude.{decimal, IsTrue, MatchOption};
ghost use Rattle.std.specs.List.{prefix_len};
ghost use Rattle.std.specs.Fmt.{signed_decimal};
ghost use Rattle.lang_base.specs.Identifiers.{is_digit};
ghost use Rattle.logic_outline.specs.Outlines.{IsFactor};
ghost use Rattle.logic_outline.specs.Readings.{IsRead};
ghost use Rattle.logic_outline.specs.inner.Parts.{IsBelow, IsBelowZero, IsFromZero, IsPair};
ghost use Rattle.logic_outline.specs.inner.Parts.{later_factor, later_number};
ghost use Rattle.logic_outline.specs.inner.Parts.{pair_text, text_below_zero};

use itoa::Buffer;
use lang_base::is_digit;

/// A blank and the number of a row.
pub(crate) fn row<'a>(bytes: &'a [u8]) -> Option<(u32, &'a [u8])>
    ensures { IsRead later_number (IsBelow (2 ^ 32)) bytes.now result }
{
    let (number, rest) = later_number(bytes)?;
    Some((u32::try_from(number).ok()?, rest))
}

/// A blank and how many come.
pub(crate) fn count<'a>(bytes: &'a [u8]) -> Option<(u64, &'a [u8])>
    ensures { IsRead later_number (IsBelow (2 ^ 64)) bytes.now result }
{
    let (number, rest) = later_number(bytes)?;
    Some((u64::try_from(number).ok()?, rest))
}

/// A blank and a number.
fn later_number<'a>(bytes: &'a [u8]) -> Option<(u128, &'a [u8])>
    ensures { IsRead later_number (IsBelow (2 ^ 128)) bytes.now result }
{
    number(after(b" ", bytes)?)
}

/// A row's number or a place, and how many times it counts.
pub(crate) fn multiple<'a>(bytes: &'a [u8]) -> Option<((u32, i128), &'a [u8])>
    ensures { IsRead pair_text IsPair bytes.now result }
{
    let (row, rest) = row(bytes)?;
    let (times, rest) = times(rest)?;
    Some(((row, times), rest))
}

/// A blank and a factor.
pub(crate) fn times<'a>(bytes: &'a [u8]) -> Option<(i128, &'a [u8])>
    ensures { IsRead later_factor IsFactor bytes.now result }
{
    factor(after(b" ", bytes)?)
}

/// A factor, with a sign where it is below zero.
fn factor<'a>(bytes: &'a [u8]) -> Option<(i128, &'a [u8])>
    ensures { IsRead signed_decimal IsFactor bytes.now result }
{
    match after(b"-", bytes) {
        Some(digits) => below_zero(digits),
        None => from_zero(bytes),
    }
}

/// A factor without a sign.
fn from_zero<'a>(bytes: &'a [u8]) -> Option<(i128, &'a [u8])>
    ensures { IsRead signed_decimal IsFromZero bytes.now result }
{
    let (number, rest) = number(bytes)?;
    Some((i128::try_from(number).ok()?, rest))
}

/// A factor below zero, after its sign.
fn below_zero<'a>(bytes: &'a [u8]) -> Option<(i128, &'a [u8])>
    ensures { IsRead text_below_zero IsBelowZero bytes.now result }
{
    let (number, rest) = number(bytes)?;
    if 1 <= number && number - 1 <= i128::MAX as u128 {
        Some((-1 - (number - 1) as i128, rest))
    } else {
        None
    }
}

/// A number as it is written: no zero stands before another digit.
fn number<'a>(bytes: &'a [u8]) -> Option<(u128, &'a [u8])>
    ensures { IsRead decimal (IsBelow (2 ^ 128)) bytes.now result }
{
    let (digits, rest) = bytes.split_at(digits_len(bytes));
    let number = value_of(digits)?;
    Some((number, rest))
}

fn digits_len(bytes: &[u8]) -> usize
    ensures len { result ≡ prefix_len is_digit bytes.now }
    ensures within { result ≤ length bytes.now }
{
    bytes.iter().take_while(|b| is_digit(**b)).count()
}

/// The number that is written so.
fn value_of(text: &[u8]) -> Option<u128>
    ensures { MatchOption result
        ((number : ℕ) → number < 2 ^ 128 → decimal number ≡ text.now → ⊥)
        (λ number. (number < 2 ^ 128) × (decimal number ≡ text.now)) }
{
    match str::from_utf8(text) {
        Ok(word) => value_of_word(word),
        Err(_) => None,
    }
}

fn value_of_word(word: &str) -> Option<u128>
    ensures { MatchOption result
        ((number : ℕ) → number < 2 ^ 128 → decimal number ≡ word.now → ⊥)
        (λ number. (number < 2 ^ 128) × (decimal number ≡ word.now)) }
{
    match word.parse::<u128>() {
        Ok(number) => {
            if is_text_of(number, word.as_bytes()) {
                Some(number)
            } else {
                None
            }
        }
        Err(_) => None,
    }
}

fn is_text_of(number: u128, text: &[u8]) -> bool
    ensures { IsTrue result ↔ (decimal number ≡ text.now) }
{
    let mut buffer = Buffer::new();
    buffer.format(number).as_bytes() == text
}

/// The bytes after a word, where they begin with it.
pub(crate) fn after<'a>(word: &[u8], bytes: &'a [u8]) -> Option<&'a [u8]>
    ensures { MatchOption result ((rest : List ℕ) → word.now ++ rest ≡ bytes.now → ⊥)
        (λ rest. word.now ++ rest.now ≡ bytes.now) }
{
    bytes.strip_prefix(word)
}
