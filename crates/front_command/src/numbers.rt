//! Numbers among the words of the command line.

ghost use Rattle.std.specs.Prelude.{◌≡◌};
ghost use Rattle.std.specs.List.{list_all};
ghost use Rattle.lang_base.specs.Identifiers.{is_digit};
ghost use Rattle.front_command.specs.inner.Asked.{is_written, number_if, within};

use lang_base::is_digit;
use lang_tokens::decimal_value;

/// The most digits of a number of the command line: as many as 2^64 - 1 has.
const MOST_DIGITS: usize = 20;

/// The number that 1 to [`MOST_DIGITS`] decimal digits stand for, where it is at most so much.
#[tactic(auto, using(crate::proofs::Written::written_decimal))]
pub(crate) fn number_of(word: &str, most: u64) -> Option<u64>
    ensures { result ≡ number_if most word.now }
{
    let digits = word.as_bytes();
    if is_written(digits) {
        within(decimal_value(digits), most)
    } else {
        None
    }
}

/// Whether these are 1 to [`MOST_DIGITS`] decimal digits.
fn is_written(word: &[u8]) -> bool
    ensures { result ≡ is_written word.now }
{
    !word.is_empty() && word.len() <= MOST_DIGITS && are_digits(word)
}

/// Whether each byte is a decimal digit.
fn are_digits(bytes: &[u8]) -> bool
    ensures { result ≡ list_all is_digit bytes.now }
{
    bytes.iter().all(|b| is_digit(*b))
}

/// The number, where it is at most so much.
fn within(number: u128, most: u64) -> Option<u64>
    ensures { result ≡ within most number }
{
    if number <= most as u128 {
        Some(number as u64)
    } else {
        None
    }
}
