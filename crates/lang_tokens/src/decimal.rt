//! The numbers that decimal digits stand for.

ghost use Rattle.std.specs.Prelude.{◌≡◌};
ghost use Rattle.lang_tokens.specs.Spelling.{IsDecimal};
ghost use Rattle.lang_tokens.specs.Words.{decimal_value};

/// The number that 1 to 32 decimal digits stand for, the most significant first: from 0 to 10^32 -
/// 1.
pub fn decimal_value(digits: &[u8]) -> u128
    requires { IsDecimal digits.now }
    ensures { result ≡ decimal_value digits.now }
{
    let mut value: u128 = 0;
    for digit in digits {
        value = value * 10 + (*digit - b'0') as u128;
    }
    value
}
