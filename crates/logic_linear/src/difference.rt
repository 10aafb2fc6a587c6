//! Rows that bound one variable, or the difference of two.

ghost use Rattle.std.specs.Prelude.{◌≡◌};
ghost use Rattle.logic_linear.specs.Differences.{is_difference};

use super::form::Lin;

/// Whether the row `form <= 0` is `x - y <= c`, `x <= c`, `-x <= c`, or has no variables.
pub fn is_difference(form: &Lin) -> bool
    ensures { result ≡ is_difference form.now }
{
    match form.terms() {
        [] => true,
        [one] => one.times == 1 || one.times == -1,
        [one, other] => {
            (one.times == 1 && other.times == -1) || (one.times == -1 && other.times == 1)
        }
        _ => false,
    }
}
