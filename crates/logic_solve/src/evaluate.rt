//! What forms and formulas are worth at a solution, in 128 bits.

ghost use Rattle.std.specs.Prelude.{◌≡◌, ◌+ℤ◌, ◌*ℤ◌, false, int_le, pos};
ghost use Rattle.logic_linear.specs.Sums.{fits_128};
ghost use Rattle.logic_linear.specs.Truth.{sum_of, truth_of, value_of};
ghost use Rattle.logic_solve.specs.Solutions.{valuation_of};
ghost use Rattle.logic_solve.specs.WideNumbers.{HasWideSum, IsComputed, IsWideForm, IsWideFormula};
ghost use Rattle.logic_solve.specs.inner.Evaluating.{all_true, any_true, HasWidePart};

use super::valuation::Solution;
use logic_linear::{Formula, Lin, Term};

/// The product of two numbers, where it fits.
fn product_that_fits(first: i128, second: i128) -> Option<i128>
    ensures { IsComputed (first *ℤ second) (fits_128 (first *ℤ second) ≡ false) result }
{
    first.checked_mul(second)
}

/// The value of a term, where it fits.
fn term_value(at: &Solution, term: Term) -> Option<i128>
    ensures { IsComputed (term.times *ℤ (valuation_of at.now).number term.place)
        (fits_128 (term.times *ℤ (valuation_of at.now).number term.place) ≡ false) result }
{
    product_that_fits(term.times, at.number(term.place))
}

/// The sum of two numbers, where it fits.
fn sum_that_fits(first: i128, second: i128) -> Option<i128>
    ensures { IsComputed (first +ℤ second) (fits_128 (first +ℤ second) ≡ false) result }
{
    first.checked_add(second)
}

/// The sum of the values of terms, where each sum so far fits.
fn terms_value(at: &Solution, terms: &[Term]) -> Option<i128>
    ensures { IsComputed (sum_of (valuation_of at.now) terms.now)
        (HasWideSum (valuation_of at.now) terms.now) result }
{
    let mut sum: i128 = 0;
    for term in terms {
        let value = term_value(at, *term)?;
        sum = sum_that_fits(sum, value)?;
    }
    Some(sum)
}

/// The value of a form at a solution, where it and each product and sum on the way fits 128 bits.
pub fn form_value(at: &Solution, form: &Lin) -> Option<i128>
    ensures { IsComputed (value_of (valuation_of at.now) form.now)
        (IsWideForm (valuation_of at.now) form.now) result }
{
    let sum = terms_value(at, form.terms())?;
    sum_that_fits(sum, form.constant())
}

/// Whether a row holds, where its value fits.
fn row_truth(at: &Solution, form: &Lin) -> Option<bool>
    ensures { IsComputed (int_le (value_of (valuation_of at.now) form.now) (pos 0))
        (IsWideForm (valuation_of at.now) form.now) result }
{
    let value = form_value(at, form)?;
    Some(value <= 0)
}

/// Whether a formula is true at a solution, where each value that is looked at fits 128 bits, and
/// so does each number on the way to it.
#[cycle(truth)]
pub fn formula_truth(at: &Solution, formula: &Formula) -> Option<bool>
    ensures { IsComputed (truth_of (valuation_of at.now) formula.now)
        (IsWideFormula (valuation_of at.now) formula.now) result }
{
    match formula {
        Formula::Row(form) => row_truth(at, form),
        Formula::Flag { place, is } => Some(at.flag(*place) == *is),
        Formula::All(parts) => all_hold(at, parts.items()),
        Formula::Any(parts) => any_holds(at, parts.items()),
    }
}

/// Whether each part is true.
#[cycle(truth)]
fn all_hold(at: &Solution, parts: &[Formula]) -> Option<bool>
    ensures { IsComputed (all_true (valuation_of at.now) parts.now)
        (HasWidePart (valuation_of at.now) parts.now) result }
{
    for part in parts {
        let held = formula_truth(at, part)?;
        if !held {
            return Some(false);
        }
    }
    Some(true)
}

/// Whether some part is true.
#[cycle(truth)]
fn any_holds(at: &Solution, parts: &[Formula]) -> Option<bool>
    ensures { IsComputed (any_true (valuation_of at.now) parts.now)
        (HasWidePart (valuation_of at.now) parts.now) result }
{
    for part in parts {
        let held = formula_truth(at, part)?;
        if held {
            return Some(true);
        }
    }
    Some(false)
}
