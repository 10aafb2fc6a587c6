//! Substitution and negation of rows whose numbers are at the ends of their range.

ghost use Rattle.std.specs.Prelude.{IfOk, IsTrue};
ghost use Rattle.logic_linear.specs.Linear.{IsLinear};
ghost use Rattle.logic_linear.specs.Negation.{can_negate, can_negate_linear};
ghost use Rattle.tests_of_formulas.specs.Forms.{one_variable};

use super::shapes::{BOUND, Shape, form, made};
use logic_linear::{Formula, Lin, Put, Term, negate, substitute};
use std::alloc::{AllocError, Global};
use std::test::Fail;

/// The numbers of the only term and of the constant of a row of the variable of place 1.
fn numbers(formula: &Formula) -> Option<(i128, i128)> {
    match formula {
        Formula::Row(form) => match form.terms() {
            [term] if term.place == 1 => Some((term.times, form.constant())),
            _ => None,
        },
        _ => None,
    }
}

/// The numbers of `x + constant <= 0` after `x := x + step`, where `x` has place 1.
fn after_step(alloc: Global, constant: i128, step: i128) -> Result<Option<(i128, i128)>, Fail> {
    let formula = made(alloc, &Shape::Row(&[(1, 1)], constant))?;
    let put = Put::Number {
        place: 1,
        form: form(alloc, &[(1, 1)], step)?,
    };
    match substitute(alloc, &formula, &put)? {
        Some(after) => Ok(numbers(&after)),
        None => Ok(None),
    }
}

#[test]
fn a_constant_at_the_end_of_its_range_steps_down_and_not_up(rt: HostRuntime) -> Result<(), Fail> {
    assert_eq!(rt; after_step(rt.alloc(), BOUND - 1, 1)?, None);
    assert_eq!(rt;
        after_step(rt.alloc(), BOUND - 1, -1)?,
        Some((1, BOUND - 2))
    );
    assert_eq!(rt; after_step(rt.alloc(), -BOUND, -1)?, None);
    assert_eq!(rt; after_step(rt.alloc(), -BOUND, 1)?, Some((1, 1 - BOUND)));
    Ok(())
}

/// The row `times * x + constant <= 0`, where `x` has place 1.
fn row(alloc: Global, times: i128, constant: i128) -> Result<Formula, AllocError>
    requires rule { IsLinear (one_variable times constant) }
    requires bound { IsTrue (can_negate_linear (one_variable times constant)) }
    ensures { IfOk result (λ formula. IsTrue (can_negate formula)) }
{
    let terms = Vec::from_array(alloc, [Term { place: 1, times }])?;
    Ok(Formula::Row(Lin::of(terms, constant)))
}

/// The numbers of the negation of a row of one variable.
fn negated_numbers(
    alloc: Global,
    times: i128,
    constant: i128,
) -> Result<Option<(i128, i128)>, AllocError>
    requires rule { IsLinear (one_variable times constant) }
    requires bound { IsTrue (can_negate_linear (one_variable times constant)) }
{
    let row = row(alloc, times, constant)?;
    let negated = negate(alloc, &row)?;
    Ok(numbers(&negated))
}

#[test]
fn the_negation_of_at_most_0_is_at_least_1(rt: HostRuntime) -> Result<(), Fail> {
    assert_eq!(rt; negated_numbers(rt.alloc(), 1, 0)?, Some((-1, 1)));
    Ok(())
}

#[test]
fn numbers_at_both_ends_are_negated(rt: HostRuntime) -> Result<(), Fail> {
    assert_eq!(rt;
        negated_numbers(rt.alloc(), BOUND - 1, BOUND - 1)?,
        Some((1 - BOUND, 2 - BOUND))
    );
    assert_eq!(rt;
        negated_numbers(rt.alloc(), 2 - BOUND, 2 - BOUND)?,
        Some((BOUND - 2, BOUND - 1))
    );
    Ok(())
}
