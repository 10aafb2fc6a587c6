//! The formulas of candidates.

ghost use Rattle.std.specs.Prelude.{◌≡◌, ◌≢◌, ◌^◌, ◌++◌, ℤ, pos, neg_ℤ, IfOk, IsTrue, true, map};
ghost use Rattle.std.specs.Prelude.{[], ◌∷◌};
ghost use Rattle.std.specs.List.{list_all};
ghost use Rattle.lang_base.specs.Numbers.{is_within};
ghost use Rattle.logic_linear.specs.Negation.{can_negate};
ghost use Rattle.lang_monitor.specs.Candidates.{candidate_formula, difference_terms};
ghost use Rattle.logic_wp.specs.Expressible.{is_expressible};

use lang_monitor::Candidate;
use logic_linear::{Formula, Lin, Term};
use std::alloc::{AllocError, Global};

/// The form of one variable, which counts 1 or -1 times, and a constant.
fn bound_form(alloc: Global, place: u32, times: i128, constant: i128) -> Result<Lin, AllocError>
    requires times { is_within 1 times ≡ true }
    requires nonzero { times ≢ pos 0 }
    requires constant { is_within (2 ^ 65) constant ≡ true }
    ensures term { IfOk result (λ form.
        form.terms ≡ record { place = place; times = times } ∷ []) }
    ensures constant { IfOk result (λ form. form.constant ≡ constant) }
{
    let mut terms = Vec::new(alloc);
    terms.push(Term { place, times })?;
    Ok(Lin::of(terms, constant))
}

/// The terms of `left - right`.
fn difference_terms(alloc: Global, left: u32, right: u32) -> Result<Vec<Term>, AllocError>
    ensures { IfOk result (λ terms. terms.items ≡ difference_terms left right) }
{
    let plus = Term {
        place: left,
        times: 1,
    };
    let minus = Term {
        place: right,
        times: -1,
    };
    let mut terms = Vec::new(alloc);
    if left < right {
        terms.push(plus)?;
        terms.push(minus)?;
    } else {
        terms.push(minus)?;
        terms.push(plus)?;
    }
    Ok(terms)
}

/// The form `left - right` of two different places.
fn difference_form(alloc: Global, left: u32, right: u32) -> Result<Lin, AllocError>
    requires { left ≢ right }
    ensures terms { IfOk result (λ form. form.terms ≡ difference_terms left right) }
    ensures constant { IfOk result (λ form. form.constant ≡ pos 0) }
{
    let terms = difference_terms(alloc, left, right)?;
    Ok(Lin::of(terms, 0))
}

/// The formula of a candidate, which can be negated.
pub(crate) fn formula_of(alloc: Global, candidate: Candidate) -> Result<Formula, AllocError>
    requires { is_expressible candidate ≡ true }
    ensures formula { IfOk result (λ formula. formula ≡ candidate_formula candidate) }
    ensures negatable { IfOk result (λ formula. IsTrue (can_negate formula)) }
{
    match candidate {
        Candidate::AtMost { field, bound } => {
            Ok(Formula::Row(bound_form(alloc, field, 1, -bound)?))
        }
        Candidate::AtLeast { field, bound } => {
            Ok(Formula::Row(bound_form(alloc, field, -1, bound)?))
        }
        Candidate::Flag { field, is } => Ok(Formula::Flag { place: field, is }),
        Candidate::Below { left, right } => {
            Ok(Formula::Row(difference_form(alloc, left, right)?))
        }
    }
}

/// The formulas of candidates, in order.
pub(crate) fn formulas_of(alloc: Global, kept: &[Candidate]) -> Result<Vec<Formula>, AllocError>
    requires { list_all is_expressible kept.now ≡ true }
    ensures { IfOk result (λ formulas. formulas.items ≡ map candidate_formula kept.now) }
{
    let mut formulas = Vec::new(alloc);
    for candidate in kept {
        formulas.push(formula_of(alloc, *candidate)?)?;
    }
    Ok(formulas)
}
