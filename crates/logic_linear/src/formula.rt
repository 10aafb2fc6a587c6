//! Formulas over rows and truth values: negations, copies and equality.

ghost use Rattle.std.specs.Prelude.{◌≡◌, ◌↔◌, IfOk, IsTrue, map, true};
ghost use Rattle.std.specs.List.{list_all};
ghost use Rattle.logic_linear.specs.Negation.{can_negate, negation};
ghost use Rattle.logic_linear.specs.Substitution.{are_in_range, is_formula_in_range};
ghost use Rattle.logic_linear.specs.Substitution.{is_linear_in_range};

use super::form::Lin;
use base_list::Seq;
use std::alloc::{AllocError, Global};

/// A condition on the values at places.
#[derive(Debug, Drop)]
pub enum Formula {
    /// The form's value is at most 0.
    Row(Lin),
    /// The truth value at the place is this one.
    Flag { place: u32, is: bool },
    /// Each part holds. With no parts it is true.
    All(Seq<Formula>),
    /// Some part holds. With no parts it is false.
    Any(Seq<Formula>),
}

/// The negation: of `form <= 0` it is `1 - form <= 0`, of a flag the other truth, of `All` the
/// `Any` of the negations in order, and of `Any` their `All`. Each number in the formula is at
/// least `2 - 2^95`. It fails only for want of memory.
#[cycle(negate)]
pub fn negate(alloc: Global, formula: &Formula) -> Result<Formula, AllocError>
    requires { IsTrue (can_negate formula.now) }
    ensures { IfOk result (λ negated. negated ≡ negation formula.now) }
{
    match formula {
        Formula::Row(form) => Ok(Formula::Row(form.one_less(alloc)?)),
        Formula::Flag { place, is } => Ok(Formula::Flag {
            place: *place,
            is: !*is,
        }),
        Formula::All(parts) => Ok(Formula::Any(Seq::of(negate_parts(alloc, parts.items())?))),
        Formula::Any(parts) => Ok(Formula::All(Seq::of(negate_parts(alloc, parts.items())?))),
    }
}

#[cycle(negate)]
fn negate_parts(alloc: Global, parts: &[Formula]) -> Result<Vec<Formula>, AllocError>
    requires { IsTrue (list_all (λ part. part) (map can_negate parts.now)) }
    ensures { IfOk result (λ negations. negations.items ≡ map negation parts.now) }
{
    let mut negations = Vec::new(alloc);
    for part in parts {
        negations.push(negate(alloc, part)?)?;
    }
    Ok(negations)
}

/// A copy of a formula. It fails only for want of memory.
pub fn copy_formula(alloc: Global, formula: &Formula) -> Result<Formula, AllocError>
    ensures { IfOk result (λ copy. copy ≡ formula.now) }
{
    copied(alloc, formula)
}

/// A copy of a formula, whose numbers are in range, as those of every form.
#[cycle(copied)]
pub(crate) fn copied(alloc: Global, formula: &Formula) -> Result<Formula, AllocError>
    ensures copy { IfOk result (λ copy. copy ≡ formula.now) }
    ensures range { IfOk result (λ copy. is_formula_in_range formula.now ≡ true) }
{
    match formula {
        Formula::Row(form) => Ok(Formula::Row(copied_form(form)?)),
        Formula::Flag { place, is } => Ok(Formula::Flag {
            place: *place,
            is: *is,
        }),
        Formula::All(parts) => Ok(Formula::All(Seq::of(copied_parts(alloc, parts.items())?))),
        Formula::Any(parts) => Ok(Formula::Any(Seq::of(copied_parts(alloc, parts.items())?))),
    }
}

#[cycle(copied)]
fn copied_parts(alloc: Global, parts: &[Formula]) -> Result<Vec<Formula>, AllocError>
    ensures copies { IfOk result (λ copies. copies.items ≡ parts.now) }
    ensures range { IfOk result (λ copies. are_in_range parts.now ≡ true) }
{
    let mut copies = Vec::new(alloc);
    for part in parts {
        copies.push(copied(alloc, part)?)?;
    }
    Ok(copies)
}

/// A copy of a form, whose numbers are in range.
pub(crate) fn copied_form(form: &Lin) -> Result<Lin, AllocError>
    ensures copy { IfOk result (λ copy. copy ≡ form.now) }
    ensures range { IfOk result (λ copy. is_linear_in_range form.now ≡ true) }
{
    // Its terms are read for the rule that comes with them.
    let _terms = form.terms();
    form.clone()
}

/// Whether the two are the same formula.
#[cycle(same_formula)]
pub fn same_formula(a: &Formula, b: &Formula) -> bool
    ensures { IsTrue result ↔ (a.now ≡ b.now) }
{
    match (a, b) {
        (Formula::Row(one), Formula::Row(other)) => one.is_same(other),
        (
            Formula::Flag { place, is },
            Formula::Flag {
                place: other_place,
                is: other_is,
            },
        ) => place == other_place && is == other_is,
        (Formula::All(parts), Formula::All(others)) => same_parts(parts.items(), others.items()),
        (Formula::Any(parts), Formula::Any(others)) => same_parts(parts.items(), others.items()),
        _ => false,
    }
}

#[cycle(same_formula)]
fn same_parts(a: &[Formula], b: &[Formula]) -> bool
    ensures { IsTrue result ↔ (a.now ≡ b.now) }
{
    if a.len() != b.len() {
        return false;
    }
    for i in 0..a.len() {
        if !same_formula(&a[i], &b[i]) {
            return false;
        }
    }
    true
}
