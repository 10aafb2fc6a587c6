//! The first rule that a whole expression breaks, given the first that its parts break.

ghost use Rattle.std.specs.Prelude.{◌≡◌, ◌||◌, true, All, IfOk, IsTrue};
ghost use Rattle.lang_tree.specs.declared.tree.Expr.TheVariants as exprs;
ghost use Rattle.lang_base.specs.SourceFaults.{least};
ghost use Rattle.lang_forms.specs.Forms.{is_constant, is_limited};
ghost use Rattle.lang_forms.specs.Making.{IsInt, has_small_numbers};
ghost use Rattle.lang_forms.specs.Sense.{faults_in, large_form, sense, wrong_type};
ghost use Rattle.lang_forms.specs.inner.Parts.{IsFirstOfBoth, IsFirstOfComparison, IsFirstOfEither};
ghost use Rattle.lang_forms.specs.inner.Parts.{IsFirstOfNot, IsFirstOfProduct, IsFirstOfSum};
ghost use Rattle.lang_forms.specs.inner.Parts.{broken_from, faults_in_parts, first_in_product};
ghost use Rattle.lang_forms.specs.inner.Parts.{first_in_sides, first_in_sum};

use crate::finding::{first_place, is_other, kind_of};
use crate::form::Flat;
use crate::making::{add_all, difference, flat_of, multiply};
use crate::scope::Entry;
use lang_base::{Kind, Refusal, SourceFault, earlier_of};
use lang_tree::{Addend, Expr, Factor};
use std::alloc::{AllocError, Global};

/// Of the negation of a number.
pub(crate) fn fault_of_minus(
    alloc: Global,
    scope: &[Entry],
    at: u32,
    of: &Expr,
    part: Option<SourceFault>,
) -> Result<Option<SourceFault>, AllocError>
    requires numbers { IsTrue (has_small_numbers scope.now) }
    requires part { part ≡ least (faults_in scope.now of.now) }
    ensures { IfOk result (λ fault. fault ≡ least (faults_in scope.now (exprs.Minus at of.now))) }
{
    if let Some(fault) = part.or(wrong_type(scope, Kind::Int, of)) {
        return Ok(Some(fault));
    }
    let mut opposite = flat_of(alloc, scope, of)?;
    opposite.scale(-1);
    Ok(large_form(at, &opposite))
}

/// Of the negation of a condition.
pub(crate) fn fault_of_not(
    scope: &[Entry],
    of: &Expr,
    part: Option<SourceFault>,
) -> Option<SourceFault>
    requires { part ≡ least (faults_in scope.now of.now) }
    ensures { IsFirstOfNot scope.now of.now result }
{
    part.or(wrong_type(scope, Kind::Bool, of))
}

/// Of a product.
pub(crate) fn fault_of_product(
    alloc: Global,
    scope: &[Entry],
    first: &Expr,
    rest: &[Factor],
    part: Option<SourceFault>,
) -> Result<Option<SourceFault>, AllocError>
    requires numbers { IsTrue (has_small_numbers scope.now) }
    requires part { part ≡ first_in_product scope.now first.now rest.now }
    ensures { IfOk result (IsFirstOfProduct scope.now first.now rest.now) }
{
    let wrong = rest
        .iter()
        .fold(wrong_type(scope, Kind::Int, first), |fault, factor| {
            earlier_of(fault, wrong_type(scope, Kind::Int, &factor.of))
        });
    if let Some(fault) = part.or(wrong) {
        return Ok(Some(fault));
    }
    let start = flat_of(alloc, scope, first)?;
    fault_of_factors(alloc, scope, first_place(first), start, rest)
}

/// Of a sum.
pub(crate) fn fault_of_sum(
    alloc: Global,
    scope: &[Entry],
    first: &Expr,
    rest: &[Addend],
    part: Option<SourceFault>,
) -> Result<Option<SourceFault>, AllocError>
    requires numbers { IsTrue (has_small_numbers scope.now) }
    requires part { part ≡ first_in_sum scope.now first.now rest.now }
    ensures { IfOk result (IsFirstOfSum scope.now first.now rest.now) }
{
    let wrong = rest
        .iter()
        .fold(wrong_type(scope, Kind::Int, first), |fault, addend| {
            earlier_of(fault, wrong_type(scope, Kind::Int, &addend.of))
        });
    if let Some(fault) = part.or(wrong) {
        return Ok(Some(fault));
    }
    let start = flat_of(alloc, scope, first)?;
    let sum = add_all(alloc, scope, start, rest)?;
    Ok(large_form(first_place(first), &sum))
}

/// Of a comparison.
pub(crate) fn fault_of_comparison(
    alloc: Global,
    scope: &[Entry],
    left: &Expr,
    right: &Expr,
    part: Option<SourceFault>,
) -> Result<Option<SourceFault>, AllocError>
    requires numbers { IsTrue (has_small_numbers scope.now) }
    requires part { part ≡ first_in_sides scope.now left.now right.now }
    ensures { IfOk result (IsFirstOfComparison scope.now left.now right.now) }
{
    let wrong = earlier_of(
        wrong_type(scope, Kind::Int, left),
        wrong_type(scope, Kind::Int, right),
    );
    if let Some(fault) = part.or(wrong) {
        return Ok(Some(fault));
    }
    let difference = difference(alloc, scope, left, right)?;
    Ok(large_form(first_place(left), &difference))
}

/// Of parts that are joined by `and` or by `or`.
pub(crate) fn fault_of_parts(
    scope: &[Entry],
    parts: &[Expr],
    part: Option<SourceFault>,
) -> Option<SourceFault>
    requires { part ≡ least (faults_in_parts scope.now parts.now) }
    ensures both { IsFirstOfBoth scope.now parts.now result }
    ensures either { IsFirstOfEither scope.now parts.now result }
{
    let wrong = parts.iter().fold(None, |fault, part| {
        earlier_of(fault, wrong_type(scope, Kind::Bool, part))
    });
    part.or(wrong)
}

/// A fault at an expression that is of a kind other than the wanted one.
pub fn wrong_type(scope: &[Entry], wanted: Kind, part: &Expr) -> Option<SourceFault>
    ensures { result ≡ least (wrong_type wanted (sense scope.now part.now)) }
{
    if is_other(wanted, kind_of(scope, part)) {
        Some(SourceFault {
            at: first_place(part),
            what: Refusal::WrongType,
        })
    } else {
        None
    }
}

fn large_form(at: u32, flat: &Flat) -> Option<SourceFault>
    ensures { result ≡ least (large_form at flat.now) }
{
    if flat.is_limited() {
        None
    } else {
        Some(SourceFault {
            at,
            what: Refusal::TooLarge,
        })
    }
}

/// From left to right: of the product before a `*` and the factor after it one is constant, and
/// their product is not too large.
fn fault_of_factors(
    alloc: Global,
    scope: &[Entry],
    at: u32,
    start: Flat,
    rest: &[Factor],
) -> Result<Option<SourceFault>, AllocError>
    requires numbers { IsTrue (has_small_numbers scope.now) }
    requires limited { is_limited start ≡ true }
    requires rest { All (λ factor. IsInt scope.now factor.of) rest.now }
    ensures { IfOk result (λ fault. fault ≡ least (broken_from scope.now at start rest.now)) }
{
    let mut product = start;
    for factor in rest {
        let next = flat_of(alloc, scope, &factor.of)?;
        if !is_linear(&product, &next) {
            return Ok(Some(SourceFault {
                at: factor.at,
                what: Refusal::NotLinear,
            }));
        }
        product = multiply(product, next);
        if !product.is_limited() {
            return Ok(Some(SourceFault {
                at,
                what: Refusal::TooLarge,
            }));
        }
    }
    Ok(None)
}

fn is_linear(one: &Flat, other: &Flat) -> bool
    ensures { result ≡ (is_constant one.now || is_constant other.now) }
{
    one.is_constant() || other.is_constant()
}
