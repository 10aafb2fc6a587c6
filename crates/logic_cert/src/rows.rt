//! Rows that chains make.

ghost use Rattle.std.specs.Prelude.{◌≡◌, ◌+ℤ◌, ◌*ℤ◌, IfOk, SomeIff, map, true};
ghost use Rattle.std.specs.List.{list_all};
ghost use Rattle.logic_linear.specs.Negation.{can_negate_linear, can_negate_number};
ghost use Rattle.logic_linear.specs.Negation.{can_negate_term};
ghost use Rattle.logic_linear.specs.Sums.{constants_fit, fits_128};
ghost use Rattle.logic_cert.specs.Refutes.{are_factors, chain_closes, made, made_of_two, row_of};
ghost use Rattle.logic_cert.specs.Refutes.{upper_row};

use super::cert::{Combine, Literal};
use super::wide_row::WideRow;
use logic_linear::{Formula, Lin, Term, combined_terms, negate};
use std::alloc::{AllocError, Global};

/// The least number of a form that is negated.
const LEAST_NEGATED: i128 = 2 - (1 << 95);

/// So many times the one row and so many times the other. It is none exactly where a factor is
/// below 0, or a product or a number of the sum is not from `-2^127` to `2^127 - 1`. It fails only
/// for want of memory.
pub fn sum_of_rows(
    alloc: Global,
    combine: Combine,
    left: &WideRow,
    right: &WideRow,
) -> Result<Option<WideRow>, AllocError>
    ensures { IfOk result (λ row. row ≡ made_of_two combine left.now right.now) }
{
    if !are_factors(combine) {
        return Ok(None);
    }
    let constant = sum_of_constants(
        combine.left_times,
        left.constant(),
        combine.right_times,
        right.constant(),
    );
    let Some(constant) = constant else {
        return Ok(None);
    };
    match combined_terms(
        alloc,
        combine.left_times,
        left.terms(),
        combine.right_times,
        right.terms(),
    )? {
        None => Ok(None),
        Some(terms) => Ok(Some(WideRow::of(terms, constant))),
    }
}

/// Whether both factors are at least 0.
fn are_factors(combine: Combine) -> bool
    ensures { result ≡ are_factors combine }
{
    combine.left_times >= 0 && combine.right_times >= 0
}

/// `left_times * left + right_times * right`, where each product and the sum fit.
fn sum_of_constants(left_times: i128, left: i128, right_times: i128, right: i128) -> Option<i128>
    ensures { SomeIff result (constants_fit left_times left right_times right ≡ true)
        (left_times *ℤ left +ℤ right_times *ℤ right) }
{
    let first = product(left_times, left)?;
    let second = product(right_times, right)?;
    sum(first, second)
}

/// The product, where it fits.
fn product(a: i128, b: i128) -> Option<i128>
    ensures { SomeIff result (fits_128 (a *ℤ b) ≡ true) (a *ℤ b) }
{
    a.checked_mul(b)
}

/// The sum, where it fits.
fn sum(a: i128, b: i128) -> Option<i128>
    ensures { SomeIff result (fits_128 (a +ℤ b) ≡ true) (a +ℤ b) }
{
    a.checked_add(b)
}

/// 1 minus the form: the row of the upper side of cases. It is none where a number of the form is
/// below `2 - 2^95`, and fails only for want of memory.
pub fn upper_row(alloc: Global, form: &Lin) -> Result<Option<Lin>, AllocError>
    ensures { IfOk result (λ row. row ≡ upper_row form.now) }
{
    if !can_negate(form) {
        return Ok(None);
    }
    let row = Formula::Row(form.clone()?);
    match negate(alloc, &row)? {
        Formula::Row(upper) => Ok(Some(upper)),
        _ => Ok(None),
    }
}

/// Whether each number of the form is at least `2 - 2^95`.
fn can_negate(form: &Lin) -> bool
    ensures { result ≡ can_negate_linear form.now }
{
    can_negate_terms(form.terms()) && can_negate_number(form.constant())
}

fn can_negate_terms(terms: &[Term]) -> bool
    ensures { result ≡ list_all can_negate_term terms.now }
{
    terms.iter().all(|term| can_negate_number(term.times))
}

fn can_negate_number(number: i128) -> bool
    ensures { result ≡ can_negate_number number }
{
    number >= LEAST_NEGATED
}

/// Whether each row of the chain can be made of those before, and the last one is true nowhere.
pub(crate) fn chain_closes(
    alloc: Global,
    literals: &[Literal],
    combines: &[Combine],
) -> Result<bool, AllocError>
    ensures { IfOk result (λ closed. closed ≡ chain_closes combines.now (map row_of literals.now)) }
{
    let mut rows = rows_of(alloc, literals)?;
    for i in 0..combines.len() {
        let Some(row) = row_made(alloc, combines[i], &rows)? else {
            return Ok(false);
        };
        if i + 1 == combines.len() {
            return Ok(row.is_absurd());
        }
        rows.push(Some(row))?;
    }
    Ok(false)
}

/// The rows of literals. A flag is none.
fn rows_of(alloc: Global, literals: &[Literal]) -> Result<Vec<Option<WideRow>>, AllocError>
    ensures { IfOk result (λ rows. rows.items ≡ map row_of literals.now) }
{
    let mut rows = Vec::new(alloc);
    for literal in literals {
        rows.push(row_of(alloc, literal)?)?;
    }
    Ok(rows)
}

/// The row of a literal.
fn row_of(alloc: Global, literal: &Literal) -> Result<Option<WideRow>, AllocError>
    ensures { IfOk result (λ row. row ≡ row_of literal.now) }
{
    match literal {
        Literal::Row(form) => Ok(Some(WideRow::of_form(alloc, form)?)),
        Literal::Flag { .. } => Ok(None),
    }
}

/// The row that is made of rows, where it can be made.
fn row_made(
    alloc: Global,
    combine: Combine,
    rows: &[Option<WideRow>],
) -> Result<Option<WideRow>, AllocError>
    ensures { IfOk result (λ row. row ≡ made combine rows.now) }
{
    let left = combine.left as usize;
    let right = combine.right as usize;
    if left >= rows.len() {
        return Ok(None);
    }
    if right >= rows.len() {
        return Ok(None);
    }
    match &rows[left] {
        None => Ok(None),
        Some(left) => match &rows[right] {
            None => Ok(None),
            Some(right) => sum_of_rows(alloc, combine, left, right),
        },
    }
}
