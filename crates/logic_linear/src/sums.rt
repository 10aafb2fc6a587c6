//! Sums of multiples of terms, in 128 bits.

ghost use Rattle.std.specs.Prelude.{◌≡◌, ◌++◌, ◌+ℤ◌, ◌*ℤ◌, IfOk, OnOk, IfSome, true};
ghost use Rattle.std.specs.List.{list_all};
ghost use Rattle.logic_linear.specs.Linear.{IsRising};
ghost use Rattle.logic_linear.specs.Sums.{fits_128, fitting_sum, product_fits, term_fits, term_of};
ghost use Rattle.logic_linear.specs.inner.Limited.{fitting};
ghost use Rattle.logic_linear.specs.inner.Merging.{MergesTerm, Passes, merged, multiple, multiples};

use super::form::Term;
use base_list::Seq;
use std::alloc::{AllocError, Global};

/// So many times the left terms and so many times the right ones, by rising place. It is none
/// exactly where a product, or a number of the sum, is not from `-2^127` to `2^127 - 1`. It fails
/// only for want of memory.
pub fn combined_terms(
    alloc: Global,
    left_times: i128,
    left: &[Term],
    right_times: i128,
    right: &[Term],
) -> Result<Option<Seq<Term>>, AllocError>
    requires left { IsRising left.now }
    requires right { IsRising right.now }
    ensures sum { IfOk result (λ sum. sum ≡ fitting_sum left_times left.now right_times right.now) }
    ensures rising { IfOk result (λ sum. IfSome sum IsRising) }
{
    if !products_fit(left_times, left) {
        return Ok(None);
    }
    if !products_fit(right_times, right) {
        return Ok(None);
    }
    let mut scaled = Vec::new(alloc);
    push_multiples(&mut scaled, left_times, left)?;
    merged(alloc, right_times, &scaled, right)
}

/// Whether the product fits.
fn product_fits(factor: i128, term: Term) -> bool
    ensures { result ≡ product_fits factor term }
{
    match factor.checked_mul(term.times) {
        None => false,
        Some(_) => true,
    }
}

/// Whether each product fits.
fn products_fit(factor: i128, terms: &[Term]) -> bool
    ensures { result ≡ list_all (product_fits factor) terms.now }
{
    for term in terms {
        if !product_fits(factor, *term) {
            return false;
        }
    }
    true
}

/// Appends so many times the term, unless that is 0 times.
fn push_multiple(sums: &mut Vec<Term>, factor: i128, term: Term) -> Result<(), AllocError>
    requires { product_fits factor term ≡ true }
    ensures { OnOk result (sums.new.items ≡ sums.old.items ++ multiple factor term) }
{
    push_counted(sums, term.place, factor * term.times)
}

/// Appends so many times each of the terms.
fn push_multiples(sums: &mut Vec<Term>, factor: i128, terms: &[Term]) -> Result<(), AllocError>
    requires { list_all (product_fits factor) terms.now ≡ true }
    ensures { OnOk result (sums.new.items ≡ sums.old.items ++ multiples factor terms.now) }
{
    for term in terms {
        push_multiple(sums, factor, *term)?;
    }
    Ok(())
}

/// `number + factor * other`, where it fits.
fn sum_that_fits(number: i128, factor: i128, other: i128) -> Option<i128>
    requires { fits_128 (factor *ℤ other) ≡ true }
    ensures { Passes fits_128 (number +ℤ factor *ℤ other) result }
{
    let product = factor * other;
    number.checked_add(product)
}

/// Appends a term, unless its variable counts 0 times.
fn push_counted(sums: &mut Vec<Term>, place: u32, times: i128) -> Result<(), AllocError>
    ensures { OnOk result (sums.new.items ≡ sums.old.items ++ term_of place times) }
{
    if times != 0 {
        sums.push(Term { place, times })?;
    }
    Ok(())
}

/// Appends what comes of the others up to the term, and of the term. It answers how many others
/// that took, and none where a number does not fit.
fn merge_term(
    sums: &mut Vec<Term>,
    factor: i128,
    term: Term,
    others: &[Term],
) -> Result<Option<usize>, AllocError>
    requires term { term_fits term ≡ true }
    requires sums { list_all term_fits sums.old.items ≡ true }
    requires products { list_all (product_fits factor) others.now ≡ true }
    ensures { IfOk result (MergesTerm factor term others.now sums.old.items sums.new.items) }
{
    for index in 0..others.len() {
        let other = others[index];
        if term.place < other.place {
            sums.push(term)?;
            return Ok(Some(index));
        }
        if other.place == term.place {
            let Some(times) = sum_that_fits(term.times, factor, other.times) else {
                return Ok(None);
            };
            push_counted(sums, term.place, times)?;
            return Ok(Some(index + 1));
        }
        push_multiple(sums, factor, other)?;
    }
    sums.push(term)?;
    Ok(Some(others.len()))
}

/// The terms and so many times the others, by rising place, where the numbers fit.
fn merged(
    alloc: Global,
    factor: i128,
    terms: &[Term],
    others: &[Term],
) -> Result<Option<Seq<Term>>, AllocError>
    requires terms { list_all term_fits terms.now ≡ true }
    requires products { list_all (product_fits factor) others.now ≡ true }
    ensures { IfOk result (λ sum. sum ≡ fitting (merged factor terms.now others.now)) }
{
    let mut sums = Vec::new(alloc);
    let mut next = 0;
    for term in terms {
        let Some(taken) = merge_term(&mut sums, factor, *term, &others[next..])? else {
            return Ok(None);
        };
        next += taken;
    }
    push_multiples(&mut sums, factor, &others[next..])?;
    Ok(Some(Seq::of(sums)))
}
