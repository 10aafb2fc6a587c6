//! Assignments, and what they make of formulas.

ghost use Rattle.std.specs.Prelude.{◌≡◌, ◌+◌, ◌+ℤ◌, ◌*ℤ◌, IfOk, All, map, min, true};
ghost use Rattle.std.specs.List.{list_all, filter};
ghost use Rattle.logic_linear.specs.Linear.{IsTerm};
ghost use Rattle.logic_linear.specs.Measures.{nodes_of, MOST_NODES};
ghost use Rattle.logic_linear.specs.Negation.{negation, negative_term, one_less};
ghost use Rattle.logic_linear.specs.Substitution.{has_term_in_range, is_in_range, is_other};
ghost use Rattle.logic_linear.specs.Substitution.{put_in_flag};
ghost use Rattle.logic_linear.specs.Substitution.{put_in_row, replaced, substituted, times_at};
ghost use Rattle.logic_linear.specs.Substitution.{within_limits};
ghost use Rattle.logic_linear.specs.inner.Limited.{all_in_range, form_in_range, in_range};
ghost use Rattle.logic_linear.specs.inner.Limited.{nodes_of_all};
ghost use Rattle.logic_linear.specs.inner.Merging.{Passes};

use super::form::{Lin, Term, negatives};
use super::formula::{Formula, copied, copied_form};
use super::measure::{MOST_NODES, nodes};
use super::sums::combined_terms;
use base_list::Seq;
use std::alloc::{AllocError, Global};

/// An assignment: a form's value to the number at a place, or a formula's truth to the truth value
/// there.
#[derive(Debug, Drop)]
pub enum Put {
    Number { place: u32, form: Lin },
    Truth { place: u32, is: Formula },
}

/// `2^95`
const FORM_BOUND: i128 = 1 << 95;

/// The formula that is true exactly where the given one is after the assignment. It is none exactly
/// where a number of that formula is not from `-2^95` to `2^95 - 1`, or it has more than
/// [`MOST_NODES`] nodes. It fails only for want of memory.
pub fn substitute(
    alloc: Global,
    formula: &Formula,
    put: &Put,
) -> Result<Option<Formula>, AllocError>
    ensures { IfOk result (λ after. after ≡ within_limits (substituted put.now formula.now)) }
{
    if nodes_after(put, formula) > MOST_NODES {
        return Ok(None);
    }
    substituted(alloc, put, formula)
}

/// The formula after the assignment, where its numbers are in range.
#[cycle(substituted)]
fn substituted(alloc: Global, put: &Put, formula: &Formula) -> Result<Option<Formula>, AllocError>
    ensures { IfOk result (λ after. after ≡ in_range (substituted put.now formula.now)) }
{
    match formula {
        Formula::Row(form) => put_in_row(alloc, put, form),
        Formula::Flag { place, is } => put_in_flag(alloc, put, *place, *is),
        Formula::All(parts) => match substituted_parts(alloc, put, parts.items())? {
            None => Ok(None),
            Some(parts) => Ok(Some(Formula::All(parts))),
        },
        Formula::Any(parts) => match substituted_parts(alloc, put, parts.items())? {
            None => Ok(None),
            Some(parts) => Ok(Some(Formula::Any(parts))),
        },
    }
}

#[cycle(substituted)]
fn substituted_parts(
    alloc: Global,
    put: &Put,
    parts: &[Formula],
) -> Result<Option<Seq<Formula>>, AllocError>
    ensures { IfOk result (λ after. after ≡ all_in_range (map (substituted put.now) parts.now)) }
{
    let mut made = Vec::new(alloc);
    for part in parts {
        let Some(part) = substituted(alloc, put, part)? else {
            return Ok(None);
        };
        made.push(part)?;
    }
    Ok(Some(Seq::of(made)))
}

/// The row after the assignment, where its numbers are in range.
fn put_in_row(alloc: Global, put: &Put, form: &Lin) -> Result<Option<Formula>, AllocError>
    ensures { IfOk result (λ after. after ≡ in_range (put_in_row put.now form.now)) }
{
    match put {
        Put::Number { place, form: by } => match replaced(alloc, *place, by, form)? {
            None => Ok(None),
            Some(form) => Ok(Some(Formula::Row(form))),
        },
        Put::Truth { .. } => Ok(Some(Formula::Row(copied_form(form)?))),
    }
}

/// The flag after the assignment, where its numbers are in range.
fn put_in_flag(
    alloc: Global,
    put: &Put,
    place: u32,
    is: bool,
) -> Result<Option<Formula>, AllocError>
    ensures { IfOk result (λ after. after ≡ in_range (put_in_flag put.now place is)) }
{
    match put {
        Put::Number { .. } => Ok(Some(Formula::Flag { place, is })),
        Put::Truth { place: at, is: by } => {
            if place != *at {
                return Ok(Some(Formula::Flag { place, is }));
            }
            if is {
                Ok(Some(copied(alloc, by)?))
            } else {
                negated(alloc, by)
            }
        }
    }
}

/// The form with another in place of a variable, where its numbers are in range.
fn replaced(alloc: Global, place: u32, by: &Lin, form: &Lin) -> Result<Option<Lin>, AllocError>
    ensures { IfOk result (λ made. made ≡ form_in_range (replaced place by.now form.now)) }
{
    let factor = times_at(place, form);
    let Some(constant) = sum_in_range(form.constant(), factor, by.constant()) else {
        return Ok(None);
    };
    let others = others_of(alloc, place, form.terms())?;
    let Some(terms) = combined_terms(alloc, 1, &others, factor, by.terms())? else {
        return Ok(None);
    };
    if !are_terms_in_range(terms.items()) {
        return Ok(None);
    }
    Ok(Some(Lin::of(terms.into_items(), constant)))
}

/// How many times a variable counts in a form.
fn times_at(place: u32, form: &Lin) -> i128
    ensures { result ≡ times_at place form.now.terms }
{
    for term in form.terms() {
        if term.place == place {
            return term.times;
        }
    }
    0
}

/// The terms of the other places.
fn others_of(alloc: Global, place: u32, terms: &[Term]) -> Result<Vec<Term>, AllocError>
    ensures { IfOk result (λ others. others.items ≡ filter (is_other place) terms.now) }
{
    let mut others = Vec::new(alloc);
    for term in terms {
        if term.place != place {
            others.push(*term)?;
        }
    }
    Ok(others)
}

/// `number + factor * other`, where it is in range.
fn sum_in_range(number: i128, factor: i128, other: i128) -> Option<i128>
    requires { is_in_range number ≡ true }
    ensures { Passes is_in_range (number +ℤ factor *ℤ other) result }
{
    let product = factor.checked_mul(other)?;
    let sum = number.checked_add(product)?;
    if is_in_range(sum) { Some(sum) } else { None }
}

/// Whether a number is in range.
fn is_in_range(number: i128) -> bool
    ensures { result ≡ is_in_range number }
{
    -FORM_BOUND <= number && number < FORM_BOUND
}

/// Whether the number of each term is in range.
fn are_terms_in_range(terms: &[Term]) -> bool
    ensures { result ≡ list_all has_term_in_range terms.now }
{
    terms.iter().all(|term| is_in_range(term.times))
}

/// The negation of the formula, where its numbers are in range.
#[cycle(negated)]
fn negated(alloc: Global, formula: &Formula) -> Result<Option<Formula>, AllocError>
    ensures { IfOk result (λ negated. negated ≡ in_range (negation formula.now)) }
{
    match formula {
        Formula::Row(form) => match one_less(alloc, form)? {
            None => Ok(None),
            Some(form) => Ok(Some(Formula::Row(form))),
        },
        Formula::Flag { place, is } => Ok(Some(Formula::Flag {
            place: *place,
            is: !*is,
        })),
        Formula::All(parts) => match negated_parts(alloc, parts.items())? {
            None => Ok(None),
            Some(parts) => Ok(Some(Formula::Any(parts))),
        },
        Formula::Any(parts) => match negated_parts(alloc, parts.items())? {
            None => Ok(None),
            Some(parts) => Ok(Some(Formula::All(parts))),
        },
    }
}

#[cycle(negated)]
fn negated_parts(alloc: Global, parts: &[Formula]) -> Result<Option<Seq<Formula>>, AllocError>
    ensures { IfOk result (λ negated. negated ≡ all_in_range (map negation parts.now)) }
{
    let mut made = Vec::new(alloc);
    for part in parts {
        let Some(part) = negated(alloc, part)? else {
            return Ok(None);
        };
        made.push(part)?;
    }
    Ok(Some(Seq::of(made)))
}

/// One less the form, where its numbers are in range.
fn one_less(alloc: Global, form: &Lin) -> Result<Option<Lin>, AllocError>
    ensures { IfOk result (λ made. made ≡ form_in_range (one_less form.now)) }
{
    if !are_negatable(form.terms()) {
        return Ok(None);
    }
    if form.constant() < 2 - FORM_BOUND {
        return Ok(None);
    }
    let terms = negatives(alloc, form.terms())?;
    Ok(Some(Lin::of(terms, 1 - form.constant())))
}

/// Whether each number is in range with its sign turned.
fn are_negatable(terms: &[Term]) -> bool
    requires { All IsTerm terms.now }
    ensures { result ≡ list_all has_term_in_range (map negative_term terms.now) }
{
    for term in terms {
        if term.times <= -FORM_BOUND {
            return false;
        }
    }
    true
}

/// The nodes of the formula after the assignment, and one more than the most where they are more.
#[cycle(nodes_after)]
fn nodes_after(put: &Put, formula: &Formula) -> u64
    ensures { result ≡ min (nodes_of (substituted put.now formula.now)) (MOST_NODES + 1) }
{
    match formula {
        Formula::Row(_) => 1,
        Formula::Flag { place, is } => nodes_in_flag(put, *place, *is),
        Formula::All(parts) => nodes_of_parts_after(put, parts.items()),
        Formula::Any(parts) => nodes_of_parts_after(put, parts.items()),
    }
}

#[cycle(nodes_after)]
fn nodes_of_parts_after(put: &Put, parts: &[Formula]) -> u64
    ensures { result ≡ min (nodes_of_all (map (substituted put.now) parts.now)) (MOST_NODES + 1) }
{
    let mut total = 1;
    for part in parts {
        total = (total + nodes_after(put, part)).min(MOST_NODES + 1);
    }
    total
}

/// The nodes of the flag after the assignment, and one more than the most where they are more.
fn nodes_in_flag(put: &Put, place: u32, is: bool) -> u64
    ensures { result ≡ min (nodes_of (put_in_flag put.now place is)) (MOST_NODES + 1) }
{
    match put {
        Put::Number { .. } => 1,
        Put::Truth { place: at, is: by } => { if place == *at { nodes(by) } else { 1 } }
    }
}
