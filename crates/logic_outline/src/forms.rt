//! The forms of cases, read from their texts.

ghost use Rattle.std.specs.Prelude.{◌≡◌, ◌^◌, ◌≤ℤ◌, ◌<ℤ◌, ◌↔◌, All, pos, neg_ℤ};
ghost use Rattle.std.specs.Prelude.{IfOk, IsTrue, MatchOption, option_map};
ghost use Rattle.logic_linear.specs.Linear.{FORM_BOUND, IsLinear, IsRising, IsTerm};
ghost use Rattle.logic_cert.specs.CertText.{term_text};
ghost use Rattle.logic_outline.specs.Outlines.{IsForm};
ghost use Rattle.logic_outline.specs.Readings.{IsRead};
ghost use Rattle.logic_outline.specs.inner.Parts.{all_terms_text, AreTerms, IsSum, IsTerms};
ghost use Rattle.logic_outline.specs.inner.Parts.{IsTypedTerm, later_form, sides_text, sum_text};
ghost use Rattle.logic_outline.specs.inner.Parts.{terms_text};

use super::numbers::{after, count, multiple, times};
use base_list::Seq;
use logic_linear::{Lin, Term};
use std::alloc::{AllocError, Global};

/// The numbers of a form are from `-BOUND` to `BOUND - 1`.
const BOUND: i128 = 1 << 95;

/// The form of cases after their word, and the word of the first side.
pub(crate) fn sides<'a>(
    alloc: Global,
    bytes: &'a [u8],
) -> Result<Option<(Lin, &'a [u8])>, AllocError>
    ensures { IfOk result (IsRead sides_text IsForm bytes.now) }
{
    match form(alloc, bytes)? {
        Some((form, rest)) => Ok(form_and(form, after(b" below", rest))),
        None => Ok(None),
    }
}

/// The form, and the bytes after a word that was found.
fn form_and<'a>(form: Lin, rest: Option<&'a [u8]>) -> Option<(Lin, &'a [u8])>
    ensures { result ≡ option_map (λ bytes. (form, bytes)) rest.entry }
{
    match rest {
        Some(rest) => Some((form, rest)),
        None => None,
    }
}

/// A form after a blank.
fn form<'a>(alloc: Global, bytes: &'a [u8]) -> Result<Option<(Lin, &'a [u8])>, AllocError>
    ensures { IfOk result (IsRead later_form IsForm bytes.now) }
{
    match sum(alloc, bytes)? {
        Some((sum, rest)) => Ok(and_rest(form_of_sum(sum), rest)),
        None => Ok(None),
    }
}

/// A form that was made, and the bytes after it.
fn and_rest<'a>(form: Option<Lin>, rest: &'a [u8]) -> Option<(Lin, &'a [u8])>
    ensures { result ≡ option_map (λ made. (made, rest.entry)) form }
{
    match form {
        Some(form) => Some((form, rest)),
        None => None,
    }
}

/// The form of the terms and the constant, where they keep its rule.
fn form_of_sum(sum: (Seq<Term>, i128)) -> Option<Lin>
    ensures { MatchOption result (IsLinear (record { terms = sum.0; constant = sum.1 }) → ⊥)
        (λ form. (form ≡ record { terms = sum.0; constant = sum.1 }) × IsLinear form) }
{
    let (terms, constant) = sum;
    form_of(terms, constant)
}

fn form_of(terms: Seq<Term>, constant: i128) -> Option<Lin>
    ensures { MatchOption result (IsLinear (record { terms = terms; constant = constant }) → ⊥)
        (λ form. (form ≡ record { terms = terms; constant = constant }) × IsLinear form) }
{
    if !keeps_rule(terms.items(), constant) {
        return None;
    }
    Some(Lin::of(terms.into_items(), constant))
}

/// Whether the terms and the constant are those of a form.
fn keeps_rule(terms: &[Term], constant: i128) -> bool
    ensures { IsTrue result ↔ IsLinear (record { terms = terms.now; constant = constant }) }
{
    let rising = are_rising(terms);
    let each = are_terms(terms);
    let within = is_within(constant);
    rising && each && within
}

/// Whether the places rise strictly.
fn are_rising(terms: &[Term]) -> bool
    ensures { IsTrue result ↔ IsRising terms.now }
{
    for i in 1..terms.len() {
        if terms[i - 1].place >= terms[i].place {
            return false;
        }
    }
    true
}

/// Whether each number is one of a term.
fn are_terms(terms: &[Term]) -> bool
    ensures { IsTrue result ↔ All IsTerm terms.now }
{
    terms.iter().all(|term| is_term(*term))
}

fn is_term(term: Term) -> bool
    ensures { IsTrue result ↔ IsTerm term }
{
    let within = is_within(term.times);
    within && term.times != 0
}

fn is_within(number: i128) -> bool
    ensures { IsTrue result
        ↔ ((neg_ℤ (pos FORM_BOUND) ≤ℤ number) × (number <ℤ pos FORM_BOUND)) }
{
    -BOUND <= number && number < BOUND
}

/// Terms and a constant, which may be no form.
fn sum<'a>(
    alloc: Global,
    bytes: &'a [u8],
) -> Result<Option<((Seq<Term>, i128), &'a [u8])>, AllocError>
    ensures { IfOk result (IsRead sum_text IsSum bytes.now) }
{
    match terms(alloc, bytes)? {
        Some((terms, rest)) => Ok(and_constant(terms, times(rest))),
        None => Ok(None),
    }
}

/// The terms, and the constant that was read.
fn and_constant<'a>(
    terms: Seq<Term>,
    read: Option<(i128, &'a [u8])>,
) -> Option<((Seq<Term>, i128), &'a [u8])>
    ensures { result ≡ option_map (λ one. ((terms, one.0), one.1)) read.entry }
{
    match read {
        Some((constant, rest)) => Some(((terms, constant), rest)),
        None => None,
    }
}

/// How many terms there are, and the terms.
fn terms<'a>(alloc: Global, bytes: &'a [u8]) -> Result<Option<(Seq<Term>, &'a [u8])>, AllocError>
    ensures { IfOk result (IsRead terms_text IsTerms bytes.now) }
{
    match count(bytes) {
        Some((count, rest)) => all_terms(alloc, count, rest),
        None => Ok(None),
    }
}

/// So many terms. Memory is taken for those that were found alone.
fn all_terms<'a>(
    alloc: Global,
    count: u64,
    bytes: &'a [u8],
) -> Result<Option<(Seq<Term>, &'a [u8])>, AllocError>
    ensures { IfOk result (IsRead all_terms_text (AreTerms count) bytes.now) }
{
    let mut terms = Vec::new(alloc);
    let mut left = bytes;
    for _turn in 0..count {
        match term(left) {
            Some((term, rest)) => {
                terms.push(term)?;
                left = rest;
            }
            None => return Ok(None),
        }
    }
    Ok(Some((Seq::of(terms), left)))
}

/// A term: its place and its number.
fn term<'a>(bytes: &'a [u8]) -> Option<(Term, &'a [u8])>
    ensures { IsRead term_text IsTypedTerm bytes.now result }
{
    let ((place, times), rest) = multiple(bytes)?;
    Some((Term { place, times }, rest))
}
