//! Rows that tie a form to what it was worth before the block.

ghost use Rattle.std.specs.Prelude.{◌≡◌, IfOk, All, map, true};
ghost use Rattle.lang_base.specs.Numbers.{is_within};
ghost use Rattle.logic_linear.specs.Linear.{IsTerm};
ghost use Rattle.logic_linear.specs.Negation.{negative_term};
ghost use Rattle.machine_events.specs.Counts.{zero_form};
ghost use Rattle.machine_events.specs.CountClaims.{is_turned, minus, more_by, old_form};
ghost use Rattle.plan_count.specs.inner.Rows.{IsCountable, last_term, old_number};

use logic_linear::{Lin, Term};
use std::alloc::{AllocError, Global};

/// The place of what a form was worth before the block.
const OLD: u32 = 32;

/// Whether what the form was worth stands at its place with the sign turned.
fn is_turned(form: &Lin) -> bool
    ensures { result ≡ is_turned form.now.terms }
{
    match form.terms().first() {
        Some(term) => term.times < 0,
        None => false,
    }
}

/// The number at that place, or that with its sign turned.
fn old_term(is_turned: bool) -> Term
    ensures { result ≡ last_term (old_number is_turned) }
{
    Term {
        place: OLD,
        times: if is_turned { -1 } else { 1 },
    }
}

/// The terms with their numbers' signs turned.
fn negatives(alloc: Global, terms: &[Term]) -> Result<Vec<Term>, AllocError>
    requires { All IsTerm terms.now }
    ensures { IfOk result (λ turned. turned.items ≡ map negative_term terms.now) }
{
    let mut turned = Vec::new(alloc);
    for term in terms {
        turned.push(Term {
            place: term.place,
            times: -term.times,
        })?;
    }
    Ok(turned)
}

/// The form, less what it was worth.
pub(crate) fn less_old(alloc: Global, form: &Lin) -> Result<Lin, AllocError>
    requires { IsCountable form.now }
    ensures { IfOk result (λ made. made ≡ minus form.now (old_form form.now)) }
{
    let mut terms = Vec::from_slice(alloc, form.terms())?;
    terms.push(old_term(!is_turned(form)))?;
    Ok(Lin::of(terms, form.constant()))
}

/// What the form was worth, less the form, and a number more.
pub(crate) fn old_less(alloc: Global, form: &Lin, more: i128) -> Result<Lin, AllocError>
    requires form { IsCountable form.now }
    requires more { is_within 1 more ≡ true }
    ensures { IfOk result (λ made. made
        ≡ more_by more (minus (old_form form.now) form.now)) }
{
    let mut terms = negatives(alloc, form.terms())?;
    terms.push(old_term(is_turned(form)))?;
    Ok(Lin::of(terms, more - form.constant()))
}

/// The form with its sign turned.
pub(crate) fn turned(alloc: Global, form: &Lin) -> Result<Lin, AllocError>
    requires { IsCountable form.now }
    ensures { IfOk result (λ made. made ≡ minus zero_form form.now) }
{
    let terms = negatives(alloc, form.terms())?;
    Ok(Lin::of(terms, -form.constant()))
}
