//! Formulas that are true where a number is outside 64 bits.

ghost use Rattle.std.specs.Prelude.{◌≡◌, ◌^◌, [], IfOk, true};
ghost use Rattle.std.specs.List.{list_all};
ghost use Rattle.lang_base.specs.Numbers.{is_within};
ghost use Rattle.logic_linear.specs.Negation.{can_negate_term};
ghost use Rattle.logic_wp.specs.Limits.{value_if};
ghost use Rattle.machine_events.specs.CountClaims.{more_by};
ghost use Rattle.plan_fits.specs.Outside.{answers_outside, outside_64};
ghost use Rattle.plan_fits.specs.Within.{has_room, has_room_at_end};

use base_list::Seq;
use lang_monitor::Ret;
use logic_linear::{Formula, Lin, Term, negate};
use std::alloc::{AllocError, Global};

/// 2^63: the numbers within 64 bits are below it, and at least its negative.
pub(crate) const BEYOND: i128 = 9_223_372_036_854_775_808;

/// The constant of a form with room is from `-ROOM` to `ROOM`.
const ROOM: i128 = 19_807_040_628_566_084_398_385_987_584;

/// The number of a term is at least this, so that it can be turned.
const LEAST_TIMES: i128 = -39_614_081_257_132_168_796_771_975_166;

fn can_turn(term: &Term) -> bool
    ensures { result ≡ can_negate_term term.now }
{
    term.times >= LEAST_TIMES
}

fn can_turn_all(terms: &[Term]) -> bool
    ensures { result ≡ list_all can_negate_term terms.now }
{
    for term in terms {
        if !can_turn(term) {
            return false;
        }
    }
    true
}

fn is_small(number: i128) -> bool
    ensures { result ≡ is_within (2 ^ 94) number }
{
    -ROOM <= number && number <= ROOM
}

/// Whether 2^63 may be added to the form and taken from it within 96 bits.
pub(crate) fn has_room(form: &Lin) -> bool
    ensures { result ≡ has_room form.now }
{
    let constant = form.constant();
    can_turn_all(form.terms()) && is_small(constant)
}

/// The form, and a number more.
fn more_by(alloc: Global, form: &Lin, number: i128) -> Result<Lin, AllocError>
    requires room { has_room form.now ≡ true }
    requires number { is_within (2 ^ 64) number ≡ true }
    ensures { IfOk result (λ made. made ≡ more_by number form.now) }
{
    let constant = form.constant();
    let terms = Vec::from_slice(alloc, form.terms())?;
    Ok(Lin::of(terms, constant + number))
}

/// That the form is not below 2^63, or is below -2^63.
pub(crate) fn outside_64(alloc: Global, form: &Lin) -> Result<Formula, AllocError>
    requires { has_room form.now ≡ true }
    ensures { IfOk result (λ made. made ≡ outside_64 form.now) }
{
    let below = Formula::Row(more_by(alloc, form, 1 - BEYOND)?);
    let above = negate(alloc, &below)?;
    let under = Formula::Row(more_by(alloc, form, 1 + BEYOND)?);
    let mut either = Vec::new(alloc);
    either.push(above)?;
    either.push(under)?;
    Ok(Formula::Any(Seq::of(either)))
}

/// The formula that is true nowhere.
pub(crate) fn nowhere(alloc: Global) -> Formula
    ensures { result ≡ Formula.Any [] }
{
    Formula::Any(Seq::of(Vec::new(alloc)))
}

/// That the answer is a number outside 64 bits, where its form has room.
pub(crate) fn answers_outside(alloc: Global, answer: &Ret) -> Result<Option<Formula>, AllocError>
    ensures { IfOk result (λ made.
        made ≡ value_if (has_room_at_end answer.now) (answers_outside answer.now)) }
{
    match answer {
        Ret::Nothing => Ok(Some(nowhere(alloc))),
        Ret::Bool(_) => Ok(Some(nowhere(alloc))),
        Ret::Int(form) => {
            if has_room(form) {
                Ok(Some(outside_64(alloc, form)?))
            } else {
                Ok(None)
            }
        }
    }
}
