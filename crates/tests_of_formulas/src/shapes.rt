//! Formulas told by plain data, so that tests own none.

ghost use Rattle.std.specs.Prelude.{pos, ◌^◌, neg_ℤ, ◌≤ℤ◌, ◌<ℤ◌, ◌≢◌, IsTrue, [], ◌∷◌};
ghost use Rattle.std.specs.List.Sorted.{IsStrictlyIncreasing};
ghost use Rattle.logic_linear.specs.Linear.{IsLinear};
ghost use Rattle.tests_of_formulas.specs.Forms.{pair_of};

use base_list::Seq;
use logic_linear::{Formula, Lin, Term};
use std::alloc::{AllocError, Global};
use std::test::Fail;

/// `2^95`
pub(crate) const BOUND: i128 = 1 << 95;

/// A part of a formula told by plain data.
#[derive(Clone, Copy, Debug)]
pub(crate) enum Shape<'a> {
    /// So many times the variables of these places, and this constant, add up to at most 0.
    Row(&'a [(u32, i128)], i128),
    /// The truth value at the place is this one.
    Flag(u32, bool),
}

fn term(place: u32, times: i128) -> Term {
    Term { place, times }
}

/// Whether a form may have the number as its constant.
fn is_constant(number: i128) -> bool
    ensures { IsTrue result → (neg_ℤ (pos (2 ^ 95)) ≤ℤ number) × (number <ℤ pos (2 ^ 95)) }
{
    -BOUND <= number && number < BOUND
}

/// Whether a variable may count so many times.
fn is_times(number: i128) -> bool
    ensures { IsTrue result → (number ≢ pos 0)
        × (neg_ℤ (pos (2 ^ 95)) ≤ℤ number) × (number <ℤ pos (2 ^ 95)) }
{
    number != 0 && is_constant(number)
}

/// Whether the places rise.
fn do_rise(one: u32, other: u32) -> bool
    ensures { IsTrue result → IsStrictlyIncreasing (one ∷ other ∷ []) }
{
    one < other
}

/// The form of one variable, where its numbers may be.
fn form_of_one(alloc: Global, one: Term, constant: i128) -> Result<Lin, Fail> {
    if !is_times(one.times) || !is_constant(constant) {
        return Err(Fail::from("a form of one variable"));
    }
    Ok(Lin::of(Vec::from_array(alloc, [one])?, constant))
}

/// Whether these are the places and numbers of a form of two variables.
fn are_of_form(place: u32, times: i128, other: u32, other_times: i128, constant: i128) -> bool
    ensures { IsTrue result → IsLinear (pair_of place times other other_times constant) }
{
    if !do_rise(place, other) || !is_constant(constant) {
        return false;
    }
    is_times(times) && is_times(other_times)
}

/// The form of two variables with these places and numbers.
fn form_of_two(
    alloc: Global,
    place: u32,
    times: i128,
    other: u32,
    other_times: i128,
    constant: i128,
) -> Result<Lin, AllocError>
    requires { IsLinear (pair_of place times other other_times constant) }
{
    let one = Term { place, times };
    let other = Term {
        place: other,
        times: other_times,
    };
    Ok(Lin::of(Vec::from_array(alloc, [one, other])?, constant))
}

/// The form of these terms, of which there are two at most.
pub(crate) fn form(alloc: Global, terms: &[(u32, i128)], constant: i128) -> Result<Lin, Fail> {
    match terms {
        [] => {
            if !is_constant(constant) {
                return Err(Fail::from("a constant"));
            }
            Ok(Lin::of(Vec::new(alloc), constant))
        }
        [(place, times)] => Ok(form_of_one(alloc, term(*place, *times), constant)?),
        [(one, one_times), (other, other_times)] => {
            if !are_of_form(*one, *one_times, *other, *other_times, constant) {
                return Err(Fail::from("a form of two variables"));
            }
            Ok(form_of_two(alloc, *one, *one_times, *other, *other_times, constant)?)
        }
        _ => Err(Fail::from("more than two variables")),
    }
}

/// The formula that is told.
pub(crate) fn made(alloc: Global, shape: &Shape) -> Result<Formula, Fail> {
    match shape {
        Shape::Row(terms, constant) => Ok(Formula::Row(form(alloc, terms, *constant)?)),
        Shape::Flag(place, is) => Ok(Formula::Flag {
            place: *place,
            is: *is,
        }),
    }
}

/// All of these parts.
pub(crate) fn all_of(alloc: Global, shapes: &[Shape]) -> Result<Formula, Fail> {
    let mut parts = Vec::new(alloc);
    for shape in shapes {
        parts.push(made(alloc, shape)?)?;
    }
    Ok(Formula::All(Seq::of(parts)))
}
