//! Guards at the inputs and locals of a client that waits.

ghost use Rattle.std.specs.Prelude.{◌≡◌, ◌≤◌, ◌-◌, IfOk, IsTrue, true, map, length};
ghost use Rattle.std.specs.List.{list_all};
ghost use Rattle.logic_linear.specs.Negation.{can_negate, negation};
ghost use Rattle.lang_monitor.specs.Queries.{for_waiting, waiting_form, waiting_guard};
ghost use Rattle.lang_monitor.specs.Queries.{waiting_place, waiting_term};
ghost use Rattle.logic_wp.specs.inner.Movable.{is_movable, is_movable_place, is_movable_term};

use base_list::Seq;
use lang_base::limits::FIRST_INPUT;
use lang_monitor::Monitor;
use logic_linear::{Formula, Lin, Term};
use std::alloc::{AllocError, Global};

/// The place of a waiting client's input or local, `FIRST_INPUT` places further than a block's. A
/// field stays where it is.
fn waiting_place(place: u32) -> u32
    requires { is_movable_place place ≡ true }
    ensures { result ≡ waiting_place place }
{
    if place < FIRST_INPUT {
        place
    } else {
        place + FIRST_INPUT
    }
}

fn waiting_terms(alloc: Global, terms: &[Term]) -> Result<Vec<Term>, AllocError>
    requires { list_all is_movable_term terms.now ≡ true }
    ensures { IfOk result (λ moved. moved.items ≡ map waiting_term terms.now) }
{
    let mut moved = Vec::new(alloc);
    for term in terms {
        moved.push(Term {
            place: waiting_place(term.place),
            times: term.times,
        })?;
    }
    Ok(moved)
}

fn waiting_form(alloc: Global, form: &Lin) -> Result<Lin, AllocError>
    requires { list_all is_movable_term form.now.terms ≡ true }
    ensures { IfOk result (λ moved. moved ≡ waiting_form form.now) }
{
    let constant = form.constant();
    let terms = waiting_terms(alloc, form.terms())?;
    Ok(Lin::of(terms, constant))
}

/// A formula with a waiting client's inputs and locals in the place of a block's.
#[cycle(waiting)]
fn for_waiting(alloc: Global, formula: &Formula) -> Result<Formula, AllocError>
    requires { is_movable formula.now ≡ true }
    ensures { IfOk result (λ moved. moved ≡ for_waiting formula.now) }
{
    match formula {
        Formula::Row(form) => Ok(Formula::Row(waiting_form(alloc, form)?)),
        Formula::Flag { place, is } => Ok(Formula::Flag {
            place: waiting_place(*place),
            is: *is,
        }),
        Formula::All(parts) => Ok(Formula::All(Seq::of(waiting_parts(alloc, parts.items())?))),
        Formula::Any(parts) => Ok(Formula::Any(Seq::of(waiting_parts(alloc, parts.items())?))),
    }
}

#[cycle(waiting)]
fn waiting_parts(alloc: Global, parts: &[Formula]) -> Result<Vec<Formula>, AllocError>
    requires { list_all (λ part. part) (map is_movable parts.now) ≡ true }
    ensures { IfOk result (λ moved. moved.items ≡ map for_waiting parts.now) }
{
    let mut moved = Vec::new(alloc);
    for part in parts {
        moved.push(for_waiting(alloc, part)?)?;
    }
    Ok(moved)
}

/// The guard of a condition, which is numbered from 1, at the inputs and locals of a client that
/// waits. It can be negated twice.
pub(crate) fn waiting_guard(
    alloc: Global,
    monitor: &Monitor,
    condition: u32,
) -> Result<Formula, AllocError>
    requires first { 1 ≤ condition }
    requires last { condition ≤ length monitor.now.conditions }
    ensures guard { IfOk result (λ guard. guard ≡ waiting_guard monitor.now condition) }
    ensures once { IfOk result (λ guard. IsTrue (can_negate guard)) }
    ensures twice { IfOk result (λ guard. IsTrue (can_negate (negation guard))) }
{
    for_waiting(alloc, &monitor.conditions()[condition as usize - 1].guard)
}
