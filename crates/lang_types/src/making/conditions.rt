//! Conditions: the classes of equal guards.

ghost use Rattle.std.specs.Prelude.{◌≡◌, ◌≤◌, All, IfNone, IfOk, IfSome, IsSomeAnd, length, map};
ghost use Rattle.std.specs.Prelude.{nat_le, slice_get};
ghost use Rattle.std.specs.List.{list_any};
ghost use Rattle.lang_base.specs.Limits.{CONDITIONS, FIRST_INPUT};
ghost use Rattle.lang_types.specs.inner.Making.{HasGuard, IsNumbered, IsWaitNumber, LacksGuard};
ghost use Rattle.lang_monitor.specs.Inputs.{reads_inputs, reads_term};

use base_list::Seq;
use lang_base::limits::FIRST_INPUT;
use lang_monitor::Condition;
use lang_printer::shown_text;
use lang_tree::Expr;
use logic_linear::{Formula, Lin, Term, copy_formula, same_formula};
use std::alloc::{AllocError, Global};

/// The number of the condition that calls wait on for this guard: 0 where it is asserted.
pub(crate) fn wait_number(
    alloc: Global,
    asserts: bool,
    known: &mut Vec<Condition>,
    guard: &Formula,
    shown: &Expr,
) -> Result<u32, AllocError>
    requires { length known.old.items ≤ CONDITIONS }
    ensures { IfOk result (λ n. IsWaitNumber asserts known.old.items guard.now shown.now n
        known.new.items) }
{
    if asserts {
        return Ok(0);
    }
    number_of(alloc, known, guard, shown)
}

/// The number of the condition with this guard. Where there is none it is added.
fn number_of(
    alloc: Global,
    known: &mut Vec<Condition>,
    guard: &Formula,
    shown: &Expr,
) -> Result<u32, AllocError>
    requires { length known.old.items ≤ CONDITIONS }
    ensures { IfOk result (λ n. IsNumbered known.old.items guard.now shown.now n known.new.items) }
{
    match condition_with(known.as_slice(), guard) {
        Some(index) => Ok(index as u32 + 1),
        None => {
            let condition = Condition {
                guard: copy_formula(alloc, guard)?,
                reads_inputs: reads_inputs(guard),
                shown: Seq::of(shown_text(alloc, shown)?),
            };
            let before = known.len();
            known.push(condition)?;
            Ok(before as u32 + 1)
        }
    }
}

/// The index of the condition with this guard.
fn condition_with(conditions: &[Condition], guard: &Formula) -> Option<usize>
    ensures none { IfNone result (All (LacksGuard guard.now) conditions.now) }
    ensures at { IfSome result (λ k. IsSomeAnd (slice_get conditions.now k) (HasGuard guard.now)) }
{
    for (index, condition) in conditions.iter().enumerate() {
        if same_formula(&condition.guard, guard) {
            return Some(index);
        }
    }
    None
}

/// Whether a guard reads inputs.
#[cycle(reads_inputs)]
fn reads_inputs(guard: &Formula) -> bool
    ensures { result ≡ reads_inputs guard.now }
{
    match guard {
        Formula::Row(form) => form_reads_inputs(form),
        Formula::Flag { place, .. } => is_input(*place),
        Formula::All(parts) => any_reads_inputs(parts.items()),
        Formula::Any(parts) => any_reads_inputs(parts.items()),
    }
}

#[cycle(reads_inputs)]
fn any_reads_inputs(parts: &[Formula]) -> bool
    ensures { result ≡ list_any (λ part. part) (map reads_inputs parts.now) }
{
    for part in parts {
        if reads_inputs(part) {
            return true;
        }
    }
    false
}

fn form_reads_inputs(form: &Lin) -> bool
    ensures { result ≡ list_any reads_term form.now.terms }
{
    form.terms().iter().any(is_of_input)
}

fn is_of_input(term: &Term) -> bool
    ensures { result ≡ reads_term term.now }
{
    is_input(term.place)
}

/// Whether a place is an input's or a local's.
fn is_input(place: u32) -> bool
    ensures { result ≡ nat_le FIRST_INPUT place }
{
    FIRST_INPUT <= place
}
