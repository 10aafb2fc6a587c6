//! The numbers with which guards compare a field.

ghost use Rattle.std.specs.Prelude.{◌≡◌, ◌++◌, ◌∷◌, pos, IfOk, IfSome, OnOk, true};
ghost use Rattle.std.specs.List.{flat_map};
ghost use Rattle.std.specs.Option.{option_to_list};
ghost use Rattle.lang_base.specs.Numbers.{is_within};
ghost use Rattle.logic_linear.specs.Linear.{FORM_BOUND};
ghost use Rattle.lang_monitor.specs.Candidates.{around, bound_of, guard_bounds, own_numbers};
ghost use Rattle.plan_candidates.specs.inner.Numbers.{bound_of_term, formula_numbers, row_numbers};

use super::listing::number_of;
use super::ranges::number_in;
use lang_monitor::{Block, Field, Origin};
use logic_linear::{Formula, Lin, Term};
use std::alloc::{AllocError, Global};

/// The bound that a row of this one term and this constant sets on the field.
fn bound_of_term(field: u32, term: Term, constant: i128) -> Option<i128>
    requires { is_within FORM_BOUND constant ≡ true }
    ensures bound { option_to_list result ≡ bound_of_term field term constant }
    ensures small { IfSome result (λ bound. is_within FORM_BOUND bound ≡ true) }
{
    if term.place != field {
        return None;
    }
    if term.times == 1 {
        return Some(-constant);
    }
    if term.times == -1 {
        return Some(constant);
    }
    None
}

/// The `d` of a row that says `field <= d` or `field >= d`, and nothing else.
fn bound_of(field: u32, form: &Lin) -> Option<i128>
    ensures bound { option_to_list result ≡ bound_of field form.now }
    ensures small { IfSome result (λ bound. is_within FORM_BOUND bound ≡ true) }
{
    let constant = form.constant();
    match form.terms() {
        [term] => bound_of_term(field, *term, constant),
        _ => None,
    }
}

/// Appends a bound, and the numbers beside it.
fn push_around(numbers: &mut Vec<i128>, bound: i128) -> Result<(), AllocError>
    requires { is_within FORM_BOUND bound ≡ true }
    ensures { OnOk result (numbers.new.items ≡ numbers.old.items ++ around bound) }
{
    numbers.push(bound - 1)?;
    numbers.push(bound)?;
    numbers.push(bound + 1)?;
    Ok(())
}

fn push_of_row(numbers: &mut Vec<i128>, field: u32, form: &Lin) -> Result<(), AllocError>
    ensures { OnOk result (numbers.new.items ≡ numbers.old.items ++ row_numbers field form.now) }
{
    match bound_of(field, form) {
        None => Ok(()),
        Some(bound) => Ok(push_around(numbers, bound)?),
    }
}

/// Appends the numbers of each row of the formula, from left to right.
#[cycle(push_of_formula)]
fn push_of_formula(numbers: &mut Vec<i128>, field: u32, formula: &Formula) -> Result<(), AllocError>
    ensures { OnOk result
        (numbers.new.items ≡ numbers.old.items ++ formula_numbers field formula.now) }
{
    match formula {
        Formula::Row(form) => Ok(push_of_row(numbers, field, form)?),
        Formula::Flag { .. } => Ok(()),
        Formula::All(parts) => Ok(push_of_parts(numbers, field, parts.items())?),
        Formula::Any(parts) => Ok(push_of_parts(numbers, field, parts.items())?),
    }
}

#[cycle(push_of_formula)]
fn push_of_parts(numbers: &mut Vec<i128>, field: u32, parts: &[Formula]) -> Result<(), AllocError>
    ensures { OnOk result
        (numbers.new.items ≡ numbers.old.items ++ flat_map (formula_numbers field) parts.now) }
{
    for part in parts {
        push_of_formula(numbers, field, part)?;
    }
    Ok(())
}

/// Appends what is known of the number at the start.
fn push_own(numbers: &mut Vec<i128>, field: &Field) -> Result<(), AllocError>
    ensures { OnOk result (numbers.new.items
        ≡ numbers.old.items ++ own_numbers field.now.start field.now.origin) }
{
    match field.origin {
        Origin::Own => {
            numbers.push(number_of(field.start))?;
            Ok(())
        }
        Origin::Chosen(limit) => {
            numbers.push(number_in(limit))?;
            Ok(())
        }
        Origin::Copied(_) => Ok(()),
    }
}

/// 0, what is known of the number at the start, and the numbers with which guards compare the
/// field, blocks in order.
pub(crate) fn numbers_of(
    alloc: Global,
    blocks: &[Block],
    number: u32,
    field: &Field,
) -> Result<Vec<i128>, AllocError>
    ensures { IfOk result (λ numbers. numbers.items
        ≡ pos 0 ∷ own_numbers field.now.start field.now.origin
        ++ flat_map (guard_bounds number) blocks.now) }
{
    let mut numbers = Vec::from_array(alloc, [0])?;
    push_own(&mut numbers, field)?;
    for block in blocks {
        push_of_formula(&mut numbers, number, &block.guard)?;
    }
    Ok(numbers)
}
