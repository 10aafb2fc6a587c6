//! The rows of a guard, by each of which the clients may be counted that pass it.

ghost use Rattle.std.specs.Prelude.{◌≡◌, ◌≤◌, ◌-◌, ◌↔◌, IfOk, IsTrue, length, map, not, slice_get};
ghost use Rattle.std.specs.List.{filter, list_any};
ghost use Rattle.logic_linear.specs.Places.{rows_of};
ghost use Rattle.logic_linear.specs.declared.formula.Formula.TheVariants as formulas;
ghost use Rattle.machine_events.specs.Counts.{cut_of, every_of, is_never, never, parts_without};
ghost use Rattle.machine_events.specs.Counts.{row_measure, some_of, without_row};
ghost use Rattle.logic_wp.specs.PlainClaims.{ReadsNone};
ghost use Rattle.plan_count.specs.Questions.{HasRowAt};
ghost use Rattle.plan_count.specs.inner.Rows.{rows_of_parts};

use base_list::Seq;
use lang_monitor::Monitor;
use logic_linear::{Formula, Lin};
use logic_wp::guard_without_inputs_stays;
use std::alloc::{AllocError, Global};

// ---- how many rows there are

/// What is left of this number, less one for each row of a formula.
#[cycle(counting)]
fn rows_after(formula: &Formula, left: u32) -> u32
    ensures { result ≡ left - length (rows_of formula.now) }
{
    match formula {
        Formula::Row(_) => left.saturating_sub(1),
        Formula::Flag { .. } => left,
        Formula::All(parts) => rows_after_all(parts.items(), left),
        Formula::Any(parts) => rows_after_all(parts.items(), left),
    }
}

#[cycle(counting)]
fn rows_after_all(parts: &[Formula], left: u32) -> u32
    ensures { result ≡ left - length (rows_of_parts parts.now) }
{
    let mut after = left;
    for part in parts {
        after = rows_after(part, after);
    }
    after
}

/// Whether the guard of the condition, which reads no inputs, has a row of this number, from 1.
pub fn has_row(monitor: &Monitor, condition: u32, row: u32) -> bool
    requires { ReadsNone monitor.now condition }
    ensures { IsTrue result ↔ HasRowAt monitor.now condition row }
{
    guard_without_inputs_stays(); // a client that waits has the condition's own guard
    let held = &monitor.conditions()[condition as usize - 1];
    row >= 1 && rows_after(&held.guard, row) == 0
}

// ---- a row

/// The row of this number of a formula, where it has one.
#[cycle(rows)]
fn row_at(formula: &Formula, row: u32) -> Result<Option<Lin>, AllocError>
    requires { 1 ≤ row }
    ensures { IfOk result (λ found. found ≡ slice_get (rows_of formula.now) (row - 1)) }
{
    match formula {
        Formula::Row(form) => {
            if row == 1 {
                Ok(Some(form.clone()?))
            } else {
                Ok(None)
            }
        }
        Formula::Flag { .. } => Ok(None),
        Formula::All(parts) => row_among(parts.items(), row),
        Formula::Any(parts) => row_among(parts.items(), row),
    }
}

#[cycle(rows)]
fn row_among(parts: &[Formula], row: u32) -> Result<Option<Lin>, AllocError>
    requires { 1 ≤ row }
    ensures { IfOk result (λ found. found ≡ slice_get (rows_of_parts parts.now) (row - 1)) }
{
    let mut left = row;
    for part in parts {
        let after = rows_after(part, left);
        if after == 0 {
            return row_at(part, left);
        }
        left = after;
    }
    Ok(None)
}

/// The form of the measure of a guard by its row of this number.
pub(crate) fn row_form(alloc: Global, guard: &Formula, row: u32) -> Result<Lin, AllocError>
    requires { 1 ≤ row }
    ensures { IfOk result (λ form. form ≡ (row_measure guard.now row).form) }
{
    match row_at(guard, row)? {
        Some(form) => Ok(form),
        None => Ok(Lin::of(Vec::new(alloc), 0)),
    }
}

// ---- a guard without a row

/// A formula that is true nowhere.
fn never(alloc: Global) -> Formula
    ensures { result ≡ never }
{
    Formula::Any(Seq::of(Vec::new(alloc)))
}

/// Whether a formula is that one.
fn is_never(formula: &Formula) -> bool
    ensures { result ≡ is_never formula.now }
{
    match formula {
        Formula::Row(_) => false,
        Formula::Flag { .. } => false,
        Formula::All(_) => false,
        Formula::Any(parts) => parts.items().is_empty(),
    }
}

fn some_never(parts: &[Formula]) -> bool
    ensures { result ≡ list_any is_never parts.now }
{
    parts.iter().any(|part| is_never(part))
}

/// All of the parts.
fn every_of(alloc: Global, parts: Vec<Formula>) -> Formula
    ensures { result ≡ every_of parts.items }
{
    if some_never(&parts) {
        never(alloc)
    } else {
        Formula::All(Seq::of(parts))
    }
}

/// Leaves out the parts that are true nowhere.
fn leave_out_never(parts: &mut Vec<Formula>)
    ensures { parts.new.items ≡ filter (λ part. not (is_never part)) parts.old.items }
{
    parts.retain(|part| !is_never(part));
}

/// Some of the parts.
fn some_of(parts: Vec<Formula>) -> Formula
    ensures { result ≡ some_of parts.items }
{
    let mut some = parts;
    leave_out_never(&mut some);
    Formula::Any(Seq::of(some))
}

/// The formula with its row of this number taken for false.
#[cycle(cutting)]
pub(crate) fn without_row(alloc: Global, formula: &Formula, row: u32) -> Result<Formula, AllocError>
    ensures { IfOk result (λ cut. cut ≡ without_row row formula.now) }
{
    match formula {
        Formula::Row(form) => {
            if row == 1 {
                Ok(never(alloc))
            } else {
                Ok(Formula::Row(form.clone()?))
            }
        }
        Formula::Flag { place, is } => Ok(Formula::Flag {
            place: *place,
            is: *is,
        }),
        Formula::All(parts) => {
            let parts = parts_without(alloc, parts.items(), row)?;
            Ok(every_of(alloc, parts))
        }
        Formula::Any(parts) => Ok(some_of(parts_without(alloc, parts.items(), row)?)),
    }
}

#[cycle(cutting)]
fn parts_without(alloc: Global, parts: &[Formula], row: u32) -> Result<Vec<Formula>, AllocError>
    ensures { IfOk result (λ cut. cut.items ≡ parts_without row (map cut_of parts.now)) }
{
    let mut left = row;
    let mut cut = Vec::new(alloc);
    for part in parts {
        cut.push(without_row(alloc, part, left)?)?;
        left = rows_after(part, left);
    }
    Ok(cut)
}
