//! The candidates of a monitor.

ghost use Rattle.std.specs.Prelude.{◌≡◌, ◌++◌, ◌∷◌, ◌==◌, ◌≤◌, not, map, length, [], IfOk, OnOk};
ghost use Rattle.std.specs.Prelude.{true, false, if◌then◌else◌};
ghost use Rattle.std.specs.List.{filter, flat_map};
ghost use Rattle.lang_base.specs.Limits.{FIELDS};
ghost use Rattle.lang_monitor.specs.declared.candidate.Candidate.TheVariants.{Below};
ghost use Rattle.lang_monitor.specs.Bodies.{number_of_value};
ghost use Rattle.lang_monitor.specs.Candidates.{bounded, candidates_of, field_candidates};
ghost use Rattle.lang_monitor.specs.Candidates.{int_fields, int_number, kind_candidates};
ghost use Rattle.lang_monitor.specs.Candidates.{own_numbers, pair_candidates};

use super::pool::pool;
use lang_base::{Kind, Value};
use lang_monitor::{Block, Candidate, Field, Monitor};
use std::alloc::{AllocError, Global};

/// The number of a value. A truth value has 0.
pub(crate) fn number_of(value: Value) -> i128
    ensures { result ≡ number_of_value value }
{
    match value {
        Value::Int(number) => number as i128,
        Value::Bool(_) => 0,
    }
}

/// Appends for each number that the field is at most it, and that it is at least it.
fn push_bounded(
    candidates: &mut Vec<Candidate>,
    field: u32,
    bounds: &[i128],
) -> Result<(), AllocError>
    ensures { OnOk result
        (candidates.new.items ≡ candidates.old.items ++ flat_map (bounded field) bounds.now) }
{
    for bound in bounds {
        candidates.push(Candidate::AtMost {
            field,
            bound: *bound,
        })?;
        candidates.push(Candidate::AtLeast {
            field,
            bound: *bound,
        })?;
    }
    Ok(())
}

/// Appends that the bool field is true, and that it is false.
fn push_truths(candidates: &mut Vec<Candidate>, field: u32) -> Result<(), AllocError>
    ensures { OnOk result (candidates.new.items
        ≡ candidates.old.items ++ Candidate.Flag field true ∷ Candidate.Flag field false ∷ []) }
{
    candidates.push(Candidate::Flag { field, is: true })?;
    candidates.push(Candidate::Flag { field, is: false })?;
    Ok(())
}

/// Appends the candidates of a field by itself.
fn push_of_field(
    alloc: Global,
    candidates: &mut Vec<Candidate>,
    blocks: &[Block],
    number: u32,
    field: &Field,
) -> Result<(), AllocError>
    ensures { OnOk result (candidates.new.items ≡ candidates.old.items
        ++ kind_candidates blocks.now number (own_numbers field.now.start field.now.origin)
        field.now.kind) }
{
    match field.kind {
        Kind::Bool => Ok(push_truths(candidates, number)?),
        Kind::Int => {
            let bounds = pool(alloc, blocks, number, field)?;
            Ok(push_bounded(candidates, number, &bounds)?)
        }
    }
}

/// Appends the candidates of each field by itself.
fn push_of_fields(
    alloc: Global,
    candidates: &mut Vec<Candidate>,
    blocks: &[Block],
    fields: &[Field],
) -> Result<(), AllocError>
    requires { length fields.now ≤ FIELDS }
    ensures { OnOk result (candidates.new.items
        ≡ candidates.old.items ++ field_candidates blocks.now 0 fields.now) }
{
    for (number, field) in fields.iter().enumerate() {
        push_of_field(alloc, candidates, blocks, number as u32, field)?;
    }
    Ok(())
}

/// Appends the number of an int field.
fn push_if_int(numbers: &mut Vec<u32>, number: u32, kind: Kind) -> Result<(), AllocError>
    ensures { OnOk result (numbers.new.items ≡ numbers.old.items ++ int_number number kind) }
{
    match kind {
        Kind::Int => {
            numbers.push(number)?;
            Ok(())
        }
        Kind::Bool => Ok(()),
    }
}

/// The numbers of the int fields.
fn int_fields(alloc: Global, fields: &[Field]) -> Result<Vec<u32>, AllocError>
    requires { length fields.now ≤ FIELDS }
    ensures { IfOk result (λ numbers. numbers.items ≡ int_fields 0 fields.now) }
{
    let mut numbers = Vec::new(alloc);
    for (number, field) in fields.iter().enumerate() {
        push_if_int(&mut numbers, number as u32, field.kind)?;
    }
    Ok(numbers)
}

/// Appends that the left field is at most the right one, unless they are one.
fn push_if_other(candidates: &mut Vec<Candidate>, left: u32, right: u32) -> Result<(), AllocError>
    ensures { OnOk result (candidates.new.items ≡ candidates.old.items
        ++ (if not (right == left) then Below left right ∷ [] else [])) }
{
    if right == left {
        return Ok(());
    }
    candidates.push(Candidate::Below { left, right })?;
    Ok(())
}

/// Appends that the field is at most each other one.
fn push_below(candidates: &mut Vec<Candidate>, left: u32, fields: &[u32]) -> Result<(), AllocError>
    ensures { OnOk result (candidates.new.items ≡ candidates.old.items
        ++ map (Below left) (filter (λ right. not (right == left)) fields.now)) }
{
    for right in fields {
        push_if_other(candidates, left, *right)?;
    }
    Ok(())
}

/// Appends the candidates of pairs of fields.
fn push_pairs(candidates: &mut Vec<Candidate>, fields: &[u32]) -> Result<(), AllocError>
    ensures { OnOk result
        (candidates.new.items ≡ candidates.old.items ++ pair_candidates fields.now) }
{
    for left in fields {
        push_below(candidates, *left, fields)?;
    }
    Ok(())
}

/// The candidates of a monitor (`specs/Candidates` of `lang_monitor`): for each int field in order
/// that it is at most, and at least, each of its numbers, for each bool field that it is true, and
/// that it is false, and then for each ordered pair of int fields that the one is at most the
/// other. The numbers of a field are 0, the one at its start, or the bound of its limit where it is
/// chosen and none where it is copied, and those around each bound that a guard's row sets on the
/// field alone; the first 12 that differ are taken. It fails only for want
/// of memory.
pub fn candidates(alloc: Global, monitor: &Monitor) -> Result<Vec<Candidate>, AllocError>
    ensures { IfOk result (λ made. made.items ≡ candidates_of monitor.now) }
{
    let mut candidates = Vec::new(alloc);
    push_of_fields(alloc, &mut candidates, monitor.blocks(), monitor.fields())?;
    let fields = int_fields(alloc, monitor.fields())?;
    push_pairs(&mut candidates, &fields)?;
    Ok(candidates)
}
