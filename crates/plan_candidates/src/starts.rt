//! What is true at the start.

ghost use Rattle.std.specs.Prelude.{◌≡◌, ◌≤◌, ◌∷◌, ◌++◌, ◌↔◌, true, false, [], All, IfOk, IsTrue};
ghost use Rattle.std.specs.Prelude.{OnOk, length};
ghost use Rattle.std.specs.Prelude.{if◌then◌else◌};
ghost use Rattle.std.specs.List.{filter, list_all};
ghost use Rattle.lang_base.specs.Limits.{FIELDS};
ghost use Rattle.lang_monitor.specs.Bodies.{fits_64, no_inputs, truth_of_value, value_at};
ghost use Rattle.lang_monitor.specs.Candidates.{candidates_of};
ghost use Rattle.lang_monitor.specs.Triples.{HoldAtStart, IsFalseAtStart, IsTrueAtStart};
ghost use Rattle.logic_wp.specs.Expressible.{is_expressible};
ghost use Rattle.plan_candidates.specs.TrueAtStart.{AreTrueAtStart};
ghost use Rattle.plan_candidates.specs.inner.Starts.{starts, starts_below, starts_true};

use super::listing::candidates;
use super::ranges::{least_at, most_at, root_at};
use lang_base::Value;
use lang_monitor::{Candidate, Field, Monitor};
use logic_wp::candidates_are_expressible;
use std::alloc::{AllocError, Global};

/// A number fits 64 bits by its type, which a read of it tells.
fn read_value(value: &Value)
    ensures { fits_64 value.now ≡ true }
{
    match value {
        Value::Int(number) => {
            let _number = *number;
        }
        Value::Bool(_) => {}
    }
}

/// The numbers of fields fit 64 bits at the start.
pub fn read_starts(fields: &[Field])
    ensures { All (λ field. fits_64 field.start ≡ true) fields.now }
{
    for field in fields {
        read_value(&field.start);
    }
}

/// The value of a field where nothing is chosen. A field that is not there has 0.
fn start_at(fields: &[Field], field: u32) -> Value
    requires { length fields.now ≤ FIELDS }
    ensures { result ≡ value_at (starts fields.now) no_inputs field }
{
    match fields.get(field as usize) {
        None => Value::Int(0),
        Some(found) => found.start,
    }
}

fn start_truth(fields: &[Field], field: u32) -> bool
    requires { length fields.now ≤ FIELDS }
    ensures { result ≡ truth_of_value (value_at (starts fields.now) no_inputs field) }
{
    match start_at(fields, field) {
        Value::Int(_) => false,
        Value::Bool(truth) => truth,
    }
}

/// Whether the left field starts with no more than the right one.
fn starts_below(fields: &[Field], left: u32, right: u32) -> bool
    ensures { result ≡ starts_below fields.now left right }
{
    if root_at(fields, left) == root_at(fields, right) {
        return true;
    }
    most_at(fields, left) <= least_at(fields, right)
}

/// Whether the candidate is true with all values with which the fields may start.
pub(crate) fn starts_true(fields: &[Field], candidate: Candidate) -> bool
    requires { length fields.now ≤ FIELDS }
    ensures { result ≡ starts_true fields.now candidate }
{
    match candidate {
        Candidate::AtMost { field, bound } => most_at(fields, field) <= bound,
        Candidate::AtLeast { field, bound } => least_at(fields, field) >= bound,
        Candidate::Flag { field, is } => start_truth(fields, field) == is,
        Candidate::Below { left, right } => starts_below(fields, left, right),
    }
}

/// Whether the candidate is true at the start, whatever the monitor is opened with. It takes no
/// memory.
pub fn is_true_at_start(monitor: &Monitor, candidate: Candidate) -> bool
    ensures always { IsTrue result ↔ IsTrueAtStart monitor.now candidate }
    ensures fails { result ≡ false → IsFalseAtStart monitor.now candidate }
{
    starts_true(monitor.fields(), candidate)
}

/// Whether each of the candidates passes the test.
fn all_start_true(fields: &[Field], candidates: &[Candidate]) -> bool
    requires { length fields.now ≤ FIELDS }
    ensures { IsTrue result ↔ All (λ candidate. starts_true fields.now candidate ≡ true)
        candidates.now }
{
    candidates
        .iter()
        .all(|candidate| starts_true(fields, *candidate))
}

/// Whether each of the candidates is true at the start, whatever the monitor is opened with. It
/// takes no memory.
pub fn are_true_at_start(monitor: &Monitor, candidates: &[Candidate]) -> bool
    ensures { IsTrue result ↔ HoldAtStart monitor.now candidates.now }
{
    all_start_true(monitor.fields(), candidates)
}

/// Each candidate of a monitor has a formula: the numbers of its fields at the start fit 64 bits,
/// as this call reads.
pub fn candidates_have_formulas(monitor: &Monitor)
    ensures { list_all is_expressible (candidates_of monitor.now) ≡ true }
{
    candidates_are_expressible(); // of fields whose starts fit 64 bits, as is read next
    read_starts(monitor.fields());
}

/// Appends the candidate, where it is true.
fn push_if(kept: &mut Vec<Candidate>, candidate: Candidate, is_true: bool) -> Result<(), AllocError>
    ensures { OnOk result
        (kept.new.items ≡ kept.old.items ++ (if is_true then candidate ∷ [] else [])) }
{
    if is_true {
        kept.push(candidate)?;
    }
    Ok(())
}

/// Those of the candidates that pass the test.
fn passing(alloc: Global, fields: &[Field], all: &[Candidate]) -> Result<Vec<Candidate>, AllocError>
    requires { length fields.now ≤ FIELDS }
    ensures { IfOk result (λ kept. kept.items ≡ filter (starts_true fields.now) all.now) }
{
    let mut kept = Vec::new(alloc);
    for candidate in all {
        let is_true = starts_true(fields, *candidate);
        push_if(&mut kept, *candidate, is_true)?;
    }
    Ok(kept)
}

/// The candidates that are true at the start, whatever the monitor is opened with.
pub fn true_at_start(alloc: Global, monitor: &Monitor) -> Result<Vec<Candidate>, AllocError>
    ensures { IfOk result
        (λ kept. AreTrueAtStart monitor.now (candidates_of monitor.now) kept.items) }
{
    let all = candidates(alloc, monitor)?;
    let kept = passing(alloc, monitor.fields(), &all)?;
    Ok(kept)
}
