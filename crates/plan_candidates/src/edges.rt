//! Starts at which candidates are false.

ghost use Rattle.std.specs.Prelude.{◌≡◌, ◌<◌, ◌≤◌, ℕ, true, IfOk, length};
ghost use Rattle.lang_base.specs.Limits.{FIELDS};
ghost use Rattle.lang_monitor.specs.Starts.{fits_64};
ghost use Rattle.plan_candidates.specs.FalseStarts.{IsFalseStart};
ghost use Rattle.plan_candidates.specs.inner.Edges.{chosen, edge, picked, picked_at, top_of};

use super::ranges::{least_in, most_in, root_at};
use super::starts::{read_starts, starts_true};
use base_list::Seq;
use lang_base::Value;
use lang_monitor::{Candidate, Field, Limit, Monitor, Origin};
use std::alloc::{AllocError, Global};

fn chosen(limit: Limit, is_top: bool) -> i128
    ensures { result ≡ chosen is_top limit }
{
    if is_top {
        most_in(limit)
    } else {
        least_in(limit)
    }
}

/// The greatest number of a parameter, or its least; a field that is no parameter has its own.
fn picked(own: Value, origin: Origin, is_top: bool) -> Value
    requires { fits_64 (picked is_top own origin) ≡ true }
    ensures { result ≡ picked is_top own origin }
{
    match origin {
        Origin::Own => own,
        Origin::Chosen(limit) => Value::Int(chosen(limit, is_top) as i64),
        Origin::Copied(_) => own,
    }
}

/// The value of a field, where the parameter at the top has its greatest number, and each other one
/// its least.
fn picked_at(fields: &[Field], top: usize, place: u32) -> Value
    requires { fits_64 (picked_at fields.now top place) ≡ true }
    ensures { result ≡ picked_at fields.now top place }
{
    let root = root_at(fields, place);
    match fields.get(root as usize) {
        None => Value::Int(0),
        Some(field) => picked(field.start, field.origin, root as usize == top),
    }
}

/// The value of each field.
fn edge(alloc: Global, fields: &[Field], top: usize) -> Result<Vec<Value>, AllocError>
    requires few { length fields.now ≤ FIELDS }
    requires fit { (place : ℕ) → place < length fields.now
        → fits_64 (picked_at fields.now top place) ≡ true }
    ensures { IfOk result (λ start. start.items ≡ edge fields.now top) }
{
    let mut start = Vec::new(alloc);
    for place in 0..fields.len() {
        start.push(picked_at(fields, top, place as u32))?;
    }
    Ok(start)
}

/// The parameter that is to have its greatest number, so that the candidate is false if it may be.
fn top_of(fields: &[Field], candidate: Candidate) -> usize
    ensures { result ≡ top_of fields.now candidate }
{
    match candidate {
        Candidate::AtMost { field, .. } => root_at(fields, field) as usize,
        Candidate::AtLeast { field, .. } => root_at(fields, field) as usize + 1,
        Candidate::Flag { .. } => 0,
        Candidate::Below { left, .. } => root_at(fields, left) as usize,
    }
}

/// Values that the monitor may be opened with at which the candidate is false, where there are such
/// (`specs/FalseStarts`). It fails only for want of memory.
pub fn false_start(
    alloc: Global,
    monitor: &Monitor,
    candidate: Candidate,
) -> Result<Option<Seq<Value>>, AllocError>
    ensures { IfOk result (IsFalseStart monitor.now candidate) }
{
    let fields = monitor.fields();
    if starts_true(fields, candidate) {
        return Ok(None);
    }
    read_starts(fields);
    let start = edge(alloc, fields, top_of(fields, candidate))?;
    Ok(Some(Seq::of(start)))
}
