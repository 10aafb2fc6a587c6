//! Bounds of 64 bits of the fields, arguments and locals of a block.

ghost use Rattle.std.specs.Prelude.{◌≡◌, ◌≤◌, ◌++◌, IfOk, OnOk, length, map};
ghost use Rattle.lang_base.specs.Limits.{FIELDS, FIRST_LOCAL, INPUTS, LOCALS};
ghost use Rattle.lang_monitor.specs.MonitorParts.{kind_of, kinds_of};
ghost use Rattle.plan_fits.specs.Outside.{bounds_at, bounds_from, bounds_of};
ghost use Rattle.plan_fits.specs.inner.Hypotheses.{places_in};

use super::outside::BEYOND;
use lang_base::limits::{FIRST_INPUT, FIRST_LOCAL};
use lang_base::{Kind, Value};
use lang_monitor::{Candidate, Field, Method};
use std::alloc::{AllocError, Global};

/// Appends that a number at the place is within 64 bits.
fn push_bound(bounds: &mut Vec<Candidate>, place: u32, kind: Kind) -> Result<(), AllocError>
    ensures { OnOk result (bounds.new.items ≡ bounds.old.items ++ bounds_at place kind) }
{
    match kind {
        Kind::Bool => Ok(()),
        Kind::Int => {
            bounds.push(Candidate::AtMost {
                field: place,
                bound: BEYOND - 1,
            })?;
            bounds.push(Candidate::AtLeast {
                field: place,
                bound: -BEYOND,
            })?;
            Ok(())
        }
    }
}

/// Appends that of values of these kinds, the first at this place.
fn push_from(bounds: &mut Vec<Candidate>, first: u32, kinds: &[Kind]) -> Result<(), AllocError>
    requires first { first ≤ FIRST_LOCAL }
    requires few { length kinds.now ≤ FIELDS }
    ensures { OnOk result (bounds.new.items ≡ bounds.old.items ++ bounds_from first kinds.now) }
{
    for (number, kind) in kinds.iter().enumerate() {
        push_bound(bounds, first + number as u32, *kind)?;
    }
    Ok(())
}

fn field_kinds(alloc: Global, fields: &[Field]) -> Result<Vec<Kind>, AllocError>
    ensures { IfOk result (λ made. made.items ≡ kinds_of fields.now) }
{
    let mut made = Vec::new(alloc);
    for field in fields {
        made.push(field.kind)?;
    }
    Ok(made)
}

fn kind_of(value: &Value) -> Kind
    ensures { result ≡ kind_of value.now }
{
    match value {
        Value::Int(_) => Kind::Int,
        Value::Bool(_) => Kind::Bool,
    }
}

fn local_kinds(alloc: Global, locals: &[Value]) -> Result<Vec<Kind>, AllocError>
    ensures { IfOk result (λ made. made.items ≡ map kind_of locals.now) }
{
    let mut made = Vec::new(alloc);
    for local in locals {
        made.push(kind_of(local))?;
    }
    Ok(made)
}

/// Appends that each field, argument and local is within 64 bits.
pub(crate) fn push_bounds(
    alloc: Global,
    bounds: &mut Vec<Candidate>,
    fields: &[Field],
    method: &Method,
) -> Result<(), AllocError>
    requires fields { length fields.now ≤ FIELDS }
    requires inputs { length method.now.inputs ≤ INPUTS }
    requires locals { length method.now.locals ≤ LOCALS }
    ensures { OnOk result (bounds.new.items
        ≡ bounds.old.items ++ bounds_of (places_in fields.now method.now)) }
{
    let own = field_kinds(alloc, fields)?;
    let locals = local_kinds(alloc, method.locals.items())?;
    push_from(bounds, 0, &own)?;
    push_from(bounds, FIRST_INPUT, method.inputs.items())?;
    push_from(bounds, FIRST_LOCAL, &locals)?;
    Ok(())
}
