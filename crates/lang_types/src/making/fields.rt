//! The fields of a monitor, and the values of locals at the start.

ghost use Rattle.std.specs.Prelude.{◌≡◌, ◌++◌, ◌≤◌, [], ◌∷◌, All, IfOk, length, map, pos};
ghost use Rattle.lang_base.specs.Limits.{FILE_BYTES, GREATEST_NUMBER};
ghost use Rattle.lang_rules.specs.Rules.{literal_faults};
ghost use Rattle.lang_monitor.specs.declared.start.Origin.TheVariants.{Own};
ghost use Rattle.lang_types.specs.Typed.{copied_from, copy_of, field_of, fields_of, int_field};
ghost use Rattle.lang_types.specs.Typed.{limit_of, starts_of};

use lang_base::{Kind, Name, Value};
use lang_forms::{number_of, places_of};
use lang_monitor::{Field, Limit, Origin};
use lang_rules::is_source;
use lang_tree::{Decl, LimitSign, LimitTree};
use std::alloc::{AllocError, Global};

/// The fields of these declarations.
pub(crate) fn fields_of(alloc: Global, decls: &[Decl]) -> Result<Vec<Field>, AllocError>
    requires few { length decls.now ≤ FILE_BYTES }
    requires small { All (λ decl. literal_faults decl ≡ []) decls.now }
    ensures { IfOk result (λ fields. fields.items ≡ fields_of decls.now) }
{
    let mut fields = Vec::new(alloc);
    for decl in decls {
        push_field(&mut fields, decls, decl)?;
    }
    Ok(fields)
}

/// Adds the field of a declaration. A constant is no field.
fn push_field(fields: &mut Vec<Field>, known: &[Decl], decl: &Decl) -> Result<(), AllocError>
    requires few { length known.now ≤ FILE_BYTES }
    requires known { All (λ other. literal_faults other ≡ []) known.now }
    requires small { literal_faults decl.now ≡ [] }
    ensures { IfOk result (λ _.
        fields.new.items ≡ fields.old.items ++ field_of known.now decl.now) }
{
    match decl {
        Decl::Const { .. } => Ok(()),
        Decl::Param {
            name,
            value,
            limit,
            ..
        } => {
            let origin = Origin::Chosen(limit_of(limit));
            push_int(fields, name, number_of(value), origin)
        }
        Decl::Int { name, value, .. } => push_int(fields, name, number_of(value), Origin::Own),
        Decl::Copied { name, source, .. } => {
            let start = copy_of(known, &source.name);
            push_int(fields, name, start.number, start.origin)
        }
        Decl::Flag { name, value, .. } => {
            fields.push(Field {
                name: name.clone()?,
                kind: Kind::Bool,
                start: Value::Bool(*value),
                origin: Origin::Own,
            })?;
            Ok(())
        }
    }
}

/// Adds an int with this start.
fn push_int(
    fields: &mut Vec<Field>,
    name: &Name,
    number: i64,
    origin: Origin,
) -> Result<(), AllocError>
    ensures { IfOk result (λ _.
        fields.new.items ≡ fields.old.items ++ int_field name.now number origin ∷ []) }
{
    fields.push(Field {
        name: name.clone()?,
        kind: Kind::Int,
        start: Value::Int(number),
        origin,
    })?;
    Ok(())
}

/// The numbers that meet a condition.
fn limit_of(limit: &LimitTree) -> Limit
    requires { limit.now.bound.digits ≤ GREATEST_NUMBER }
    ensures { result ≡ limit_of limit.now }
{
    let bound = i128::from(number_of(&limit.bound));
    match limit.sign {
        LimitSign::Equal => Limit::Exactly { number: bound },
        LimitSign::Less => Limit::AtMost { bound: bound - 1 },
        LimitSign::AtMost => Limit::AtMost { bound },
        LimitSign::More => Limit::AtLeast { bound: bound + 1 },
        LimitSign::AtLeast => Limit::AtLeast { bound },
    }
}

/// With which number an int starts, and whence it has that.
#[derive(Clone, Copy)]
struct IntStart {
    number: i64,
    origin: Origin,
}

/// The start that copies the constant or the parameter of this name.
fn copy_of(known: &[Decl], wanted: &Name) -> IntStart
    requires few { length known.now ≤ FILE_BYTES }
    requires small { All (λ decl. literal_faults decl ≡ []) known.now }
    ensures number { result.number ≡ (copy_of wanted.now 0 known.now).number }
    ensures origin { result.origin ≡ (copy_of wanted.now 0 known.now).origin }
{
    let mut place = 0;
    for decl in known {
        if is_source(wanted, decl) {
            return copied_from(place, decl);
        }
        place += places_of(decl);
    }
    nothing_copied()
}

/// The start where nothing is copied.
fn nothing_copied() -> IntStart
    ensures number { result.number ≡ pos 0 }
    ensures origin { result.origin ≡ Own }
{
    IntStart {
        number: 0,
        origin: Origin::Own,
    }
}

/// The number of a constant, or that of the parameter with this place among the fields.
fn copied_from(place: u32, decl: &Decl) -> IntStart
    requires { literal_faults decl.now ≡ [] }
    ensures number { result.number ≡ (copied_from place decl.now).number }
    ensures origin { result.origin ≡ (copied_from place decl.now).origin }
{
    match decl {
        Decl::Const { value, .. } => IntStart {
            number: number_of(value),
            origin: Origin::Own,
        },
        Decl::Param { value, .. } => IntStart {
            number: number_of(value),
            origin: Origin::Copied(place),
        },
        Decl::Int { .. } => nothing_copied(),
        Decl::Copied { .. } => nothing_copied(),
        Decl::Flag { .. } => nothing_copied(),
    }
}

/// The values of these locals at the start.
pub(crate) fn starts_of(alloc: Global, decls: &[Decl]) -> Result<Vec<Value>, AllocError>
    requires { All (λ decl. literal_faults decl ≡ []) decls.now }
    ensures { IfOk result (λ starts. starts.items ≡ starts_of decls.now) }
{
    let mut starts = Vec::new(alloc);
    for decl in decls {
        push_start(&mut starts, decl)?;
    }
    Ok(starts)
}

/// Adds the value of a local at the start. A constant has none, and none is copied.
fn push_start(starts: &mut Vec<Value>, decl: &Decl) -> Result<(), AllocError>
    requires { literal_faults decl.now ≡ [] }
    ensures { IfOk result (λ _. starts.new.items
        ≡ starts.old.items ++ map (λ field. field.start) (field_of [] decl.now)) }
{
    match decl {
        Decl::Const { .. } => Ok(()),
        Decl::Param { value, .. } => {
            starts.push(Value::Int(number_of(value)))?;
            Ok(())
        }
        Decl::Int { value, .. } => {
            starts.push(Value::Int(number_of(value)))?;
            Ok(())
        }
        Decl::Copied { .. } => {
            starts.push(Value::Int(0))?;
            Ok(())
        }
        Decl::Flag { value, .. } => {
            starts.push(Value::Bool(*value))?;
            Ok(())
        }
    }
}
