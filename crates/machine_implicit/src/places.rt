//! What stands at a place, and putting a value there.

ghost use Rattle.std.specs.Prelude.{◌≡◌, pos, slice_get, unwrap_or};
ghost use Rattle.lang_base.specs.declared.value.Value.TheVariants.{Int};
ghost use Rattle.lang_monitor.specs.Bodies.{value_at, with_value};
ghost use Rattle.machine_implicit.specs.inner.Held.{given, held, HasTarget};

use super::locals::Locals;
use super::state::State;
use lang_base::Value;
use lang_base::limits::{FIRST_INPUT, FIRST_LOCAL};

/// The value at a place: field `k` has place `k`, input `k` place `FIRST_INPUT + k`, local `k`
/// place `FIRST_LOCAL + k`.
pub fn value_at(state: &[Value], inputs: &[Value], locals: &[Value], place: u32) -> Value
    ensures { result ≡ value_at state.now (given inputs.now locals.now) place }
{
    if place < FIRST_INPUT {
        value_in(state, place as usize)
    } else if place < FIRST_LOCAL {
        value_in(inputs, (place - FIRST_INPUT) as usize)
    } else {
        value_in(locals, (place - FIRST_LOCAL) as usize)
    }
}

/// The value at an index, or 0 where there is none.
fn value_in(values: &[Value], index: usize) -> Value
    ensures { result ≡ unwrap_or (slice_get values.now index) (Int (pos 0)) }
{
    match values.get(index) {
        Some(value) => *value,
        None => Value::Int(0),
    }
}

/// Puts a value at the place of a field or a local.
pub fn put_at(state: &mut State, locals: &mut Locals, place: u32, value: Value)
    requires { HasTarget (held state.old locals.old) place }
    ensures { held state.new locals.new ≡ with_value (held state.old locals.old) place value }
{
    let _fields = state.values();
    let _locals = locals.values();
    if place < FIRST_INPUT {
        state.set(place as usize, value);
    } else {
        locals.set((place - FIRST_LOCAL) as usize, value);
    }
}
