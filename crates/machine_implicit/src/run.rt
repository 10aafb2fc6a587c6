//! What statements do to a state and locals.

ghost use Rattle.std.specs.Prelude.{◌≡◌, true, false, IsTrue, IfOk, OnOk, OnErr};
ghost use Rattle.lang_monitor.specs.MonitorParts.{fits_form, fits_put, fits_statement};
ghost use Rattle.lang_monitor.specs.Bodies.{assigning, effect_of, body_effect};
ghost use Rattle.machine_implicit.specs.inner.Held.{given, held, SameKinds};
ghost use Rattle.machine_implicit.specs.inner.Held.{held_places, form_worth};
ghost use Rattle.machine_implicit.specs.inner.Held.{is_short_worth, all_statements_fit, AreFew};
ghost use Rattle.machine_implicit.specs.inner.Held.{Leaves64, RunsWhole};

use super::evaluate::{form_number, formula_truth};
use super::locals::Locals;
use super::places::put_at;
use super::state::State;
use lang_base::Value;
use lang_monitor::Stmt;
use logic_linear::{Lin, Put};

/// A value left 64 bits.
#[derive(Clone, Copy)]
pub struct Overflow;

/// Makes an assignment. Where its value leaves 64 bits, the state and the locals stay.
fn assign(
    put: &Put,
    inputs: &[Value],
    state: &mut State,
    locals: &mut Locals,
) -> Result<(), Overflow>
    requires few { AreFew state.old (given inputs.now locals.old) }
    requires fits { IsTrue (fits_put
        (held_places state.old (given inputs.now locals.old)) put.now) }
    ensures ran { OnOk result
        (RunsWhole (assigning inputs.now put.now) (held state.old locals.old)
        (held state.new locals.new)) }
    ensures overflowed { OnErr result
        (Leaves64 (assigning inputs.now put.now) (held state.old locals.old)) }
    ensures stays { OnErr result (held state.new locals.new ≡ held state.old locals.old) }
    ensures kinds { SameKinds (held state.old locals.old) (held state.new locals.new) }
{
    match put {
        Put::Number { place, form } => {
            let number = form_value(form, state.values(), inputs, locals.values())?;
            put_at(state, locals, *place, Value::Int(number));
            Ok(())
        }
        Put::Truth { place, is } => {
            let truth = formula_truth(is, state.values(), inputs, locals.values());
            put_at(state, locals, *place, Value::Bool(truth));
            Ok(())
        }
    }
}

/// Runs a statement. Where a value that it assigns leaves 64 bits, the state and the locals are of
/// no further use.
#[cycle(run_statement)]
pub fn run_statement(
    statement: &Stmt,
    inputs: &[Value],
    state: &mut State,
    locals: &mut Locals,
) -> Result<(), Overflow>
    requires few { AreFew state.old (given inputs.now locals.old) }
    requires fits { IsTrue (fits_statement
        (held_places state.old (given inputs.now locals.old)) statement.now) }
    ensures ran { OnOk result
        (RunsWhole (effect_of inputs.now statement.now) (held state.old locals.old)
        (held state.new locals.new)) }
    ensures overflowed { OnErr result
        (Leaves64 (effect_of inputs.now statement.now) (held state.old locals.old)) }
    ensures kinds { SameKinds (held state.old locals.old) (held state.new locals.new) }
{
    match statement {
        Stmt::Put(put) => assign(put, inputs, state, locals),
        Stmt::If { when, then, other } => {
            if formula_truth(when, state.values(), inputs, locals.values()) {
                run_statements(then.items(), inputs, state, locals)
            } else {
                run_statements(other.items(), inputs, state, locals)
            }
        }
    }
}

/// Runs statements one after the other, as [`run_statement`] does each.
#[cycle(run_statement)]
pub fn run_statements(
    body: &[Stmt],
    inputs: &[Value],
    state: &mut State,
    locals: &mut Locals,
) -> Result<(), Overflow>
    requires few { AreFew state.old (given inputs.now locals.old) }
    requires fits { IsTrue (all_statements_fit
        (held_places state.old (given inputs.now locals.old)) body.now) }
    ensures ran { OnOk result
        (RunsWhole (body_effect inputs.now body.now) (held state.old locals.old)
        (held state.new locals.new)) }
    ensures overflowed { OnErr result
        (Leaves64 (body_effect inputs.now body.now) (held state.old locals.old)) }
    ensures kinds { SameKinds (held state.old locals.old) (held state.new locals.new) }
{
    for statement in body {
        run_statement(statement, inputs, state, locals)?;
    }
    Ok(())
}

/// Runs a statement. Where a value that it assigns leaves 64 bits, the state and the locals stay.
pub fn run_alone(
    statement: &Stmt,
    inputs: &[Value],
    state: &mut State,
    locals: &mut Locals,
) -> Result<(), Overflow>
    requires few { AreFew state.old (given inputs.now locals.old) }
    requires fits { IsTrue (fits_statement
        (held_places state.old (given inputs.now locals.old)) statement.now) }
    ensures ran { OnOk result
        (RunsWhole (effect_of inputs.now statement.now) (held state.old locals.old)
        (held state.new locals.new)) }
    ensures overflowed { OnErr result
        (Leaves64 (effect_of inputs.now statement.now) (held state.old locals.old)) }
    ensures stays { OnErr result (held state.new locals.new ≡ held state.old locals.old) }
    ensures kinds { SameKinds (held state.old locals.old) (held state.new locals.new) }
{
    match statement {
        Stmt::Put(put) => assign(put, inputs, state, locals),
        _ => run_over_copy(statement, inputs, state, locals),
    }
}

/// Runs a statement over a copy of what was before.
fn run_over_copy(
    statement: &Stmt,
    inputs: &[Value],
    state: &mut State,
    locals: &mut Locals,
) -> Result<(), Overflow>
    requires few { AreFew state.old (given inputs.now locals.old) }
    requires fits { IsTrue (fits_statement
        (held_places state.old (given inputs.now locals.old)) statement.now) }
    ensures ran { OnOk result
        (RunsWhole (effect_of inputs.now statement.now) (held state.old locals.old)
        (held state.new locals.new)) }
    ensures overflowed { OnErr result
        (Leaves64 (effect_of inputs.now statement.now) (held state.old locals.old)) }
    ensures stays { OnErr result (held state.new locals.new ≡ held state.old locals.old) }
    ensures kinds { SameKinds (held state.old locals.old) (held state.new locals.new) }
{
    let before = state.duplicate();
    let kept = locals.duplicate();
    match run_statement(statement, inputs, state, locals) {
        Ok(()) => Ok(()),
        Err(Overflow) => {
            *state = before;
            *locals = kept;
            Err(Overflow)
        }
    }
}

/// The value of a form, where it has 64 bits.
pub fn form_value(
    form: &Lin,
    state: &[Value],
    inputs: &[Value],
    locals: &[Value],
) -> Result<i64, Overflow>
    requires few { AreFew state.now (given inputs.now locals.now) }
    requires fits { IsTrue (fits_form
        (held_places state.now (given inputs.now locals.now)) form.now) }
    ensures value { IfOk result (λ number.
        number ≡ form_worth state.now (given inputs.now locals.now) form.now) }
    ensures fitted { OnOk result
        (is_short_worth state.now (given inputs.now locals.now) form.now ≡ true) }
    ensures overflowed { OnErr result
        (is_short_worth state.now (given inputs.now locals.now) form.now ≡ false) }
{
    match i64::try_from(form_number(form, state, inputs, locals)) {
        Ok(number) => Ok(number),
        Err(_) => Err(Overflow),
    }
}
