//! What forms and formulas are worth in a state, at inputs.
//!
//! A form of a monitor has at most 26 terms, one for each field, input and local. Each counts at
//! most `2^31` times a value of 64 bits, so sums stay far below `2^127`.

ghost use Rattle.std.specs.Prelude.{◌≡◌, ◌≤◌, ◌+◌, ◌*◌, ◌^◌, IsTrue, All, length};
ghost use Rattle.logic_linear.specs.Truth.{sum_of, value_of, truth_of};
ghost use Rattle.lang_base.specs.Limits.{FIELDS, INPUTS, LOCALS, MOST_TIMES};
ghost use Rattle.lang_base.specs.Numbers.{is_within};
ghost use Rattle.lang_monitor.specs.MonitorParts.{fits_form, fits_formula};
ghost use Rattle.lang_monitor.specs.Bodies.{value_at, number_of_value, truth_of_value, valuation};
ghost use Rattle.machine_implicit.specs.inner.Held.{given, held_places, term_value};
ghost use Rattle.machine_implicit.specs.inner.Held.{all_fit, all_true};
ghost use Rattle.machine_implicit.specs.inner.Held.{any_true, AreFew};

use super::places::value_at;
use lang_base::Value;
use logic_linear::{Formula, Lin, Term};

/// The number at a place, or 0 where it holds a truth value.
fn number_at(state: &[Value], inputs: &[Value], locals: &[Value], place: u32) -> i64
    ensures { result ≡ number_of_value (value_at state.now (given inputs.now locals.now) place) }
{
    match value_at(state, inputs, locals, place) {
        Value::Int(number) => number,
        Value::Bool(_) => 0,
    }
}

/// The truth value at a place, or false where it holds a number.
fn truth_at(state: &[Value], inputs: &[Value], locals: &[Value], place: u32) -> bool
    ensures { result ≡ truth_of_value (value_at state.now (given inputs.now locals.now) place) }
{
    match value_at(state, inputs, locals, place) {
        Value::Int(_) => false,
        Value::Bool(truth) => truth,
    }
}

/// The value of a term.
fn term_number(term: &Term, state: &[Value], inputs: &[Value], locals: &[Value]) -> i128
    requires { IsTrue (is_within MOST_TIMES term.now.times) }
    ensures value { result ≡ term_value state.now (given inputs.now locals.now) term.now }
    ensures small { IsTrue (is_within (2 ^ 94) result) }
{
    term.times * i128::from(number_at(state, inputs, locals, term.place))
}

/// The sum of the values of terms.
fn terms_number(terms: &[Term], state: &[Value], inputs: &[Value], locals: &[Value]) -> i128
    requires few { length terms.now ≤ FIELDS + INPUTS + LOCALS }
    requires small { All (λ term. IsTrue (is_within MOST_TIMES term.times)) terms.now }
    ensures sum { result ≡ sum_of (valuation state.now (given inputs.now locals.now)) terms.now }
    ensures small { IsTrue (is_within ((FIELDS + INPUTS + LOCALS) * 2 ^ 94) result) }
{
    let mut sum = 0;
    for term in terms {
        sum += term_number(term, state, inputs, locals);
    }
    sum
}

/// The value of a form.
pub fn form_number(form: &Lin, state: &[Value], inputs: &[Value], locals: &[Value]) -> i128
    requires few { AreFew state.now (given inputs.now locals.now) }
    requires fits { IsTrue (fits_form
        (held_places state.now (given inputs.now locals.now)) form.now) }
    ensures { result ≡ value_of (valuation state.now (given inputs.now locals.now)) form.now }
{
    terms_number(form.terms(), state, inputs, locals) + form.constant()
}

/// Whether a formula is true.
#[cycle(formula_truth)]
pub fn formula_truth(formula: &Formula, state: &[Value], inputs: &[Value], locals: &[Value]) -> bool
    requires few { AreFew state.now (given inputs.now locals.now) }
    requires fits { IsTrue (fits_formula
        (held_places state.now (given inputs.now locals.now)) formula.now) }
    ensures { result ≡ truth_of (valuation state.now (given inputs.now locals.now)) formula.now }
{
    match formula {
        Formula::Row(form) => form_number(form, state, inputs, locals) <= 0,
        Formula::Flag { place, is } => truth_at(state, inputs, locals, *place) == *is,
        Formula::All(parts) => all_hold(parts.items(), state, inputs, locals),
        Formula::Any(parts) => any_holds(parts.items(), state, inputs, locals),
    }
}

/// Whether a formula is true. One that is a row, as most guards are, is not walked.
pub fn is_true(formula: &Formula, state: &[Value], inputs: &[Value], locals: &[Value]) -> bool
    requires few { AreFew state.now (given inputs.now locals.now) }
    requires fits { IsTrue (fits_formula
        (held_places state.now (given inputs.now locals.now)) formula.now) }
    ensures { result ≡ truth_of (valuation state.now (given inputs.now locals.now)) formula.now }
{
    match formula {
        Formula::Row(form) => form_number(form, state, inputs, locals) <= 0,
        _ => formula_truth(formula, state, inputs, locals),
    }
}

/// Whether each part is true.
#[cycle(formula_truth)]
fn all_hold(parts: &[Formula], state: &[Value], inputs: &[Value], locals: &[Value]) -> bool
    requires few { AreFew state.now (given inputs.now locals.now) }
    requires fits { IsTrue (all_fit
        (held_places state.now (given inputs.now locals.now)) parts.now) }
    ensures { result ≡ all_true (valuation state.now (given inputs.now locals.now)) parts.now }
{
    for part in parts {
        if !formula_truth(part, state, inputs, locals) {
            return false;
        }
    }
    true
}

/// Whether some part is true.
#[cycle(formula_truth)]
fn any_holds(parts: &[Formula], state: &[Value], inputs: &[Value], locals: &[Value]) -> bool
    requires few { AreFew state.now (given inputs.now locals.now) }
    requires fits { IsTrue (all_fit
        (held_places state.now (given inputs.now locals.now)) parts.now) }
    ensures { result ≡ any_true (valuation state.now (given inputs.now locals.now)) parts.now }
{
    for part in parts {
        if formula_truth(part, state, inputs, locals) {
            return true;
        }
    }
    false
}
