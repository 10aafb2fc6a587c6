//! Values that are stored or answered, written to a sink.

ghost use Rattle.std.specs.Prelude.{◌≡◌, ◌++◌, ◌&&◌, ◌||◌, [], codes, not};
ghost use Rattle.std.specs.List.{flat_map};
ghost use Rattle.emit_expressions.specs.Scopes.{seen};
ghost use Rattle.emit_expressions.specs.Expressions.{plain_text, written};
ghost use Rattle.emit_expressions.specs.Values.{are_atoms, is_atom, is_shortened, is_single};
ghost use Rattle.emit_expressions.specs.Values.{is_tested, long_text, narrowed, plain_addend};
ghost use Rattle.emit_expressions.specs.Values.{plain_factor, shortened, is_variable};
ghost use Rattle.emit_expressions.specs.Values.{single_addend, single_factor, single_text};
ghost use Rattle.emit_expressions.specs.Values.{value_text, whole_text};
ghost use Rattle.base_io.specs.Writing.{Wrote};

use crate::expressions::{is_number, narrows, sign_bytes, write_plain, write_wide};
use crate::scope::{Scope, is_variable_name};
use base_io::{Sink, SinkFailed, write_piece, write_pieces};
use lang_tree::{Addend, Expr, Factor};

/// Writes a value that is stored or answered. One that may need more than 64 bits is tested, and
/// `ending` comes after the test, but where it is known that it does not. It takes no memory.
///
/// After `SinkFailed` the first bytes were taken, fewer than all and maybe none.
pub fn write_value<S: Sink>(
    scope: &Scope,
    expression: &Expr,
    ending: &[u8],
    out: &mut S,
) -> Result<(), SinkFailed>
    ensures { Wrote (S.seen out.old) (S.seen out.new) result
        (value_text (seen scope.now) expression.now ending.now) }
{
    if !narrows(expression) {
        return write_plain(scope, expression, out);
    }
    write_long(scope, expression, ending, out)
}

fn write_long<S: Sink>(
    scope: &Scope,
    expression: &Expr,
    ending: &[u8],
    out: &mut S,
) -> Result<(), SinkFailed>
    ensures { Wrote (S.seen out.old) (S.seen out.new) result
        (long_text (seen scope.now) expression.now ending.now) }
{
    if scope.whole {
        return write_whole(scope, expression, out);
    }
    write_narrowed(scope, expression, ending, out)
}

fn write_narrowed<S: Sink>(
    scope: &Scope,
    expression: &Expr,
    ending: &[u8],
    out: &mut S,
) -> Result<(), SinkFailed>
    ensures { Wrote (S.seen out.old) (S.seen out.new) result
        (narrowed ((written (seen scope.now) expression.now).wide []) ending.now) }
{
    write_piece(b"narrow(", out)?;
    write_wide(scope, b"", expression, out)?;
    write_pieces(&[b")", ending], out)
}

// ---- values of which it is known that they have 64 bits

fn write_whole<S: Sink>(scope: &Scope, expression: &Expr, out: &mut S) -> Result<(), SinkFailed>
    ensures { Wrote (S.seen out.old) (S.seen out.new) result
        (whole_text (seen scope.now) expression.now) }
{
    if is_single(scope, expression) {
        return write_single(scope, expression, out);
    }
    write_shortened(scope, expression, out)
}

fn write_shortened<S: Sink>(scope: &Scope, expression: &Expr, out: &mut S) -> Result<(), SinkFailed>
    ensures { Wrote (S.seen out.old) (S.seen out.new) result
        (shortened ((written (seen scope.now) expression.now).wide [])) }
{
    write_piece(b"whole(", out)?;
    write_wide(scope, b"", expression, out)?;
    write_piece(b")", out)
}

// One operation of atoms.
fn write_single<S: Sink>(scope: &Scope, expression: &Expr, out: &mut S) -> Result<(), SinkFailed>
    ensures { Wrote (S.seen out.old) (S.seen out.new) result
        (single_text (seen scope.now) expression.now) }
{
    match expression {
        Expr::Minus { of, .. } => {
            write_piece(b"-", out)?;
            write_plain(scope, of.get(), out)
        }
        Expr::Product { first, rest } => {
            write_plain(scope, first.get(), out)?;
            write_plain_factors(scope, rest.items(), out)
        }
        Expr::Sum { first, rest } => {
            write_plain(scope, first.get(), out)?;
            write_plain_addends(scope, rest.items(), out)
        }
        Expr::Number { .. } | Expr::Truth { .. } | Expr::Named { .. } | Expr::Not { .. } => Ok(()),
        Expr::Compare { .. } | Expr::Both { .. } | Expr::Either { .. } => Ok(()),
    }
}

fn write_plain_factors<S: Sink>(
    scope: &Scope,
    factors: &[Factor],
    out: &mut S,
) -> Result<(), SinkFailed>
    ensures { Wrote (S.seen out.old) (S.seen out.new) result
        (flat_map (plain_factor (seen scope.now)) factors.now) }
{
    for factor in factors {
        write_plain_factor(scope, factor, out)?;
    }
    Ok(())
}

fn write_plain_factor<S: Sink>(
    scope: &Scope,
    factor: &Factor,
    out: &mut S,
) -> Result<(), SinkFailed>
    ensures { Wrote (S.seen out.old) (S.seen out.new) result
        (plain_factor (seen scope.now) factor.now) }
{
    write_piece(b" * ", out)?;
    write_plain(scope, &factor.of, out)
}

fn write_plain_addends<S: Sink>(
    scope: &Scope,
    addends: &[Addend],
    out: &mut S,
) -> Result<(), SinkFailed>
    ensures { Wrote (S.seen out.old) (S.seen out.new) result
        (flat_map (plain_addend (seen scope.now)) addends.now) }
{
    for addend in addends {
        write_plain_addend(scope, addend, out)?;
    }
    Ok(())
}

fn write_plain_addend<S: Sink>(
    scope: &Scope,
    addend: &Addend,
    out: &mut S,
) -> Result<(), SinkFailed>
    ensures { Wrote (S.seen out.old) (S.seen out.new) result
        (plain_addend (seen scope.now) addend.now) }
{
    write_piece(sign_bytes(addend.minus), out)?;
    write_plain(scope, &addend.of, out)
}

// ---- what is known of a value before it is written

/// Whether a value is tested where it stands.
pub fn is_tested(scope: &Scope, expression: &Expr) -> bool
    ensures { result ≡ is_tested (seen scope.now) expression.now }
{
    let long = narrows(expression);
    tested_by(long, scope.whole)
}

fn tested_by(long: bool, whole: bool) -> bool
    ensures { result ≡ (long && not whole) }
{
    long && !whole
}

/// Whether a value is worked out in 128 bits, and known to have 64.
pub fn is_shortened(scope: &Scope, expression: &Expr) -> bool
    ensures { result ≡ is_shortened (seen scope.now) expression.now }
{
    let long = narrows(expression);
    let single = is_single(scope, expression);
    shortened_by(long, scope.whole, single)
}

fn shortened_by(long: bool, whole: bool, single: bool) -> bool
    ensures { result ≡ ((long && whole) && not single) }
{
    (long && whole) && !single
}

// Whether a value is one operation of atoms.
fn is_single(scope: &Scope, expression: &Expr) -> bool
    ensures { result ≡ is_single (seen scope.now) expression.now }
{
    match expression {
        Expr::Minus { of, .. } => is_variable(scope, of.get()),
        Expr::Product { first, rest } => single_factor(scope, first.get(), rest.items()),
        Expr::Sum { first, rest } => single_addend(scope, first.get(), rest.items()),
        Expr::Number { .. } | Expr::Truth { .. } | Expr::Named { .. } | Expr::Not { .. } => false,
        Expr::Compare { .. } | Expr::Both { .. } | Expr::Either { .. } => false,
    }
}

fn single_factor(scope: &Scope, first: &Expr, rest: &[Factor]) -> bool
    ensures { result ≡ single_factor (seen scope.now) first.now rest.now }
{
    let [one] = rest else {
        return false;
    };
    are_atoms(scope, first, &one.of)
}

fn single_addend(scope: &Scope, first: &Expr, rest: &[Addend]) -> bool
    ensures { result ≡ single_addend (seen scope.now) first.now rest.now }
{
    let [one] = rest else {
        return false;
    };
    are_atoms(scope, first, &one.of)
}

// Both are atoms, and some one is a variable.
fn are_atoms(scope: &Scope, one: &Expr, other: &Expr) -> bool
    ensures { result ≡ are_atoms (seen scope.now) one.now other.now }
{
    let this = is_atom(scope, one);
    let that = is_atom(scope, other);
    let first = is_variable(scope, one);
    let second = is_variable(scope, other);
    atoms_by(this, that, first, second)
}

fn atoms_by(this: bool, that: bool, first: bool, second: bool) -> bool
    ensures { result ≡ ((this && that) && (first || second)) }
{
    (this && that) && (first || second)
}

// A name, a number or the negative of a number.
fn is_atom(scope: &Scope, expression: &Expr) -> bool
    ensures { result ≡ is_atom (seen scope.now) expression.now }
{
    match expression {
        Expr::Number { .. } | Expr::Named { .. } => true,
        Expr::Minus { of, .. } => is_number(of.get()),
        Expr::Truth { .. } | Expr::Not { .. } | Expr::Product { .. } | Expr::Sum { .. } => false,
        Expr::Compare { .. } | Expr::Both { .. } | Expr::Either { .. } => false,
    }
}

fn is_variable(scope: &Scope, expression: &Expr) -> bool
    ensures { result ≡ is_variable (seen scope.now) expression.now }
{
    match expression {
        Expr::Named { name, .. } => is_variable_name(scope, name),
        Expr::Number { .. } | Expr::Truth { .. } | Expr::Minus { .. } | Expr::Not { .. } => false,
        Expr::Product { .. } | Expr::Sum { .. } | Expr::Compare { .. } => false,
        Expr::Both { .. } | Expr::Either { .. } => false,
    }
}
