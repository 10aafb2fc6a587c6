//! Expressions in Rust, written to a sink.

ghost use Rattle.std.specs.Prelude.{◌≡◌, ◌++◌, ◌&&◌, ◌||◌, codes, decimal, not};
ghost use Rattle.lang_printer.specs.Canonical.{addend_sign, minus_text, op_text};
ghost use Rattle.emit_expressions.specs.Scopes.{ScopeParts, is_read, name_text, seen};
ghost use Rattle.emit_expressions.specs.Expressions.{addend_by, begins, begun_level, closed};
ghost use Rattle.emit_expressions.specs.Expressions.{ending_in, is_pieced, joined_by, number_ending};
ghost use Rattle.emit_expressions.specs.Expressions.{opened, plain_name, plain_text};
ghost use Rattle.emit_expressions.specs.Expressions.{product_closed, product_opened, times};
ghost use Rattle.emit_expressions.specs.Expressions.{wide_comparison, wide_name, written};
ghost use Rattle.emit_expressions.specs.inner.Parts.{addend_at, addends_text, any_addend};
ghost use Rattle.emit_expressions.specs.inner.Parts.{any_factor, any_part, factors_text};
ghost use Rattle.emit_expressions.specs.inner.Parts.{joined_parts, later_addend, part_at};
ghost use Rattle.emit_expressions.specs.inner.Parts.{plain_part, wide_part};
ghost use Rattle.base_io.specs.Writing.{Wrote};

use crate::scope::{Scope, is_read, write_name};
use base_io::{Sink, SinkFailed, write_piece, write_pieces};
use itoa::Buffer;
use lang_base::Name;
use lang_printer::truth_bytes;
use lang_tree::{Addend, Expr, Factor, Op};

// ---- what is known of an expression before it is written

// How tightly an expression holds together.
fn level(expression: &Expr) -> u8
    ensures { (scope : ScopeParts) → result ≡ (written scope expression.now).level }
{
    match expression {
        Expr::Number { .. } | Expr::Truth { .. } | Expr::Named { .. } => 7,
        Expr::Minus { .. } | Expr::Not { .. } => 6,
        Expr::Product { .. } => 5,
        Expr::Sum { .. } => 4,
        Expr::Compare { .. } => 3,
        Expr::Both { .. } => 2,
        Expr::Either { .. } => 1,
    }
}

/// Whether it is a number without a sign.
pub(crate) fn is_number(expression: &Expr) -> bool
    ensures { (scope : ScopeParts) → result ≡ (written scope expression.now).is_number }
{
    match expression {
        Expr::Number { .. } => true,
        Expr::Truth { .. } | Expr::Named { .. } | Expr::Minus { .. } | Expr::Not { .. } => false,
        Expr::Product { .. } | Expr::Sum { .. } | Expr::Compare { .. } => false,
        Expr::Both { .. } | Expr::Either { .. } => false,
    }
}

/// Whether a value that is stored or answered may need more than 64 bits.
pub fn narrows(expression: &Expr) -> bool
    ensures { (scope : ScopeParts) → result ≡ (written scope expression.now).narrows }
{
    match expression {
        Expr::Minus { of, .. } => !is_number(of.get()),
        Expr::Product { .. } | Expr::Sum { .. } => true,
        Expr::Number { .. } | Expr::Truth { .. } | Expr::Named { .. } | Expr::Not { .. } => false,
        Expr::Compare { .. } | Expr::Both { .. } | Expr::Either { .. } => false,
    }
}

// Whether some name in the expression has a text.
#[cycle(is_named)]
fn is_named(scope: &Scope, expression: &Expr) -> bool
    ensures { result ≡ (written (seen scope.now) expression.now).is_named }
{
    match expression {
        Expr::Number { .. } | Expr::Truth { .. } => false,
        Expr::Named { name, .. } => is_read(scope, name),
        Expr::Minus { of, .. } | Expr::Not { of, .. } => is_named(scope, of.get()),
        Expr::Product { first, rest } => {
            let one = is_named(scope, first.get());
            let more = any_factor(scope, rest.items());
            one || more
        }
        Expr::Sum { first, rest } => {
            let one = is_named(scope, first.get());
            let more = any_addend(scope, rest.items());
            one || more
        }
        Expr::Compare { left, right, .. } => {
            let one = is_named(scope, left.get());
            let more = is_named(scope, right.get());
            one || more
        }
        Expr::Both { parts } | Expr::Either { parts } => any_part(scope, parts.items()),
    }
}

#[cycle(is_named)]
fn any_factor(scope: &Scope, factors: &[Factor]) -> bool
    ensures { result ≡ any_factor (seen scope.now) factors.now }
{
    for factor in factors {
        if is_named(scope, &factor.of) {
            return true;
        }
    }
    false
}

#[cycle(is_named)]
fn any_addend(scope: &Scope, addends: &[Addend]) -> bool
    ensures { result ≡ any_addend (seen scope.now) addends.now }
{
    for addend in addends {
        if is_named(scope, &addend.of) {
            return true;
        }
    }
    false
}

#[cycle(is_named)]
fn any_part(scope: &Scope, parts: &[Expr]) -> bool
    ensures { result ≡ any_part (seen scope.now) parts.now }
{
    for part in parts {
        if is_named(scope, part) {
            return true;
        }
    }
    false
}

// ---- in 128 bits

/// Writes a number in 128 bits, with `ending` after each one that is written out.
#[cycle(write_wide)]
pub(crate) fn write_wide<S: Sink>(
    scope: &Scope,
    ending: &[u8],
    expression: &Expr,
    out: &mut S,
) -> Result<(), SinkFailed>
    ensures { Wrote (S.seen out.old) (S.seen out.new) result
        ((written (seen scope.now) expression.now).wide ending.now) }
{
    match expression {
        Expr::Number { value, .. } => write_number(*value, ending, out),
        Expr::Named { name, .. } => write_wide_name(scope, name, ending, out),
        Expr::Minus { of, .. } => write_wide_after(scope, b"-", 7, ending, of.get(), out),
        Expr::Product { first, rest } => {
            let rest = rest.items();
            let pieced = is_pieced(rest.len());
            let ended = ending_in(pieced, ending);
            write_wide_after(
                scope,
                product_opened_bytes(pieced),
                6,
                ended,
                first.get(),
                out,
            )?;
            write_factors(scope, pieced, ended, rest, out)
        }
        Expr::Sum { first, rest } => {
            let rest = rest.items();
            let pieced = is_pieced(rest.len());
            let ended = ending_in(pieced, ending);
            write_wide_after(scope, opened_bytes(pieced), 5, ended, first.get(), out)?;
            write_addends(scope, pieced, ended, rest, out)
        }
        Expr::Truth { .. } | Expr::Not { .. } | Expr::Compare { .. } => Ok(()),
        Expr::Both { .. } | Expr::Either { .. } => Ok(()),
    }
}

// In parentheses where it holds together less than is asked.
#[cycle(write_wide)]
fn write_wide_at<S: Sink>(
    scope: &Scope,
    asked: u8,
    ending: &[u8],
    part: &Expr,
    out: &mut S,
) -> Result<(), SinkFailed>
    ensures { Wrote (S.seen out.old) (S.seen out.new) result
        (wide_part (seen scope.now) asked ending.now part.now) }
{
    if asked <= level(part) {
        return write_wide(scope, ending, part, out);
    }
    write_piece(b"(", out)?;
    write_wide(scope, ending, part, out)?;
    write_piece(b")", out)
}

// A part after its sign.
#[cycle(write_wide)]
fn write_wide_after<S: Sink>(
    scope: &Scope,
    sign: &[u8],
    asked: u8,
    ending: &[u8],
    part: &Expr,
    out: &mut S,
) -> Result<(), SinkFailed>
    ensures { Wrote (S.seen out.old) (S.seen out.new) result
        (sign.now ++ wide_part (seen scope.now) asked ending.now part.now) }
{
    write_piece(sign, out)?;
    write_wide_at(scope, asked, ending, part, out)
}

#[cycle(write_wide)]
fn write_factors<S: Sink>(
    scope: &Scope,
    pieced: bool,
    ending: &[u8],
    factors: &[Factor],
    out: &mut S,
) -> Result<(), SinkFailed>
    ensures { Wrote (S.seen out.old) (S.seen out.new) result
        (factors_text (seen scope.now) pieced ending.now factors.now) }
{
    for (place, factor) in factors.iter().enumerate() {
        write_wide_after(
            scope,
            times_bytes(begins_at(pieced, place)),
            6,
            ending,
            &factor.of,
            out,
        )?;
    }
    write_piece(product_closed_bytes(pieced), out)
}

#[cycle(write_wide)]
fn write_addends<S: Sink>(
    scope: &Scope,
    pieced: bool,
    ending: &[u8],
    addends: &[Addend],
    out: &mut S,
) -> Result<(), SinkFailed>
    ensures { Wrote (S.seen out.old) (S.seen out.new) result
        (addends_text (seen scope.now) pieced ending.now addends.now) }
{
    for (place, addend) in addends.iter().enumerate() {
        write_addend(scope, begins_at(pieced, place), ending, addend, out)?;
    }
    write_piece(closed_bytes(pieced), out)
}

#[cycle(write_wide)]
fn write_addend<S: Sink>(
    scope: &Scope,
    begins: bool,
    ending: &[u8],
    addend: &Addend,
    out: &mut S,
) -> Result<(), SinkFailed>
    ensures { Wrote (S.seen out.old) (S.seen out.new) result
        (addend_by begins ending.now (later_addend (seen scope.now) addend.now)) }
{
    if !begins {
        return write_wide_after(scope, sign_bytes(addend.minus), 5, ending, &addend.of, out);
    }
    write_piece(b")\n            + (", out)?;
    write_wide_after(
        scope,
        minus_bytes(addend.minus),
        begun_level(addend.minus),
        ending,
        &addend.of,
        out,
    )
}

fn write_number<S: Sink>(number: u128, ending: &[u8], out: &mut S) -> Result<(), SinkFailed>
    ensures { Wrote (S.seen out.old) (S.seen out.new) result (decimal number ++ ending.now) }
{
    write_decimal(number, out)?;
    write_piece(ending, out)
}

fn write_wide_name<S: Sink>(
    scope: &Scope,
    name: &Name,
    ending: &[u8],
    out: &mut S,
) -> Result<(), SinkFailed>
    ensures { Wrote (S.seen out.old) (S.seen out.new) result
        (wide_name (is_read (seen scope.now) name.now) (name_text (seen scope.now) name.now)
        ending.now) }
{
    if !is_read(scope, name) {
        return write_pieces(&[b"0", ending], out);
    }
    write_piece(b"i128::from(", out)?;
    write_name(scope, name, out)?;
    write_piece(b")", out)
}

// ---- in 64 bits, and truth values

/// Writes an expression that does not need more than 64 bits, or a truth value. It takes no memory.
///
/// After `SinkFailed` the first bytes were taken, fewer than all and maybe none.
#[cycle(write_plain)]
pub fn write_plain<S: Sink>(scope: &Scope, expression: &Expr, out: &mut S) -> Result<(), SinkFailed>
    ensures { Wrote (S.seen out.old) (S.seen out.new) result
        (plain_text (seen scope.now) expression.now) }
{
    match expression {
        Expr::Number { value, .. } => write_decimal(*value, out),
        Expr::Truth { value, .. } => write_piece(truth_bytes(*value), out),
        Expr::Named { name, .. } => write_plain_name(scope, name, out),
        Expr::Minus { of, .. } => {
            write_piece(b"-", out)?;
            write_plain(scope, of.get(), out)
        }
        Expr::Not { of, .. } => write_plain_after(scope, b"!", 6, of.get(), out),
        // Two that are no sums are compared in 64 bits, others in 128.
        Expr::Compare { op, left, right } => {
            let left = left.get();
            let right = right.get();
            let named = are_named(scope, left, right);
            if !are_plain(left, right, named) {
                let ending = number_ending(named);
                return write_wide_comparison(scope, *op, left, right, ending, out);
            }
            write_plain(scope, left, out)?;
            write_piece(op_bytes(*op), out)?;
            write_plain(scope, right, out)
        }
        Expr::Both { parts } => write_joined(scope, b" && ", 3, parts.items(), out),
        Expr::Either { parts } => write_joined(scope, b" || ", 2, parts.items(), out),
        Expr::Product { .. } | Expr::Sum { .. } => Ok(()),
    }
}

// In parentheses where it holds together less than is asked.
#[cycle(write_plain)]
fn write_plain_at<S: Sink>(
    scope: &Scope,
    asked: u8,
    part: &Expr,
    out: &mut S,
) -> Result<(), SinkFailed>
    ensures { Wrote (S.seen out.old) (S.seen out.new) result
        (plain_part (seen scope.now) asked part.now) }
{
    if asked <= level(part) {
        return write_plain(scope, part, out);
    }
    write_piece(b"(", out)?;
    write_plain(scope, part, out)?;
    write_piece(b")", out)
}

// A part after its sign.
#[cycle(write_plain)]
fn write_plain_after<S: Sink>(
    scope: &Scope,
    sign: &[u8],
    asked: u8,
    part: &Expr,
    out: &mut S,
) -> Result<(), SinkFailed>
    ensures { Wrote (S.seen out.old) (S.seen out.new) result
        (sign.now ++ plain_part (seen scope.now) asked part.now) }
{
    write_piece(sign, out)?;
    write_plain_at(scope, asked, part, out)
}

#[cycle(write_plain)]
fn write_joined<S: Sink>(
    scope: &Scope,
    sign: &[u8],
    asked: u8,
    parts: &[Expr],
    out: &mut S,
) -> Result<(), SinkFailed>
    ensures { Wrote (S.seen out.old) (S.seen out.new) result
        (joined_parts (seen scope.now) sign.now asked parts.now) }
{
    let [first, rest @ ..] = parts else {
        return Ok(());
    };
    let pieced = is_pieced(rest.len());
    write_piece(opened_bytes(pieced), out)?;
    write_plain_at(scope, asked, first, out)?;
    for (place, part) in rest.iter().enumerate() {
        write_plain_part(scope, sign, asked, begins_at(pieced, place), part, out)?;
    }
    write_piece(closed_bytes(pieced), out)
}

#[cycle(write_plain)]
fn write_plain_part<S: Sink>(
    scope: &Scope,
    sign: &[u8],
    asked: u8,
    begins: bool,
    part: &Expr,
    out: &mut S,
) -> Result<(), SinkFailed>
    ensures { Wrote (S.seen out.old) (S.seen out.new) result
        (joined_by begins sign.now (plain_part (seen scope.now) asked part.now)) }
{
    if !begins {
        return write_plain_after(scope, sign, asked, part, out);
    }
    write_pieces(&[b")\n           ", sign, b"("], out)?;
    write_plain_at(scope, asked, part, out)
}

// ---- comparisons

fn are_named(scope: &Scope, left: &Expr, right: &Expr) -> bool
    ensures { result ≡ ((written (seen scope.now) left.now).is_named
        || (written (seen scope.now) right.now).is_named) }
{
    let one = is_named(scope, left);
    let other = is_named(scope, right);
    one || other
}

// Whether two are compared in 64 bits.
fn are_plain(left: &Expr, right: &Expr, named: bool) -> bool
    ensures { (scope : ScopeParts) → result ≡ ((not (written scope left.now).narrows
        && not (written scope right.now).narrows) && named) }
{
    let one = narrows(left);
    let other = narrows(right);
    plain_by(one, other, named)
}

fn plain_by(one: bool, other: bool, named: bool) -> bool
    ensures { result ≡ ((not one && not other) && named) }
{
    (!one && !other) && named
}

fn write_wide_comparison<S: Sink>(
    scope: &Scope,
    op: Op,
    left: &Expr,
    right: &Expr,
    ending: &[u8],
    out: &mut S,
) -> Result<(), SinkFailed>
    ensures { Wrote (S.seen out.old) (S.seen out.new) result
        (wide_comparison op (written (seen scope.now) left.now)
        (written (seen scope.now) right.now) ending.now) }
{
    write_wide(scope, ending, left, out)?;
    write_piece(op_bytes(op), out)?;
    write_wide(scope, ending, right, out)
}

fn write_decimal<S: Sink>(number: u128, out: &mut S) -> Result<(), SinkFailed>
    ensures { Wrote (S.seen out.old) (S.seen out.new) result (decimal number) }
{
    let mut digits = Buffer::new();
    write_piece(digits.format(number).as_bytes(), out)
}

fn write_plain_name<S: Sink>(scope: &Scope, name: &Name, out: &mut S) -> Result<(), SinkFailed>
    ensures { Wrote (S.seen out.old) (S.seen out.new) result
        (plain_name (is_read (seen scope.now) name.now) (name_text (seen scope.now) name.now)) }
{
    if is_read(scope, name) {
        write_name(scope, name, out)
    } else {
        write_piece(b"0", out)
    }
}

// ---- pieces: rustc's stack ends at some thousand parts in a row

const PIECE: usize = 64;

fn is_pieced(count: usize) -> bool
    ensures { result ≡ is_pieced count }
{
    PIECE <= count
}

fn begins_at(pieced: bool, place: usize) -> bool
    ensures { result ≡ (pieced && begins place) }
{
    pieced && place % PIECE == PIECE - 1
}

// What comes after each number that is written out.
fn ending_in<'a>(pieced: bool, ending: &'a [u8]) -> &'a [u8]
    ensures { result.now ≡ ending_in pieced ending.now }
{
    if pieced { b"_i128" } else { ending }
}

fn opened_bytes(pieced: bool) -> &'static [u8]
    ensures { result.now ≡ opened pieced }
{
    if pieced { b"(" } else { b"" }
}

fn closed_bytes(pieced: bool) -> &'static [u8]
    ensures { result.now ≡ closed pieced }
{
    if pieced { b")" } else { b"" }
}

fn product_opened_bytes(pieced: bool) -> &'static [u8]
    ensures { result.now ≡ product_opened pieced }
{
    if pieced { b"Some(" } else { b"" }
}

// What stands before a factor after the first one: a piece is given the product of all before it.
fn times_bytes(begins: bool) -> &'static [u8]
    ensures { result.now ≡ times begins }
{
    if begins {
        b")\n            .map(|result| result * "
    } else {
        b" * "
    }
}

fn product_closed_bytes(pieced: bool) -> &'static [u8]
    ensures { result.now ≡ product_closed pieced }
{
    if pieced {
        b")\n            .unwrap()"
    } else {
        b""
    }
}

// ---- signs

// What stands before an addend that begins a piece, and how tightly it then holds together.
fn minus_bytes(minus: bool) -> &'static [u8]
    ensures { result.now ≡ minus_text minus }
{
    if minus { b"-" } else { b"" }
}

fn begun_level(minus: bool) -> u8
    ensures { result ≡ begun_level minus }
{
    if minus { 7 } else { 5 }
}

fn number_ending(named: bool) -> &'static [u8]
    ensures { result.now ≡ number_ending named }
{
    if named { b"" } else { b"_i128" }
}

fn op_bytes(op: Op) -> &'static [u8]
    ensures { result.now ≡ op_text op }
{
    match op {
        Op::Equal => b" == ",
        Op::Differs => b" != ",
        Op::Less => b" < ",
        Op::AtMost => b" <= ",
        Op::More => b" > ",
        Op::AtLeast => b" >= ",
    }
}

/// The sign before an addend after the first.
pub(crate) fn sign_bytes(minus: bool) -> &'static [u8]
    ensures { result.now ≡ addend_sign minus }
{
    if minus { b" - " } else { b" + " }
}
