//! Expressions in canonical form.

ghost use Rattle.std.specs.Prelude.{◌≡◌, ◌++◌, decimal};
ghost use Rattle.std.specs.List.{flat_map};
ghost use Rattle.lang_printer.specs.Canonical.{printed, expression_text, truth_text, op_text};
ghost use Rattle.lang_printer.specs.Canonical.{addend_sign};
ghost use Rattle.lang_printer.specs.Printing.{part_text, later_factor, later_addend, joined_parts};
ghost use Rattle.base_io.specs.Writing.{Wrote, pieces_text};

use base_io::{Sink, SinkFailed, write_piece, write_pieces};
use itoa::Buffer;
use lang_tree::{Addend, Expr, Factor, Op};

// An expression, with no parentheses around it.
#[cycle(write_expression)]
fn write_expression<S: Sink>(expression: &Expr, out: &mut S) -> Result<(), SinkFailed>
    ensures { Wrote (S.seen out.old) (S.seen out.new) result (expression_text expression.now) }
{
    match expression {
        Expr::Number { value, .. } => write_number(*value, out),
        Expr::Truth { value, .. } => write_piece(truth_bytes(*value), out),
        Expr::Named { name, .. } => write_piece(name.bytes(), out),
        Expr::Minus { of, .. } => write_after(b"-", 6, of.get(), out),
        Expr::Not { of, .. } => write_after(b"!", 6, of.get(), out),
        Expr::Product { first, rest } => {
            write_at_level(6, first.get(), out)?;
            write_factors(rest.items(), out)
        }
        Expr::Sum { first, rest } => {
            write_at_level(5, first.get(), out)?;
            write_addends(rest.items(), out)
        }
        Expr::Compare { op, left, right } => {
            write_at_level(4, left.get(), out)?;
            write_after(op_bytes(*op), 4, right.get(), out)
        }
        Expr::Both { parts } => write_joined(b" && ", 3, parts.items(), out),
        Expr::Either { parts } => write_joined(b" || ", 2, parts.items(), out),
    }
}

// In parentheses where it holds together less than is asked.
#[cycle(write_expression)]
fn write_at_level<S: Sink>(asked: u8, part: &Expr, out: &mut S) -> Result<(), SinkFailed>
    ensures { Wrote (S.seen out.old) (S.seen out.new) result (part_text asked part.now) }
{
    if asked <= level(part) {
        return write_expression(part, out);
    }
    write_piece(b"(", out)?;
    write_expression(part, out)?;
    write_piece(b")", out)
}

// A part after its sign.
#[cycle(write_expression)]
fn write_after<S: Sink>(sign: &[u8], asked: u8, part: &Expr, out: &mut S) -> Result<(), SinkFailed>
    ensures { Wrote (S.seen out.old) (S.seen out.new) result
        (sign.now ++ part_text asked part.now) }
{
    write_piece(sign, out)?;
    write_at_level(asked, part, out)
}

#[cycle(write_expression)]
fn write_factors<S: Sink>(factors: &[Factor], out: &mut S) -> Result<(), SinkFailed>
    ensures { Wrote (S.seen out.old) (S.seen out.new) result (flat_map later_factor factors.now) }
{
    for factor in factors {
        write_after(b" * ", 6, &factor.of, out)?;
    }
    Ok(())
}

#[cycle(write_expression)]
fn write_addends<S: Sink>(addends: &[Addend], out: &mut S) -> Result<(), SinkFailed>
    ensures { Wrote (S.seen out.old) (S.seen out.new) result (flat_map later_addend addends.now) }
{
    for addend in addends {
        write_after(sign_bytes(addend.minus), 5, &addend.of, out)?;
    }
    Ok(())
}

#[cycle(write_expression)]
fn write_joined<S: Sink>(
    sign: &[u8],
    asked: u8,
    parts: &[Expr],
    out: &mut S,
) -> Result<(), SinkFailed>
    ensures { Wrote (S.seen out.old) (S.seen out.new) result
        (joined_parts sign.now asked parts.now) }
{
    let [first, rest @ ..] = parts else {
        return Ok(());
    };
    write_at_level(asked, first, out)?;
    for part in rest {
        write_after(sign, asked, part, out)?;
    }
    Ok(())
}

// How tightly an expression holds together.
fn level(expression: &Expr) -> u8
    ensures { result ≡ (printed expression.now).level }
{
    match expression {
        Expr::Number { .. } | Expr::Truth { .. } | Expr::Named { .. } => 7,
        Expr::Minus { .. } | Expr::Not { .. } => 6,
        Expr::Product { .. } => 5,
        Expr::Sum { .. } => 4,
        Expr::Compare { .. } => 3,
        Expr::Both { .. } => 2,
        Expr::Either { .. } => 1,
    }
}

fn op_bytes(op: Op) -> &'static [u8]
    ensures { result.now ≡ op_text op }
{
    match op {
        Op::Equal => b" == ",
        Op::Differs => b" != ",
        Op::Less => b" < ",
        Op::AtMost => b" <= ",
        Op::More => b" > ",
        Op::AtLeast => b" >= ",
    }
}

fn sign_bytes(minus: bool) -> &'static [u8]
    ensures { result.now ≡ addend_sign minus }
{
    if minus { b" - " } else { b" + " }
}

/// The word of a truth value: `true` or `false`.
pub fn truth_bytes(truth: bool) -> &'static [u8]
    ensures { result.now ≡ truth_text truth }
{
    if truth { b"true" } else { b"false" }
}

fn write_number<S: Sink>(number: u128, out: &mut S) -> Result<(), SinkFailed>
    ensures { Wrote (S.seen out.old) (S.seen out.new) result (decimal number) }
{
    let mut digits = Buffer::new();
    write_piece(digits.format(number).as_bytes(), out)
}

/// Writes an expression in canonical form, after these pieces and before another. It takes no
/// memory.
///
/// After `SinkFailed` the first bytes were taken, fewer than all and maybe none.
pub fn write_around<S: Sink>(
    before: &[&[u8]],
    expression: &Expr,
    after: &[u8],
    out: &mut S,
) -> Result<(), SinkFailed>
    ensures { Wrote (S.seen out.old) (S.seen out.new) result
        (pieces_text before.now ++ expression_text expression.now ++ after.now) }
{
    write_pieces(before, out)?;
    write_expression(expression, out)?;
    write_piece(after, out)
}
