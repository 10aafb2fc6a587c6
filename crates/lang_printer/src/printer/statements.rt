//! Statements in canonical form, each on lines of its own.

ghost use Rattle.std.specs.Prelude.{◌++◌};
ghost use Rattle.lang_printer.specs.Canonical.{statement_text, expression_text, indent};
ghost use Rattle.lang_printer.specs.Printing.{statements_text, block_text, else_text};
ghost use Rattle.lang_printer.specs.Depths.{levels};
ghost use Rattle.base_io.specs.Writing.{Wrote, pieces_text};

use super::depth::{Depth, write_indent};
use super::expressions::write_around;
use base_io::{Sink, SinkFailed, write_piece};
use lang_tree::{Expr, StmtTree};

/// Writes the lines of statements, one level deeper, and the brace that ends them.
#[cycle(write_statement)]
pub(crate) fn write_block<S: Sink>(
    statements: &[StmtTree],
    depth: &Depth,
    out: &mut S,
) -> Result<(), SinkFailed>
    ensures { Wrote (S.seen out.old) (S.seen out.new) result
        (block_text (levels depth.now) statements.now) }
{
    write_statements(statements, &Depth::Below(&*depth), out)?;
    write_indent(depth, out)?;
    write_piece(b"}", out)
}

#[cycle(write_statement)]
fn write_statements<S: Sink>(
    statements: &[StmtTree],
    depth: &Depth,
    out: &mut S,
) -> Result<(), SinkFailed>
    ensures { Wrote (S.seen out.old) (S.seen out.new) result
        (statements_text (levels depth.now) statements.now) }
{
    for statement in statements {
        write_statement(statement, depth, out)?;
    }
    Ok(())
}

#[cycle(write_statement)]
fn write_statement<S: Sink>(
    statement: &StmtTree,
    depth: &Depth,
    out: &mut S,
) -> Result<(), SinkFailed>
    ensures { Wrote (S.seen out.old) (S.seen out.new) result
        (statement_text statement.now (levels depth.now)) }
{
    match statement {
        StmtTree::Set { name, value, .. } => {
            write_line(depth, &[name.bytes(), b" = "], value, b";\n", out)
        }
        StmtTree::If {
            when,
            then,
            other,
            ..
        } => {
            write_line(depth, &[b"if ("], when, b") {\n", out)?;
            write_block(then.items(), depth, out)?;
            write_else(other.items(), depth, out)?;
            write_piece(b"\n", out)
        }
        StmtTree::Return { value, .. } => write_line(depth, &[b"return "], value, b";\n", out),
    }
}

#[cycle(write_statement)]
fn write_else<S: Sink>(
    statements: &[StmtTree],
    depth: &Depth,
    out: &mut S,
) -> Result<(), SinkFailed>
    ensures { Wrote (S.seen out.old) (S.seen out.new) result
        (else_text (levels depth.now) statements.now) }
{
    if statements.is_empty() {
        return Ok(());
    }
    write_piece(b" else {\n", out)?;
    write_block(statements, depth, out)
}

// A line with an expression in it.
fn write_line<S: Sink>(
    depth: &Depth,
    before: &[&[u8]],
    expression: &Expr,
    after: &[u8],
    out: &mut S,
) -> Result<(), SinkFailed>
    ensures { Wrote (S.seen out.old) (S.seen out.new) result
        (indent (levels depth.now)
        ++ (pieces_text before.now ++ expression_text expression.now ++ after.now)) }
{
    write_indent(depth, out)?;
    write_around(before, expression, after, out)
}
