//! The statements of a body, each on lines of its own.

ghost use Rattle.std.specs.Prelude.{◌++◌, codes};
ghost use Rattle.emit_expressions.specs.Scopes.{name_text, seen};
ghost use Rattle.emit_expressions.specs.Expressions.{plain_text};
ghost use Rattle.emit_expressions.specs.Values.{value_text};
ghost use Rattle.emit_bodies.specs.Statements.{indent, statement_text, statements_text};
ghost use Rattle.emit_bodies.specs.inner.Depths.{levels};
ghost use Rattle.emit_bodies.specs.inner.Printing.{block_text, else_text};
ghost use Rattle.base_io.specs.Writing.{Wrote};

use crate::depth::{Depth, write_indent};
use base_io::{Sink, SinkFailed, write_piece};
use emit_expressions::{Scope, write_name, write_plain, write_value};
use lang_base::Name;
use lang_tree::{Expr, StmtTree};

/// Writes the lines of statements, one level deeper, and the brace that ends them.
#[cycle(write_statement)]
fn write_block<S: Sink>(
    scope: &Scope,
    statements: &[StmtTree],
    depth: &Depth,
    out: &mut S,
) -> Result<(), SinkFailed>
    ensures { Wrote (S.seen out.old) (S.seen out.new) result
        (block_text (seen scope.now) (levels depth.now) statements.now) }
{
    write_statements(scope, statements, &Depth::Below(&*depth), out)?;
    write_indent(depth, out)?;
    write_piece(b"}", out)
}

/// Writes the lines of statements.
#[cycle(write_statement)]
pub(crate) fn write_statements<S: Sink>(
    scope: &Scope,
    statements: &[StmtTree],
    depth: &Depth,
    out: &mut S,
) -> Result<(), SinkFailed>
    ensures { Wrote (S.seen out.old) (S.seen out.new) result
        (statements_text (seen scope.now) (levels depth.now) statements.now) }
{
    for statement in statements {
        write_statement(scope, statement, depth, out)?;
    }
    Ok(())
}

#[cycle(write_statement)]
fn write_statement<S: Sink>(
    scope: &Scope,
    statement: &StmtTree,
    depth: &Depth,
    out: &mut S,
) -> Result<(), SinkFailed>
    ensures { Wrote (S.seen out.old) (S.seen out.new) result
        (statement_text (seen scope.now) statement.now (levels depth.now)) }
{
    match statement {
        StmtTree::Set { name, value, .. } => write_assignment(scope, name, value, depth, out),
        StmtTree::If {
            when,
            then,
            other,
            ..
        } => {
            write_test(scope, when, depth, out)?;
            write_block(scope, then.items(), depth, out)?;
            write_else(scope, other.items(), depth, out)?;
            write_piece(b"\n", out)
        }
        StmtTree::Return { .. } => Ok(()),
    }
}

#[cycle(write_statement)]
fn write_else<S: Sink>(
    scope: &Scope,
    statements: &[StmtTree],
    depth: &Depth,
    out: &mut S,
) -> Result<(), SinkFailed>
    ensures { Wrote (S.seen out.old) (S.seen out.new) result
        (else_text (seen scope.now) (levels depth.now) statements.now) }
{
    if statements.is_empty() {
        return Ok(());
    }
    write_piece(b" else {\n", out)?;
    write_block(scope, statements, depth, out)
}

// `self.count = narrow(..)?;`
fn write_assignment<S: Sink>(
    scope: &Scope,
    name: &Name,
    value: &Expr,
    depth: &Depth,
    out: &mut S,
) -> Result<(), SinkFailed>
    ensures { Wrote (S.seen out.old) (S.seen out.new) result
        (indent (levels depth.now) ++ name_text (seen scope.now) name.now ++ codes " = "
        ++ value_text (seen scope.now) value.now (codes "?") ++ codes ";\n") }
{
    write_indent(depth, out)?;
    write_name(scope, name, out)?;
    write_piece(b" = ", out)?;
    write_value(scope, value, b"?", out)?;
    write_piece(b";\n", out)
}

// `if self.open {`
fn write_test<S: Sink>(
    scope: &Scope,
    when: &Expr,
    depth: &Depth,
    out: &mut S,
) -> Result<(), SinkFailed>
    ensures { Wrote (S.seen out.old) (S.seen out.new) result
        (indent (levels depth.now) ++ codes "if " ++ plain_text (seen scope.now) when.now
        ++ codes " {\n") }
{
    write_indent(depth, out)?;
    write_piece(b"if ", out)?;
    write_plain(scope, when, out)?;
    write_piece(b" {\n", out)
}
