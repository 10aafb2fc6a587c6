//! What may happen on the paths of a body.

ghost use Rattle.std.specs.Prelude.{◌≡◌, ◌&&◌, ◌||◌};
ghost use Rattle.std.specs.List.{list_any};
ghost use Rattle.emit_expressions.specs.Scopes.{declares, seen};
ghost use Rattle.emit_bodies.specs.Traces.{and_then, body_trace, nothing, or_else};
ghost use Rattle.emit_bodies.specs.Traces.{statement_trace, value_trace};

use emit_expressions::{Scope, is_shortened, is_tested};
use lang_base::Named;
use lang_tree::{Decl, Expr, StmtTree};

/// What may happen on the paths of a body.
#[derive(Clone, Copy)]
pub(crate) struct Trace {
    /// A field is assigned.
    pub(crate) writes: bool,
    /// A value is tested.
    pub(crate) fails: bool,
    /// A field is assigned, and later a value is tested.
    pub(crate) copies: bool,
    /// A value is worked out in 128 bits and known to have 64.
    pub(crate) shortens: bool,
}

/// What may happen on the paths of these statements, one after the other.
#[cycle(trace_body)]
pub(crate) fn trace_body(scope: &Scope, statements: &[StmtTree]) -> Trace
    ensures { result ≡ body_trace (seen scope.now) statements.now }
{
    let mut so_far = nothing();
    for statement in statements {
        so_far = and_then(so_far, trace_statement(scope, statement));
    }
    so_far
}

#[cycle(trace_body)]
fn trace_statement(scope: &Scope, statement: &StmtTree) -> Trace
    ensures { result ≡ statement_trace (seen scope.now) statement.now }
{
    match statement {
        StmtTree::Set { name, value, .. } => {
            let writes = is_declared(scope, name.bytes());
            of_value(scope, writes, value)
        }
        StmtTree::If { then, other, .. } => {
            let one = trace_body(scope, then.items());
            let next = trace_body(scope, other.items());
            or_else(one, next)
        }
        StmtTree::Return { value, .. } => of_value(scope, false, value),
    }
}

// Whether a name is one that the monitor declares.
fn is_declared(scope: &Scope, name: &[u8]) -> bool
    ensures { result ≡ list_any (declares name.now) scope.now.tree.now.decls }
{
    any_declares(scope.tree.decls.items(), name)
}

fn any_declares(declared: &[Decl], name: &[u8]) -> bool
    ensures { result ≡ list_any (declares name.now) declared.now }
{
    declared.iter().any(|one| one.name().bytes() == name)
}

// A statement with a value.
fn of_value(scope: &Scope, writes: bool, value: &Expr) -> Trace
    ensures { result ≡ value_trace (seen scope.now) writes value.now }
{
    let fails = is_tested(scope, value);
    let shortens = is_shortened(scope, value);
    Trace {
        writes,
        fails,
        copies: false,
        shortens,
    }
}

fn nothing() -> Trace
    ensures { result ≡ nothing }
{
    Trace {
        writes: false,
        fails: false,
        copies: false,
        shortens: false,
    }
}

// The one, and then the other.
fn and_then(one: Trace, next: Trace) -> Trace
    ensures { result ≡ and_then one next }
{
    Trace {
        writes: either(one.writes, next.writes),
        fails: either(one.fails, next.fails),
        copies: either(
            one.copies,
            either(next.copies, both(one.writes, next.fails)),
        ),
        shortens: either(one.shortens, next.shortens),
    }
}

// The one or the other.
fn or_else(one: Trace, other: Trace) -> Trace
    ensures { result ≡ or_else one other }
{
    Trace {
        writes: either(one.writes, other.writes),
        fails: either(one.fails, other.fails),
        copies: either(one.copies, other.copies),
        shortens: either(one.shortens, other.shortens),
    }
}

fn either(one: bool, other: bool) -> bool
    ensures { result ≡ (one || other) }
{
    one || other
}

fn both(one: bool, other: bool) -> bool
    ensures { result ≡ (one && other) }
{
    one && other
}
