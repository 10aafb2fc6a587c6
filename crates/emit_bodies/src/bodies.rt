//! The bodies of blocks, as functions of the state, written to a sink.

ghost use Rattle.std.specs.Prelude.{◌≡◌, ◌++◌, [], codes};
ghost use Rattle.std.specs.Option.{option_map_or};
ghost use Rattle.emit_expressions.specs.Scopes.{seen};
ghost use Rattle.emit_expressions.specs.Expressions.{plain_text};
ghost use Rattle.emit_expressions.specs.Values.{value_text};
ghost use Rattle.emit_bodies.specs.Bodies.{answer_line, answer_text, arrow_plain, arrow_text};
ghost use Rattle.emit_bodies.specs.Bodies.{body_fails, body_head, body_scope, body_shortens};
ghost use Rattle.emit_bodies.specs.Bodies.{body_text, braced, copied_lines, done_text, end_text};
ghost use Rattle.emit_bodies.specs.Bodies.{kept_answer, kept_end_text, last_of, lines_by};
ghost use Rattle.emit_bodies.specs.Bodies.{own_lines, own_trace, result_text};
ghost use Rattle.emit_bodies.specs.Statements.{statements_text};
ghost use Rattle.base_io.specs.Writing.{Wrote};

use crate::blocks::{kind_bytes, write_block_name, write_inputs};
use crate::depth::Depth;
use crate::statements::write_statements;
use crate::traces::{Trace, trace_body};
use base_io::{Sink, SinkFailed, write_piece, write_pieces};
use emit_expressions::{Reach, Scope, narrows, write_plain, write_value};
use lang_base::Kind;
use lang_tree::{Expr, MethodTree, MonitorTree, StmtTree};

/// Whether a body may fail, by whether it is whole, that is, no value of it leaves 64 bits: some
/// value in it is tested.
pub fn fails(tree: &MonitorTree, method: &MethodTree, body: &[StmtTree], whole: bool) -> bool
    ensures { result ≡ body_fails tree.now method.now body.now whole }
{
    own_trace(tree, method, body, whole).fails
}

/// Whether some value in a body is worked out in 128 bits and known to have 64.
pub fn shortens(tree: &MonitorTree, method: &MethodTree, body: &[StmtTree], whole: bool) -> bool
    ensures { result ≡ body_shortens tree.now method.now body.now whole }
{
    own_trace(tree, method, body, whole).shortens
}

fn own_trace(tree: &MonitorTree, method: &MethodTree, body: &[StmtTree], whole: bool) -> Trace
    ensures { result ≡ own_trace tree.now method.now body.now whole }
{
    trace_body(&body_scope(tree, method, b"self", whole), body)
}

/// Writes the function that runs the body of a block, by the number of the block in its method,
/// from 1, by the kind of what it answers, and by whether no value of it leaves 64 bits. It takes no
/// memory.
///
/// After `SinkFailed` the first bytes were taken, fewer than all and maybe none.
pub fn write_body<S: Sink>(
    tree: &MonitorTree,
    method: &MethodTree,
    number: usize,
    answer: Option<Kind>,
    body: &[StmtTree],
    whole: bool,
    out: &mut S,
) -> Result<(), SinkFailed>
    ensures { Wrote (S.seen out.old) (S.seen out.new) result
        (body_text tree.now method.now number answer body.now whole) }
{
    let traced = own_trace(tree, method, body, whole);
    write_head(tree, method, number, answer, traced.fails, out)?;
    write_braced(tree, method, traced, body, whole, out)
}

fn body_scope<'a>(
    tree: &'a MonitorTree,
    method: &'a MethodTree,
    receiver: &'a [u8],
    whole: bool,
) -> Scope<'a>
    ensures { seen result ≡ body_scope tree.now method.now receiver.now whole }
{
    Scope {
        tree,
        method,
        receiver,
        reach: Reach::Lent,
        whole,
    }
}

// `fn run_put(&mut self, amount: i64) -> Result<(), Overflow>`
fn write_head<S: Sink>(
    tree: &MonitorTree,
    method: &MethodTree,
    number: usize,
    answer: Option<Kind>,
    fails: bool,
    out: &mut S,
) -> Result<(), SinkFailed>
    ensures { Wrote (S.seen out.old) (S.seen out.new) result
        (body_head tree.now method.now number answer fails) }
{
    write_piece(b"    fn ", out)?;
    write_block_name(tree, method, b"run", number, out)?;
    write_piece(b"(&mut self", out)?;
    write_inputs(method, Reach::Lent, out)?;
    write_piece(b")", out)?;
    write_arrow(answer, fails, out)
}

/// Writes what a function answers, by the kind of its value and whether it may fail. It takes no
/// memory.
///
/// After `SinkFailed` the first bytes were taken, fewer than all and maybe none.
pub fn write_arrow<S: Sink>(
    answer: Option<Kind>,
    fails: bool,
    out: &mut S,
) -> Result<(), SinkFailed>
    ensures { Wrote (S.seen out.old) (S.seen out.new) result (arrow_text answer fails) }
{
    if fails {
        return write_pieces(&[b" -> Result<", answer_bytes(answer), b", Overflow>"], out);
    }
    write_plain_arrow(answer, out)
}

fn write_plain_arrow<S: Sink>(answer: Option<Kind>, out: &mut S) -> Result<(), SinkFailed>
    ensures { Wrote (S.seen out.old) (S.seen out.new) result (arrow_plain answer) }
{
    match answer {
        None => Ok(()),
        Some(kind) => write_pieces(&[b" -> ", kind_bytes(kind)], out),
    }
}

fn answer_bytes(answer: Option<Kind>) -> &'static [u8]
    ensures { result.now ≡ answer_text answer }
{
    match answer {
        None => b"()",
        Some(kind) => kind_bytes(kind),
    }
}

// ---- what stands in the function

fn write_braced<S: Sink>(
    tree: &MonitorTree,
    method: &MethodTree,
    trace: Trace,
    body: &[StmtTree],
    whole: bool,
    out: &mut S,
) -> Result<(), SinkFailed>
    ensures { Wrote (S.seen out.old) (S.seen out.new) result
        (braced body.now (lines_by tree.now method.now trace body.now whole)) }
{
    if body.is_empty() {
        return write_piece(b" {}\n", out);
    }
    write_between(tree, method, trace, body, whole, out)
}

// The braces of a function, and what stands in them.
fn write_between<S: Sink>(
    tree: &MonitorTree,
    method: &MethodTree,
    trace: Trace,
    body: &[StmtTree],
    whole: bool,
    out: &mut S,
) -> Result<(), SinkFailed>
    ensures { Wrote (S.seen out.old) (S.seen out.new) result
        (codes " {\n" ++ lines_by tree.now method.now trace body.now whole ++ codes "    }\n") }
{
    write_piece(b" {\n", out)?;
    write_lines(tree, method, trace, body, whole, out)?;
    write_piece(b"    }\n", out)
}

fn write_lines<S: Sink>(
    tree: &MonitorTree,
    method: &MethodTree,
    trace: Trace,
    body: &[StmtTree],
    whole: bool,
    out: &mut S,
) -> Result<(), SinkFailed>
    ensures { Wrote (S.seen out.old) (S.seen out.new) result
        (lines_by tree.now method.now trace body.now whole) }
{
    let kept = body_scope(tree, method, b"self", whole);
    if trace.copies {
        let next = body_scope(tree, method, b"next", whole);
        return write_copied_lines(&next, &kept, body, out);
    }
    write_own_lines(&kept, trace.fails, body, out)
}

// ---- a body that works on the state itself

fn write_own_lines<S: Sink>(
    scope: &Scope,
    fails: bool,
    body: &[StmtTree],
    out: &mut S,
) -> Result<(), SinkFailed>
    ensures { Wrote (S.seen out.old) (S.seen out.new) result
        (own_lines (seen scope.now) fails body.now) }
{
    write_inner_statements(scope, body, out)?;
    write_end(scope, fails, body, out)
}

fn write_end<S: Sink>(
    scope: &Scope,
    fails: bool,
    body: &[StmtTree],
    out: &mut S,
) -> Result<(), SinkFailed>
    ensures { Wrote (S.seen out.old) (S.seen out.new) result
        (option_map_or (end_text (seen scope.now) fails) (last_of body.now) (done_text fails)) }
{
    match body.last() {
        None => write_piece(done_bytes(fails), out),
        Some(last) => write_end_after(scope, fails, last, out),
    }
}

fn write_end_after<S: Sink>(
    scope: &Scope,
    fails: bool,
    last: &StmtTree,
    out: &mut S,
) -> Result<(), SinkFailed>
    ensures { Wrote (S.seen out.old) (S.seen out.new) result
        (end_text (seen scope.now) fails last.now) }
{
    match last {
        StmtTree::Set { .. } | StmtTree::If { .. } => write_piece(done_bytes(fails), out),
        StmtTree::Return { value, .. } => write_answer_line(scope, fails, value, out),
    }
}

fn done_bytes(fails: bool) -> &'static [u8]
    ensures { result.now ≡ done_text fails }
{
    if fails { b"        Ok(())\n" } else { b"" }
}

fn write_answer_line<S: Sink>(
    scope: &Scope,
    fails: bool,
    value: &Expr,
    out: &mut S,
) -> Result<(), SinkFailed>
    ensures { Wrote (S.seen out.old) (S.seen out.new) result
        (answer_line (seen scope.now) fails value.now) }
{
    write_piece(b"        ", out)?;
    write_result(scope, fails, value, out)?;
    write_piece(b"\n", out)
}

fn write_result<S: Sink>(
    scope: &Scope,
    fails: bool,
    value: &Expr,
    out: &mut S,
) -> Result<(), SinkFailed>
    ensures { Wrote (S.seen out.old) (S.seen out.new) result
        (result_text (seen scope.now) fails value.now) }
{
    if narrows(value) {
        return write_value(scope, value, b"", out);
    }
    if !fails {
        return write_plain(scope, value, out);
    }
    write_wrapped(scope, value, out)
}

fn write_wrapped<S: Sink>(scope: &Scope, value: &Expr, out: &mut S) -> Result<(), SinkFailed>
    ensures { Wrote (S.seen out.old) (S.seen out.new) result
        (codes "Ok(" ++ plain_text (seen scope.now) value.now ++ codes ")") }
{
    write_piece(b"Ok(", out)?;
    write_plain(scope, value, out)?;
    write_piece(b")", out)
}

// The statements of a function's body.
fn write_inner_statements<S: Sink>(
    scope: &Scope,
    body: &[StmtTree],
    out: &mut S,
) -> Result<(), SinkFailed>
    ensures { Wrote (S.seen out.old) (S.seen out.new) result
        (statements_text (seen scope.now) 2 body.now) }
{
    write_statements(
        scope,
        body,
        &Depth::Below(&Depth::Below(&Depth::Margin)),
        out,
    )
}

// ---- a body that works on a copy of the state, which it keeps at its end

fn write_copied_lines<S: Sink>(
    next: &Scope,
    kept: &Scope,
    body: &[StmtTree],
    out: &mut S,
) -> Result<(), SinkFailed>
    ensures { Wrote (S.seen out.old) (S.seen out.new) result
        (copied_lines (seen next.now) (seen kept.now) body.now) }
{
    write_piece(b"        let mut next = *self;\n", out)?;
    write_inner_statements(next, body, out)?;
    write_kept_end(next, kept, body, out)
}

fn write_kept_end<S: Sink>(
    next: &Scope,
    kept: &Scope,
    body: &[StmtTree],
    out: &mut S,
) -> Result<(), SinkFailed>
    ensures { Wrote (S.seen out.old) (S.seen out.new) result
        (option_map_or (kept_end_text (seen next.now) (seen kept.now)) (last_of body.now) []) }
{
    match body.last() {
        None => Ok(()),
        Some(last) => write_kept_end_after(next, kept, last, out),
    }
}

fn write_kept_end_after<S: Sink>(
    next: &Scope,
    kept: &Scope,
    last: &StmtTree,
    out: &mut S,
) -> Result<(), SinkFailed>
    ensures { Wrote (S.seen out.old) (S.seen out.new) result
        (kept_end_text (seen next.now) (seen kept.now) last.now) }
{
    match last {
        StmtTree::Set { .. } | StmtTree::If { .. } => {
            write_piece(b"        *self = next;\n        Ok(())\n", out)
        }
        StmtTree::Return { value, .. } => write_kept_answer(narrows(value), next, kept, value, out),
    }
}

fn write_kept_answer<S: Sink>(
    narrows: bool,
    next: &Scope,
    kept: &Scope,
    value: &Expr,
    out: &mut S,
) -> Result<(), SinkFailed>
    ensures { Wrote (S.seen out.old) (S.seen out.new) result
        (kept_answer narrows (seen next.now) (seen kept.now) value.now) }
{
    if narrows {
        return write_tested_answer(next, value, out);
    }
    write_piece(b"        *self = next;\n", out)?;
    write_answer_line(kept, true, value, out)
}

// A value that may need more than 64 bits is tested before the copy is kept.
fn write_tested_answer<S: Sink>(next: &Scope, value: &Expr, out: &mut S) -> Result<(), SinkFailed>
    ensures { Wrote (S.seen out.old) (S.seen out.new) result
        (codes "        let answer = " ++ value_text (seen next.now) value.now (codes "?")
        ++ codes ";\n        *self = next;\n        Ok(answer)\n") }
{
    write_piece(b"        let answer = ", out)?;
    write_value(next, value, b"?", out)?;
    write_piece(b";\n        *self = next;\n        Ok(answer)\n", out)
}
