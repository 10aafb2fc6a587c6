//! What the mutex guards: the state of a monitor, its fields and a function for each guard and
//! body, and how many sleep on each condition.

ghost use Rattle.std.specs.Prelude.{◌≡◌, ◌<◌, ◌^◌, ◌++◌, codes};
ghost use Rattle.std.specs.List.{enumerate_from, flat_map};
ghost use Rattle.emit_bodies.specs.Bodies.{body_text};
ghost use Rattle.emit_bodies.specs.Guards.{guard_text};
ghost use Rattle.base_io.specs.Writing.{Wrote};
ghost use Rattle.emit_statements.specs.Sources.{seen};
ghost use Rattle.emit_module.specs.Modules.{block_functions, body_function, inner_text, is_first};
ghost use Rattle.emit_module.specs.Modules.{method_functions, state_impl_text};
ghost use Rattle.emit_module.specs.Modules.{state_text, test_function};
ghost use Rattle.emit_module.specs.Modules.{tests_guard};

use crate::declared::write_lints;
use crate::fields::{ConditionLine, write_conditions, write_fields};
use crate::fixed::{copy_bytes, copy_end, inner_bytes, state_bytes, state_impl_bytes};
use base_io::{Sink, SinkFailed, write_piece};
use emit_bodies::{write_body, write_guard};
use emit_choices::{write_brace, write_starts};
use emit_statements::{
    Source, answer_of, condition_of, first_block, first_of, is_guarded, is_whole, tests_alone,
};
use lang_base::Kind;
use lang_monitor::Monitor;
use lang_tree::{BlockTree, Expr, MethodTree, MonitorTree, StmtTree};

/// Writes the struct of what the mutex guards, and the copy that is made of it.
pub(crate) fn write_inner<S: Sink>(source: &Source, out: &mut S) -> Result<(), SinkFailed>
    ensures { Wrote (S.seen out.old) (S.seen out.new) result (inner_text (seen source.now)) }
{
    write_piece(inner_bytes(), out)?;
    write_lints(source.tree, out)?;
    write_piece(b"struct Inner<D = ()> {\n    state: State,\n", out)?;
    let conditions = source.monitor.conditions();
    write_conditions(ConditionLine::Count, source, conditions, out)?;
    write_piece(copy_bytes(), out)?;
    write_conditions(ConditionLine::CopiedCount, source, conditions, out)?;
    write_piece(copy_end(), out)
}

/// Writes the struct of the state.
pub(crate) fn write_state<S: Sink>(tree: &MonitorTree, out: &mut S) -> Result<(), SinkFailed>
    ensures { Wrote (S.seen out.old) (S.seen out.new) result (state_text tree.now) }
{
    write_piece(state_bytes(), out)?;
    write_lints(tree, out)?;
    write_piece(b"struct State ", out)?;
    write_brace(tree, out)?;
    write_fields(tree, tree.decls.items(), out)?;
    write_piece(b"}\n\n", out)
}

/// Writes the functions of the state.
pub(crate) fn write_state_impl<S: Sink>(source: &Source, out: &mut S) -> Result<(), SinkFailed>
    ensures { Wrote (S.seen out.old) (S.seen out.new) result (state_impl_text (seen source.now)) }
{
    write_piece(state_impl_bytes(), out)?;
    write_lints(source.tree, out)?;
    write_piece(b"impl State {\n", out)?;
    write_starts(source.tree, out)?;
    write_functions_of_blocks(source, source.tree.methods.items(), out)?;
    write_piece(b"}\n", out)
}

// ---- the functions of the state

fn write_functions_of_blocks<S: Sink>(
    source: &Source,
    methods: &[MethodTree],
    out: &mut S,
) -> Result<(), SinkFailed>
    ensures { Wrote (S.seen out.old) (S.seen out.new) result
        (flat_map (λ one. method_functions (seen source.now) one.0 one.1)
        (enumerate_from 0 methods.now)) }
{
    for (number, method) in methods.iter().enumerate() {
        write_method_functions(source, number, method, out)?;
    }
    Ok(())
}

fn write_method_functions<S: Sink>(
    source: &Source,
    number: usize,
    method: &MethodTree,
    out: &mut S,
) -> Result<(), SinkFailed>
    ensures { Wrote (S.seen out.old) (S.seen out.new) result
        (method_functions (seen source.now) number method.now) }
{
    let first = first_of(source.monitor, number);
    write_functions_from(source, method, first, method.blocks.items(), out)
}

fn write_functions_from<S: Sink>(
    source: &Source,
    method: &MethodTree,
    first: u32,
    blocks: &[BlockTree],
    out: &mut S,
) -> Result<(), SinkFailed>
    ensures { Wrote (S.seen out.old) (S.seen out.new) result
        (flat_map (λ one. block_functions (seen source.now) method.now first one.0 one.1)
        (enumerate_from 0 blocks.now)) }
{
    for (place, parts) in blocks.iter().enumerate() {
        write_block_functions(source, method, first, place, parts, out)?;
    }
    Ok(())
}

fn write_block_functions<S: Sink>(
    source: &Source,
    method: &MethodTree,
    first: u32,
    place: usize,
    parts: &BlockTree,
    out: &mut S,
) -> Result<(), SinkFailed>
    requires { place < 2 ^ 63 }
    ensures { Wrote (S.seen out.old) (S.seen out.new) result
        (block_functions (seen source.now) method.now first place parts.now) }
{
    let block = first as usize + place;
    write_test_function(source, method, place, block, parts, out)?;
    write_body_function(source, method, place, block, parts, out)
}

fn write_test_function<S: Sink>(
    source: &Source,
    method: &MethodTree,
    place: usize,
    block: usize,
    parts: &BlockTree,
    out: &mut S,
) -> Result<(), SinkFailed>
    requires { place < 2 ^ 63 }
    ensures { Wrote (S.seen out.old) (S.seen out.new) result
        (test_function (seen source.now) method.now place block parts.now) }
{
    let condition = condition_of(source.monitor, block);
    if !tests_guard(source.monitor, condition, block) {
        return Ok(());
    }
    let alone = tests_alone(source.monitor, condition);
    write_own_guard(source, method, place + 1, alone, &parts.guard, out)
}

fn write_own_guard<S: Sink>(
    source: &Source,
    method: &MethodTree,
    number: usize,
    reads: bool,
    guard: &Expr,
    out: &mut S,
) -> Result<(), SinkFailed>
    ensures { Wrote (S.seen out.old) (S.seen out.new) result
        (codes "\n" ++ guard_text source.now.tree.now method.now number reads guard.now) }
{
    write_piece(b"\n", out)?;
    write_guard(source.tree, method, number, reads, guard, out)
}

// Whether a block has a test of its guard: this is not `true`, and each block of its condition has
// one, or this is the first of them.
fn tests_guard(monitor: &Monitor, condition: u32, block: usize) -> bool
    ensures { result ≡ tests_guard monitor.now condition block }
{
    let guarded = is_guarded(monitor, block);
    let alone = tests_alone(monitor, condition);
    let first = is_first(first_block(monitor, condition), block);
    guarded && (alone || first)
}

fn is_first(first: Option<usize>, block: usize) -> bool
    ensures { result ≡ is_first first block }
{
    match first {
        Some(first) => first == block,
        None => false,
    }
}

fn write_body_function<S: Sink>(
    source: &Source,
    method: &MethodTree,
    place: usize,
    block: usize,
    parts: &BlockTree,
    out: &mut S,
) -> Result<(), SinkFailed>
    requires { place < 2 ^ 63 }
    ensures { Wrote (S.seen out.old) (S.seen out.new) result
        (body_function (seen source.now) method.now place block parts.now) }
{
    let answer = answer_of(source.monitor, block);
    let whole = is_whole(source, block);
    let body = parts.body.items();
    write_own_body(source, method, place + 1, answer, body, whole, out)
}

fn write_own_body<S: Sink>(
    source: &Source,
    method: &MethodTree,
    number: usize,
    answer: Option<Kind>,
    body: &[StmtTree],
    whole: bool,
    out: &mut S,
) -> Result<(), SinkFailed>
    ensures { Wrote (S.seen out.old) (S.seen out.new) result
        (codes "\n" ++ body_text source.now.tree.now method.now number answer body.now whole) }
{
    write_piece(b"\n", out)?;
    write_body(source.tree, method, number, answer, body, whole, out)
}
