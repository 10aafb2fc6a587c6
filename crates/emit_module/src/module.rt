//! The module of a monitor.

ghost use Rattle.std.specs.Prelude.{◌≡◌, ◌||◌, false, not, true};
ghost use Rattle.std.specs.List.{enumerate_from, flat_map, list_any};
ghost use Rattle.emit_code.specs.Code.{is_always};
ghost use Rattle.base_io.specs.Writing.{Wrote};
ghost use Rattle.emit_statements.specs.Sources.{seen};
ghost use Rattle.emit_statements.specs.Statements.{method_fails, method_shortens};
ghost use Rattle.emit_method.specs.Methods.{has_times, methods_text};
ghost use Rattle.emit_module.specs.Fixed.{FAILED, REFUSED, TIMES};
ghost use Rattle.emit_module.specs.Modules.{constant_docs, constant_line, constant_text};
ghost use Rattle.emit_module.specs.Modules.{constants_end, constants_text, debug_text};
ghost use Rattle.emit_choices.specs.Declarations.{is_field};
ghost use Rattle.emit_module.specs.Modules.{default_by, default_text, fails_somewhere};
ghost use Rattle.emit_module.specs.Modules.{functions_text, has_calls, head_text, impl_text};
ghost use Rattle.emit_module.specs.Modules.{module_text, opening_text};
ghost use Rattle.emit_module.specs.Modules.{own_impl, plain_docs, refuses_so, refuses_somewhere};
ghost use Rattle.emit_module.specs.Modules.{rust_text, shortens_somewhere, struct_docs};
ghost use Rattle.emit_module.specs.Modules.{struct_head, struct_text, text_if, traits_text, use_by};
ghost use Rattle.emit_module.specs.Modules.{times_somewhere, use_text, use_times, waits_somewhere};
ghost use Rattle.emit_module.specs.Modules.{with_impl};

use crate::declared::write_lints;
use crate::fields::{ConditionLine, write_conditions};
use crate::fixed::{
    data_bytes, debug_bytes, debug_end, default_bytes, failed_bytes, head_bytes, lock_bytes,
    overflow_bytes, refused_bytes, times_bytes, version_bytes, wait_bytes, whole_bytes, with_bytes,
};
use crate::state::{write_inner, write_state, write_state_impl};
use base_io::{Sink, SinkFailed, write_piece};
use emit_choices::{is_field, write_new, write_typed_start, write_with_data};
use emit_comments::{first_line, has_comments, line_of, write_comments, write_leading};
use emit_method::{has_times, refuses, write_methods_of};
use emit_names::{Style, has_parameters, write_member, write_type};
use emit_statements::{Source, is_always, method_fails, method_shortens};
use lang_base::Named;
use lang_monitor::{Condition, Monitor};
use lang_tree::{Decl, MethodTree, MonitorTree};
use machine_events::Plan;
use report_text::write_plan;

/// Writes the Rust module of a monitor under a plan, with the comments of the text that its tree
/// was read from, and by which of its blocks are known to have no number that leaves 64 bits. It
/// takes no memory.
///
/// After `SinkFailed` the first bytes were taken, fewer than all and maybe none.
pub fn write_rust<S: Sink>(
    text: &[u8],
    tree: &MonitorTree,
    monitor: &Monitor,
    plan: &Plan,
    whole: &[bool],
    out: &mut S,
) -> Result<(), SinkFailed>
    ensures { Wrote (S.seen out.old) (S.seen out.new) result
        (rust_text text.now tree.now monitor.now plan.now whole.now) }
{
    let source = Source {
        text,
        tree,
        monitor,
        plan,
        whole,
    };
    write_module(&source, out)
}

fn write_module<S: Sink>(source: &Source, out: &mut S) -> Result<(), SinkFailed>
    ensures { Wrote (S.seen out.old) (S.seen out.new) result (module_text (seen source.now)) }
{
    write_head(source.tree, out)?;
    write_use(source, out)?;
    write_struct(source, out)?;
    write_impl(source, out)?;
    write_traits(source, out)?;
    write_inner(source, out)?;
    write_state(source.tree, out)?;
    write_state_impl(source, out)?;
    write_functions(source, out)
}

fn write_head<S: Sink>(tree: &MonitorTree, out: &mut S) -> Result<(), SinkFailed>
    ensures { Wrote (S.seen out.old) (S.seen out.new) result (head_text tree.now) }
{
    write_piece(b"// The monitor `", out)?;
    write_piece(tree.name.bytes(), out)?;
    write_piece(b"` as a module of Rust, made by `expresso emit` ", out)?;
    write_piece(version_bytes(), out)?;
    write_piece(head_bytes(), out)
}

fn write_use<S: Sink>(source: &Source, out: &mut S) -> Result<(), SinkFailed>
    ensures { Wrote (S.seen out.old) (S.seen out.new) result (use_text (seen source.now)) }
{
    write_piece(
        use_bytes(waits_somewhere(source.monitor), has_calls(source.tree)),
        out,
    )?;
    write_piece(use_times(times_somewhere(source)), out)
}

fn use_bytes(waits: bool, calls: bool) -> &'static [u8]
    ensures { result.now ≡ use_by waits calls }
{
    if waits {
        return b"use std::sync::{Condvar, Mutex, MutexGuard, PoisonError};\n";
    }
    if calls {
        b"use std::sync::{Mutex, MutexGuard, PoisonError};\n"
    } else {
        b"use std::sync::{Mutex, PoisonError};\n"
    }
}

fn use_times(times: bool) -> &'static [u8]
    ensures { result.now ≡ use_times times }
{
    if times {
        b"use std::time::{Duration, Instant};\n\n"
    } else {
        b"\n"
    }
}

fn has_calls(tree: &MonitorTree) -> bool
    ensures { result ≡ has_calls tree.now }
{
    tree.methods.items().len() != 0
}

// Whether someone may wait on some condition.
fn waits_somewhere(monitor: &Monitor) -> bool
    ensures { result ≡ waits_somewhere monitor.now }
{
    any_waits(monitor.conditions())
}

fn any_waits(conditions: &[Condition]) -> bool
    ensures { result ≡ list_any (λ which. not (is_always which.guard)) conditions.now }
{
    conditions.iter().any(|which| !is_always(&which.guard))
}

// ---- the type

fn write_struct<S: Sink>(source: &Source, out: &mut S) -> Result<(), SinkFailed>
    ensures { Wrote (S.seen out.old) (S.seen out.new) result (struct_text (seen source.now)) }
{
    write_struct_docs(source, out)?;
    write_lints(source.tree, out)?;
    write_struct_head(source.tree, out)?;
    let conditions = source.monitor.conditions();
    write_conditions(ConditionLine::Variable, source, conditions, out)?;
    write_piece(b"}\n\n", out)
}

fn write_struct_docs<S: Sink>(source: &Source, out: &mut S) -> Result<(), SinkFailed>
    ensures { Wrote (S.seen out.old) (S.seen out.new) result (struct_docs (seen source.now)) }
{
    write_leading(b"", source.text, first_line(source.text), out)?;
    write_piece(b"/// The monitor `", out)?;
    write_piece(source.tree.name.bytes(), out)?;
    write_piece(
        b"`. Threads share it by reference. A call waits for its guard, unless it tries.\n",
        out,
    )?;
    write_piece(
        b"///\n/// Its lock guards data `D` too, for the functions that calls are given.\n",
        out,
    )?;
    write_piece(b"/**\n# Plan\n\n```text\n", out)?;
    write_plan(source.monitor, source.plan, out)?;
    write_piece(b"```\n*/\n", out)
}

fn write_struct_head<S: Sink>(tree: &MonitorTree, out: &mut S) -> Result<(), SinkFailed>
    ensures { Wrote (S.seen out.old) (S.seen out.new) result (struct_head tree.now) }
{
    write_piece(
        b"#[allow(dead_code, non_camel_case_types)]
#[allow(clippy::doc_markdown, clippy::upper_case_acronyms)]
pub struct ",
        out,
    )?;
    write_type(tree, out)?;
    write_piece(b"<D = ()> {\n    inner: Mutex<Inner<D>>,\n", out)
}

// ---- its functions

fn write_impl<S: Sink>(source: &Source, out: &mut S) -> Result<(), SinkFailed>
    ensures { Wrote (S.seen out.old) (S.seen out.new) result (impl_text (seen source.now)) }
{
    write_own_impl(source, out)?;
    write_with_impl(source, out)
}

// Of a monitor with no data.
fn write_own_impl<S: Sink>(source: &Source, out: &mut S) -> Result<(), SinkFailed>
    ensures { Wrote (S.seen out.old) (S.seen out.new) result (own_impl (seen source.now)) }
{
    write_piece(
        b"#[rustfmt::skip]
#[allow(dead_code, clippy::doc_markdown, clippy::style)]
",
        out,
    )?;
    write_lints(source.tree, out)?;
    write_piece(b"impl ", out)?;
    write_type(source.tree, out)?;
    write_piece(b" {\n", out)?;
    write_constants(source, out)?;
    write_new(source.text, source.tree, out)
}

// Of one with any data.
fn write_with_impl<S: Sink>(source: &Source, out: &mut S) -> Result<(), SinkFailed>
    ensures { Wrote (S.seen out.old) (S.seen out.new) result (with_impl (seen source.now)) }
{
    write_piece(with_bytes(), out)?;
    write_type(source.tree, out)?;
    write_piece(b"<D> {\n", out)?;
    write_opening(source, out)?;
    write_piece(data_bytes(), out)?;
    write_methods(source, source.tree.methods.items(), out)?;
    write_piece(b"}\n\n", out)
}

fn write_constants<S: Sink>(source: &Source, out: &mut S) -> Result<(), SinkFailed>
    ensures { Wrote (S.seen out.old) (S.seen out.new) result (constants_text (seen source.now)) }
{
    write_constant_lines(source, source.tree.decls.items(), out)?;
    write_piece(constants_end(has_constant(source.tree.decls.items())), out)
}

fn write_constant_lines<S: Sink>(
    source: &Source,
    declared: &[Decl],
    out: &mut S,
) -> Result<(), SinkFailed>
    ensures { Wrote (S.seen out.old) (S.seen out.new) result
        (flat_map (constant_line (seen source.now)) declared.now) }
{
    for one in declared {
        write_constant_line(source, one, out)?;
    }
    Ok(())
}

fn write_constant_line<S: Sink>(
    source: &Source,
    declared: &Decl,
    out: &mut S,
) -> Result<(), SinkFailed>
    ensures { Wrote (S.seen out.old) (S.seen out.new) result
        (constant_line (seen source.now) declared.now) }
{
    match declared {
        Decl::Const { at, .. } => write_constant(source, *at, declared, out),
        Decl::Param { .. } => Ok(()),
        Decl::Int { .. } => Ok(()),
        Decl::Copied { .. } => Ok(()),
        Decl::Flag { .. } => Ok(()),
    }
}

// `pub const CAP: i64 = 4;`, by its offset.
fn write_constant<S: Sink>(
    source: &Source,
    at: u32,
    declared: &Decl,
    out: &mut S,
) -> Result<(), SinkFailed>
    ensures { Wrote (S.seen out.old) (S.seen out.new) result
        (constant_text (seen source.now) at declared.now) }
{
    write_constant_docs(source.text, line_of(source.text, at), declared, out)?;
    write_piece(b"    pub const ", out)?;
    write_member(source.tree, Style::Upper, declared.name(), out)?;
    write_typed_start(declared, out)?;
    write_piece(b";\n", out)
}

fn write_constant_docs<S: Sink>(
    text: &[u8],
    place: usize,
    declared: &Decl,
    out: &mut S,
) -> Result<(), SinkFailed>
    ensures { Wrote (S.seen out.old) (S.seen out.new) result
        (constant_docs text.now place declared.now) }
{
    if has_comments(text, place) {
        return write_comments(b"    ", text, place, out);
    }
    write_plain_docs(declared, out)
}

fn write_plain_docs<S: Sink>(declared: &Decl, out: &mut S) -> Result<(), SinkFailed>
    ensures { Wrote (S.seen out.old) (S.seen out.new) result (plain_docs declared.now) }
{
    write_piece(b"    /// The constant `", out)?;
    write_piece(declared.name().bytes(), out)?;
    write_piece(b"`.\n", out)
}

fn has_constant(declared: &[Decl]) -> bool
    ensures { result ≡ list_any (λ one. not (is_field one)) declared.now }
{
    declared.iter().any(|one| !is_field(one))
}

// An empty line, after constants.
fn constants_end(any: bool) -> &'static [u8]
    ensures { result.now ≡ constants_end any }
{
    if any { b"\n" } else { b"" }
}

fn write_opening<S: Sink>(source: &Source, out: &mut S) -> Result<(), SinkFailed>
    ensures { Wrote (S.seen out.old) (S.seen out.new) result (opening_text (seen source.now)) }
{
    write_with_data(source.text, source.tree, out)?;
    let conditions = source.monitor.conditions();
    write_conditions(ConditionLine::NewCount, source, conditions, out)?;
    write_piece(b"                data,\n            }),\n", out)?;
    write_conditions(ConditionLine::NewVariable, source, conditions, out)?;
    write_piece(b"        }\n    }\n", out)
}

fn write_methods<S: Sink>(
    source: &Source,
    methods: &[MethodTree],
    out: &mut S,
) -> Result<(), SinkFailed>
    ensures { Wrote (S.seen out.old) (S.seen out.new) result
        (flat_map (λ one. methods_text (seen source.now) one.0 one.1)
        (enumerate_from 0 methods.now)) }
{
    for (number, method) in methods.iter().enumerate() {
        write_methods_of(source, number, method, out)?;
    }
    Ok(())
}

fn write_traits<S: Sink>(source: &Source, out: &mut S) -> Result<(), SinkFailed>
    ensures { Wrote (S.seen out.old) (S.seen out.new) result (traits_text (seen source.now)) }
{
    write_default(source.tree, out)?;
    write_debug(source, out)
}

// Nothing where parameters are to be chosen.
fn write_default<S: Sink>(tree: &MonitorTree, out: &mut S) -> Result<(), SinkFailed>
    ensures { Wrote (S.seen out.old) (S.seen out.new) result (default_text tree.now) }
{
    if has_parameters(tree) {
        return Ok(());
    }
    write_own_default(tree, out)
}

fn write_own_default<S: Sink>(tree: &MonitorTree, out: &mut S) -> Result<(), SinkFailed>
    ensures { Wrote (S.seen out.old) (S.seen out.new) result (default_by tree.now false) }
{
    write_piece(b"impl Default for ", out)?;
    write_type(tree, out)?;
    write_piece(default_bytes(), out)
}

fn write_debug<S: Sink>(source: &Source, out: &mut S) -> Result<(), SinkFailed>
    ensures { Wrote (S.seen out.old) (S.seen out.new) result (debug_text (seen source.now)) }
{
    write_piece(b"impl<D> std::fmt::Debug for ", out)?;
    write_type(source.tree, out)?;
    write_piece(debug_bytes(), out)?;
    write_type(source.tree, out)?;
    write_piece(debug_end(), out)
}

// ---- what is free of the monitor

fn write_functions<S: Sink>(source: &Source, out: &mut S) -> Result<(), SinkFailed>
    ensures { Wrote (S.seen out.old) (S.seen out.new) result (functions_text (seen source.now)) }
{
    write_piece(text_if(has_calls(source.tree), lock_bytes()), out)?;
    write_piece(text_if(waits_somewhere(source.monitor), wait_bytes()), out)?;
    write_times(source, out)?;
    write_piece(text_if(fails_somewhere(source), overflow_bytes()), out)?;
    write_refused(source, out)?;
    write_failed(source, out)?;
    write_piece(text_if(shortens_somewhere(source), whole_bytes()), out)
}

fn write_times<S: Sink>(source: &Source, out: &mut S) -> Result<(), SinkFailed>
    ensures { Wrote (S.seen out.old) (S.seen out.new) result
        (text_if (times_somewhere (seen source.now)) TIMES) }
{
    write_piece(text_if(times_somewhere(source), times_bytes()), out)
}

fn write_refused<S: Sink>(source: &Source, out: &mut S) -> Result<(), SinkFailed>
    ensures { Wrote (S.seen out.old) (S.seen out.new) result
        (text_if (refuses_somewhere (seen source.now) false) REFUSED) }
{
    write_piece(
        text_if(refuses_somewhere(source, false), refused_bytes()),
        out,
    )
}

fn write_failed<S: Sink>(source: &Source, out: &mut S) -> Result<(), SinkFailed>
    ensures { Wrote (S.seen out.old) (S.seen out.new) result
        (text_if (refuses_somewhere (seen source.now) true) FAILED) }
{
    write_piece(
        text_if(refuses_somewhere(source, true), failed_bytes()),
        out,
    )
}

// A text where there is a use for it.
fn text_if(any: bool, text: &[u8]) -> &[u8]
    ensures { result.now ≡ text_if any text.now }
{
    if any { text } else { b"" }
}

// Whether some method may fail.
fn fails_somewhere(source: &Source) -> bool
    ensures { result ≡ fails_somewhere (seen source.now) }
{
    any_fails(source, source.tree.methods.items())
}

fn any_fails(source: &Source, methods: &[MethodTree]) -> bool
    ensures { result ≡ list_any (λ one. method_fails (seen source.now) one.0 one.1)
        (enumerate_from 0 methods.now) }
{
    let mut found = false;
    for (number, method) in methods.iter().enumerate() {
        let here = method_fails(source, number, method);
        found = either(found, here);
    }
    found
}

// Whether the calls of some method have a time.
fn times_somewhere(source: &Source) -> bool
    ensures { result ≡ times_somewhere (seen source.now) }
{
    any_times(source, source.tree.methods.items())
}

fn any_times(source: &Source, methods: &[MethodTree]) -> bool
    ensures { result ≡ list_any (λ one. has_times (seen source.now) one.0 one.1)
        (enumerate_from 0 methods.now) }
{
    let mut found = false;
    for (number, method) in methods.iter().enumerate() {
        let here = has_times(source, number, method);
        found = either(found, here);
    }
    found
}

// Whether some number is known to have 64 bits, and is worked out in 128.
fn shortens_somewhere(source: &Source) -> bool
    ensures { result ≡ shortens_somewhere (seen source.now) }
{
    any_shortens(source, source.tree.methods.items())
}

fn any_shortens(source: &Source, methods: &[MethodTree]) -> bool
    ensures { result ≡ list_any (λ one. method_shortens (seen source.now) one.0 one.1)
        (enumerate_from 0 methods.now) }
{
    let mut found = false;
    for (number, method) in methods.iter().enumerate() {
        let here = method_shortens(source, number, method);
        found = either(found, here);
    }
    found
}

// Whether the calls of some method that try or have a time are refused, by whether it may fail too.
fn refuses_somewhere(source: &Source, fails: bool) -> bool
    ensures { result ≡ refuses_somewhere (seen source.now) fails }
{
    any_refuses(source, fails, source.tree.methods.items())
}

fn any_refuses(source: &Source, fails: bool, methods: &[MethodTree]) -> bool
    ensures { result ≡ list_any (λ one. refuses_so (seen source.now) fails one.0 one.1)
        (enumerate_from 0 methods.now) }
{
    let mut found = false;
    for (number, method) in methods.iter().enumerate() {
        let here = refuses_so(source, fails, number, method);
        found = either(found, here);
    }
    found
}

fn either(one: bool, other: bool) -> bool
    ensures { result ≡ (one || other) }
{
    one || other
}

fn refuses_so(source: &Source, fails: bool, number: usize, method: &MethodTree) -> bool
    ensures { result ≡ refuses_so (seen source.now) fails number method.now }
{
    let refused = refuses(source, number, method);
    let failing = method_fails(source, number, method);
    refused && if fails { failing } else { !failing }
}
