//! The methods of a monitor.

ghost use Rattle.std.specs.Prelude.{◌≡◌, ◌++◌, codes, false, if◌then◌else◌, slice_get, true};
ghost use Rattle.std.specs.List.{flat_map};
ghost use Rattle.emit_bodies.specs.Blocks.{parameter_text};
ghost use Rattle.emit_bodies.specs.Bodies.{answer_text};
ghost use Rattle.base_io.specs.Writing.{Wrote};
ghost use Rattle.emit_statements.specs.Sources.{seen};
ghost use Rattle.emit_statements.specs.Statements.{method_seen};
ghost use Rattle.emit_statements.specs.declared.ways.Way.TheVariants as ways;
ghost use Rattle.emit_method.specs.Methods.{both_text, error_text, function_end, function_text};
ghost use Rattle.lang_monitor.specs.MonitorParts.{asserts_in};
ghost use Rattle.emit_method.specs.Methods.{has_assertion, has_times, has_try, has_with};
ghost use Rattle.emit_method.specs.Methods.{head_text, lasting_text, own_way, refuses};
ghost use Rattle.emit_method.specs.Methods.{lasts, local_line, method_answer, method_arrow};
ghost use Rattle.emit_method.specs.Methods.{method_text, methods_text, own_arrow, parts_of};
ghost use Rattle.emit_method.specs.Methods.{time_text, timed_texts, times_text, try_arrow};
ghost use Rattle.emit_method.specs.Methods.{try_text, waits_first, with_text, work_arrow};
ghost use Rattle.emit_method.specs.inner.Parts.{calls_text};

use crate::called::write_called;
use crate::docs::write_docs;
use crate::lasting::write_lasting_lines;
use base_io::{Sink, SinkFailed, write_piece, write_pieces};
use emit_bodies::{kind_bytes, write_arrow, write_parameters};
use emit_choices::write_typed_start;
use emit_names::{
    are_lasting_free, are_lasting_with_free, is_try_free, is_try_with_free, is_with_free,
    write_input,
};
use emit_statements::{
    Calls, Source, Way, answer_of, condition_of, count_of, first_of, is_guarded, is_waited_on,
    may_refuse, method_fails, write_blocks, write_end,
};
use lang_base::{Kind, Named};
use lang_monitor::Monitor;
use lang_tree::{Decl, MethodTree, MonitorTree};

/// Writes a method of the monitor, by its number: for calls that wait or are an assertion, those
/// that try, and those that have a time, and each of them for calls that are given a function too,
/// where it has them. It takes no memory.
///
/// After `SinkFailed` the first bytes were taken, fewer than all and maybe none.
pub fn write_methods_of<S: Sink>(
    source: &Source,
    number: usize,
    method: &MethodTree,
    out: &mut S,
) -> Result<(), SinkFailed>
    ensures { Wrote (S.seen out.old) (S.seen out.new) result
        (methods_text (seen source.now) number method.now) }
{
    let way = own_way(source.monitor, number);
    write_both(source, number, method, way, out)?;
    write_try(source, number, method, out)?;
    write_times(source, number, method, out)
}

fn write_try<S: Sink>(
    source: &Source,
    number: usize,
    method: &MethodTree,
    out: &mut S,
) -> Result<(), SinkFailed>
    ensures { Wrote (S.seen out.old) (S.seen out.new) result
        (try_text (seen source.now) number method.now) }
{
    if !has_try(source, number, method) {
        return Ok(());
    }
    write_both(source, number, method, Way::Tries, out)
}

fn write_times<S: Sink>(
    source: &Source,
    number: usize,
    method: &MethodTree,
    out: &mut S,
) -> Result<(), SinkFailed>
    ensures { Wrote (S.seen out.old) (S.seen out.new) result
        (times_text (seen source.now) number method.now) }
{
    if !has_times(source, number, method) {
        return Ok(());
    }
    write_timed(source, number, method, out)
}

// Until a time, and for one.
fn write_timed<S: Sink>(
    source: &Source,
    number: usize,
    method: &MethodTree,
    out: &mut S,
) -> Result<(), SinkFailed>
    ensures { Wrote (S.seen out.old) (S.seen out.new) result
        (timed_texts (seen source.now) number method.now) }
{
    write_both(source, number, method, Way::Until, out)?;
    write_both(source, number, method, Way::For, out)
}

// Without a function, and with one.
fn write_both<S: Sink>(
    source: &Source,
    number: usize,
    method: &MethodTree,
    way: Way,
    out: &mut S,
) -> Result<(), SinkFailed>
    ensures { Wrote (S.seen out.old) (S.seen out.new) result
        (both_text (seen source.now) number method.now way) }
{
    write_method(source, number, method, way, false, out)?;
    write_with(source, number, method, way, out)
}

fn write_with<S: Sink>(
    source: &Source,
    number: usize,
    method: &MethodTree,
    way: Way,
    out: &mut S,
) -> Result<(), SinkFailed>
    ensures { Wrote (S.seen out.old) (S.seen out.new) result
        (with_text (seen source.now) number method.now way) }
{
    if !has_with(source.tree, method, way) {
        return Ok(());
    }
    write_method(source, number, method, way, true, out)
}

// Whether nothing else is called as the method that is given a function.
fn has_with(tree: &MonitorTree, method: &MethodTree, way: Way) -> bool
    ensures { result ≡ has_with tree.now method.now way }
{
    match way {
        Way::Waits | Way::Asserts => is_with_free(tree, &method.name),
        Way::Tries => is_try_with_free(tree, &method.name),
        Way::Until => are_lasting_with_free(tree, &method.name),
        Way::For => are_lasting_with_free(tree, &method.name),
    }
}

/// Whether a method of the monitor, by its number, has calls that try.
pub fn has_try(source: &Source, number: usize, method: &MethodTree) -> bool
    ensures { result ≡ has_try (seen source.now) number method.now }
{
    let waits = waits_first(source.monitor, number);
    let free = is_try_free(source.tree, &method.name);
    waits && free
}

/// Whether a method of the monitor, by its number, has calls that have a time.
pub fn has_times(source: &Source, number: usize, method: &MethodTree) -> bool
    ensures { result ≡ has_times (seen source.now) number method.now }
{
    let tries = has_try(source, number, method);
    let free = are_lasting_free(source.tree, &method.name);
    tries && free
}

/// Whether some calls of a method of the monitor, by its number, are refused.
pub fn refuses(source: &Source, number: usize, method: &MethodTree) -> bool
    ensures { result ≡ refuses (seen source.now) number method.now }
{
    let asserts = has_assertion(source.monitor, number);
    let tries = has_try(source, number, method);
    asserts || tries
}

// How the calls wait that bear a method's own name.
fn own_way(monitor: &Monitor, number: usize) -> Way
    ensures { result ≡ own_way monitor.now number }
{
    way_by(has_assertion(monitor, number))
}

fn way_by(asserts: bool) -> Way
    ensures { result ≡ if asserts then ways.Asserts else ways.Waits }
{
    if asserts { Way::Asserts } else { Way::Waits }
}

// Whether a method asserts a guard that is not `true`.
fn has_assertion(monitor: &Monitor, number: usize) -> bool
    ensures { result ≡ has_assertion monitor.now number }
{
    let asserts = asserts_at(monitor, number);
    let guarded = is_guarded(monitor, first_of(monitor, number) as usize);
    asserts && guarded
}

fn asserts_at(monitor: &Monitor, number: usize) -> bool
    ensures { result ≡ asserts_in (slice_get monitor.now.methods number) }
{
    match monitor.methods().get(number) {
        Some(method) => method.asserts,
        None => false,
    }
}

// Whether someone may wait for the guard of a method's first block.
fn waits_first(monitor: &Monitor, number: usize) -> bool
    ensures { result ≡ waits_first monitor.now number }
{
    is_waited_on(
        monitor,
        condition_of(monitor, first_of(monitor, number) as usize),
    )
}

fn write_method<S: Sink>(
    source: &Source,
    number: usize,
    method: &MethodTree,
    way: Way,
    works: bool,
    out: &mut S,
) -> Result<(), SinkFailed>
    ensures { Wrote (S.seen out.old) (S.seen out.new) result
        (method_text (seen source.now) number method.now way works) }
{
    let it = calls_of(source, number, method, way, works);
    if lasts(way) {
        return write_lasting(&it, out);
    }
    write_calls(&it, count_of(source.monitor, number), out)
}

// Whether calls of this way wait for a time.
fn lasts(way: Way) -> bool
    ensures { result ≡ lasts way }
{
    match way {
        Way::For => true,
        Way::Waits | Way::Asserts | Way::Tries | Way::Until => false,
    }
}

fn calls_of<'a>(
    source: &'a Source<'a>,
    number: usize,
    method: &'a MethodTree,
    way: Way,
    works: bool,
) -> Calls<'a>
    ensures { method_seen result ≡ parts_of (seen source.now) number method.now way works }
{
    Calls {
        source,
        method,
        first: first_of(source.monitor, number),
        answer: method_answer(source.monitor, number),
        fails: method_fails(source, number, method),
        way,
        works,
    }
}

// What the last block of a method answers.
fn method_answer(monitor: &Monitor, number: usize) -> Option<Kind>
    ensures { result ≡ method_answer monitor.now number }
{
    let after = first_of(monitor, number) as usize + count_of(monitor, number) as usize;
    answer_of(monitor, after.saturating_sub(1))
}

// A method of so many blocks.
fn write_calls<S: Sink>(it: &Calls, count: u32, out: &mut S) -> Result<(), SinkFailed>
    ensures { Wrote (S.seen out.old) (S.seen out.new) result
        (calls_text (method_seen it.now) count) }
{
    write_piece(b"\n", out)?;
    write_docs(it, out)?;
    write_head(it, out)?;
    write_own_locals(it, out)?;
    write_blocks(it, count, out)?;
    write_end(it, out)?;
    write_piece(b"    }\n", out)
}

// One that calls others.
fn write_lasting<S: Sink>(it: &Calls, out: &mut S) -> Result<(), SinkFailed>
    ensures { Wrote (S.seen out.old) (S.seen out.new) result (lasting_text (method_seen it.now)) }
{
    write_piece(b"\n", out)?;
    write_docs(it, out)?;
    write_head(it, out)?;
    write_lasting_lines(it, out)?;
    write_piece(b"    }\n", out)
}

// ---- the head

fn write_head<S: Sink>(it: &Calls, out: &mut S) -> Result<(), SinkFailed>
    ensures { Wrote (S.seen out.old) (S.seen out.new) result (head_text (method_seen it.now)) }
{
    write_piece(b"    pub fn ", out)?;
    write_called(it, out)?;
    write_piece(b"(&self", out)?;
    write_own_parameters(it, out)?;
    write_piece(time_bytes(it.way), out)?;
    write_function(it, out)?;
    write_piece(b")", out)?;
    write_method_arrow(it, out)?;
    write_piece(b" {\n", out)
}

fn time_bytes(way: Way) -> &'static [u8]
    ensures { result.now ≡ time_text way }
{
    match way {
        Way::Waits | Way::Asserts | Way::Tries => b"",
        Way::Until => b", end: Instant",
        Way::For => b", time: Duration",
    }
}

// `, f: impl FnOnce(&mut D, i64) -> R`
fn write_function<S: Sink>(it: &Calls, out: &mut S) -> Result<(), SinkFailed>
    ensures { Wrote (S.seen out.old) (S.seen out.new) result (function_text (method_seen it.now)) }
{
    if !it.works {
        return Ok(());
    }
    write_function_of(it.answer, out)
}

fn write_function_of<S: Sink>(answer: Option<Kind>, out: &mut S) -> Result<(), SinkFailed>
    ensures { Wrote (S.seen out.old) (S.seen out.new) result
        (codes ", f: impl FnOnce(&mut D" ++ function_end answer) }
{
    write_pieces(&[b", f: impl FnOnce(&mut D", function_end(answer)], out)
}

fn function_end(answer: Option<Kind>) -> &'static [u8]
    ensures { result.now ≡ function_end answer }
{
    match answer {
        None => b") -> R",
        Some(Kind::Int) => b", i64) -> R",
        Some(Kind::Bool) => b", bool) -> R",
    }
}

fn write_own_parameters<S: Sink>(it: &Calls, out: &mut S) -> Result<(), SinkFailed>
    ensures { Wrote (S.seen out.old) (S.seen out.new) result
        (flat_map (parameter_text it.now.method.now) it.now.method.now.inputs) }
{
    write_parameters(it.method, it.method.inputs.items(), out)
}

fn write_method_arrow<S: Sink>(it: &Calls, out: &mut S) -> Result<(), SinkFailed>
    ensures { Wrote (S.seen out.old) (S.seen out.new) result (method_arrow (method_seen it.now)) }
{
    if it.works {
        return write_piece(work_arrow(may_refuse(it.way), it.fails), out);
    }
    write_own_arrow(it, out)
}

fn work_arrow(refused: bool, fails: bool) -> &'static [u8]
    ensures { result.now ≡ work_arrow refused fails }
{
    match (refused, fails) {
        (true, true) => b" -> Result<R, Failed>",
        (true, false) => b" -> Result<R, Refused>",
        (false, true) => b" -> Result<R, Overflow>",
        (false, false) => b" -> R",
    }
}

fn write_own_arrow<S: Sink>(it: &Calls, out: &mut S) -> Result<(), SinkFailed>
    ensures { Wrote (S.seen out.old) (S.seen out.new) result (own_arrow (method_seen it.now)) }
{
    if !may_refuse(it.way) {
        return write_arrow(it.answer, it.fails, out);
    }
    write_try_arrow(it.answer, it.fails, out)
}

fn write_try_arrow<S: Sink>(
    answer: Option<Kind>,
    fails: bool,
    out: &mut S,
) -> Result<(), SinkFailed>
    ensures { Wrote (S.seen out.old) (S.seen out.new) result (try_arrow answer fails) }
{
    write_pieces(
        &[b" -> Result<", answered_bytes(answer), error_bytes(fails)],
        out,
    )
}

fn error_bytes(fails: bool) -> &'static [u8]
    ensures { result.now ≡ error_text fails }
{
    if fails { b", Failed>" } else { b", Refused>" }
}

fn answered_bytes(answer: Option<Kind>) -> &'static [u8]
    ensures { result.now ≡ answer_text answer }
{
    match answer {
        None => b"()",
        Some(kind) => kind_bytes(kind),
    }
}

// ---- locals

fn write_own_locals<S: Sink>(it: &Calls, out: &mut S) -> Result<(), SinkFailed>
    ensures { Wrote (S.seen out.old) (S.seen out.new) result
        (flat_map (local_line it.now.method.now) it.now.method.now.locals) }
{
    write_locals(it.method, it.method.locals.items(), out)
}

fn write_locals<S: Sink>(
    method: &MethodTree,
    locals: &[Decl],
    out: &mut S,
) -> Result<(), SinkFailed>
    ensures { Wrote (S.seen out.old) (S.seen out.new) result
        (flat_map (local_line method.now) locals.now) }
{
    for local in locals {
        write_local(method, local, out)?;
    }
    Ok(())
}

// `let mut seen: i64 = 0;`
fn write_local<S: Sink>(method: &MethodTree, local: &Decl, out: &mut S) -> Result<(), SinkFailed>
    ensures { Wrote (S.seen out.old) (S.seen out.new) result (local_line method.now local.now) }
{
    write_piece(b"        let mut ", out)?;
    write_input(method, local.name(), out)?;
    write_typed_start(local, out)?;
    write_piece(b";\n", out)
}
