//! The inputs and locals of clients that run a block, and of those that wait.

ghost use Rattle.std.specs.Prelude.{◌≡◌, ◌+◌, ◌≤◌, decimal, length, slice_get};
ghost use Rattle.std.specs.List.{find};
ghost use Rattle.std.specs.Option.{option_copied};
ghost use Rattle.lang_base.specs.Limits.{FIRST_INPUT, INPUTS, LOCALS};
ghost use Rattle.base_io.specs.Writing.{Wrote};
ghost use Rattle.lang_monitor.specs.MonitorParts.{kind_of};
ghost use Rattle.logic_solve.specs.Solutions.{valuation_of};
ghost use Rattle.plan_why.specs.Things.{reads_none};
ghost use Rattle.report_reasons.specs.ReasonText.{call_text, client_text, closing, input_name};
ghost use Rattle.report_reasons.specs.ReasonText.{input_text, inputs_in, inputs_text, local_name};
ghost use Rattle.report_reasons.specs.ReasonText.{local_text, locals_in, locals_text, method_text};
ghost use Rattle.report_reasons.specs.ReasonText.{opening, running_text, waiting_client_text};
ghost use Rattle.report_reasons.specs.ReasonText.{waiting_text, waits_at};

use super::values::write_named;
use base_io::{Sink, SinkFailed, write_piece};
use itoa::Buffer;
use lang_base::limits::{FIRST_INPUT, FIRST_LOCAL};
use lang_base::{Kind, Named, Value};
use lang_monitor::{Block, Method, Monitor};
use lang_tree::{Decl, InputTree, MonitorTree};
use logic_solve::Solution;
use report_text::write_block_name;

// ---- names

/// What stands before the first input or local, and before each other.
fn opening(number: usize) -> &'static [u8]
    ensures { result.now ≡ opening number }
{
    if number == 0 { b"(" } else { b" " }
}

/// What stands after so many inputs and locals.
fn closing(count: usize) -> &'static [u8]
    ensures { result.now ≡ closing count }
{
    if count == 0 { b"" } else { b")" }
}

/// The inputs of a method in the file, or none where there is no such method.
fn inputs_in(tree: &MonitorTree, method: usize) -> &[InputTree]
    ensures { result.now ≡ inputs_in (slice_get tree.now.methods method) }
{
    match tree.methods.items().get(method) {
        Some(method) => method.inputs.items(),
        None => &[],
    }
}

/// The locals of a method in the file, or none where there is no such method.
fn locals_in(tree: &MonitorTree, method: usize) -> &[Decl]
    ensures { result.now ≡ locals_in (slice_get tree.now.methods method) }
{
    match tree.methods.items().get(method) {
        Some(method) => method.locals.items(),
        None => &[],
    }
}

/// The name of an input, or nothing where there is none.
fn input_bytes(inputs: &[InputTree], number: usize) -> &[u8]
    ensures { result.now ≡ input_name (slice_get inputs.now number) }
{
    match inputs.get(number) {
        Some(input) => input.name.bytes(),
        None => b"",
    }
}

/// The name of a local, or nothing where there is none.
fn local_bytes(locals: &[Decl], number: usize) -> &[u8]
    ensures { result.now ≡ local_name (slice_get locals.now number) }
{
    match locals.get(number) {
        Some(local) => local.name().bytes(),
        None => b"",
    }
}

/// The kind of a value.
fn kind_of(value: &Value) -> Kind
    ensures { result ≡ kind_of value.now }
{
    match value {
        Value::Int(_) => Kind::Int,
        Value::Bool(_) => Kind::Bool,
    }
}

/// The place of an input or a local, by its number.
fn place_of(first: u32, number: usize) -> u32
    requires first { first ≤ 64 }
    requires number { number ≤ 64 }
    ensures { result ≡ first + number }
{
    first + number as u32
}

// ---- inputs and locals

/// An input, by its number.
fn write_input<S: Sink>(
    at: &Solution,
    first: u32,
    inputs: &[InputTree],
    number: usize,
    kind: Kind,
    out: &mut S,
) -> Result<(), SinkFailed>
    requires first { first ≤ 64 }
    requires number { number ≤ 64 }
    ensures { Wrote (S.seen out.old) (S.seen out.new) result
        (input_text (valuation_of at.now) first inputs.now number kind) }
{
    write_piece(opening(number), out)?;
    write_named(
        at,
        input_bytes(inputs, number),
        kind,
        place_of(first, number),
        out,
    )
}

/// Each input.
fn write_inputs<S: Sink>(
    at: &Solution,
    first: u32,
    inputs: &[InputTree],
    kinds: &[Kind],
    out: &mut S,
) -> Result<(), SinkFailed>
    requires first { first ≤ 64 }
    requires few { length kinds.now ≤ INPUTS }
    ensures { Wrote (S.seen out.old) (S.seen out.new) result
        (inputs_text (valuation_of at.now) first inputs.now kinds.now) }
{
    for (number, kind) in kinds.iter().enumerate() {
        write_input(at, first, inputs, number, *kind, out)?;
    }
    Ok(())
}

/// A local, by its number.
fn write_local<S: Sink>(
    at: &Solution,
    first: u32,
    locals: &[Decl],
    before: usize,
    number: usize,
    value: &Value,
    out: &mut S,
) -> Result<(), SinkFailed>
    requires first { first ≤ 64 }
    requires before { before ≤ INPUTS }
    requires number { number ≤ 64 }
    ensures { Wrote (S.seen out.old) (S.seen out.new) result
        (local_text (valuation_of at.now) first locals.now before number value.now) }
{
    write_piece(opening(before + number), out)?;
    write_named(
        at,
        local_bytes(locals, number),
        kind_of(value),
        place_of(first, number),
        out,
    )
}

/// Each local, after so many inputs.
fn write_locals<S: Sink>(
    at: &Solution,
    first: u32,
    locals: &[Decl],
    before: usize,
    values: &[Value],
    out: &mut S,
) -> Result<(), SinkFailed>
    requires first { first ≤ 64 }
    requires before { before ≤ INPUTS }
    requires few { length values.now ≤ LOCALS }
    ensures { Wrote (S.seen out.old) (S.seen out.new) result
        (locals_text (valuation_of at.now) first locals.now before values.now) }
{
    for (number, value) in values.iter().enumerate() {
        write_local(at, first, locals, before, number, value, out)?;
    }
    Ok(())
}

/// `(n=3 left=1)`: the inputs and locals of a method, or nothing where it has none.
fn write_call<S: Sink>(
    tree: &MonitorTree,
    at: &Solution,
    further: u32,
    number: usize,
    method: &Method,
    out: &mut S,
) -> Result<(), SinkFailed>
    requires further { further ≤ FIRST_INPUT }
    requires inputs { length method.now.inputs ≤ INPUTS }
    requires locals { length method.now.locals ≤ LOCALS }
    ensures { Wrote (S.seen out.old) (S.seen out.new) result (call_text (valuation_of at.now)
        further (slice_get tree.now.methods number) method.now) }
{
    let (kinds, values) = (method.inputs.items(), method.locals.items());
    write_inputs(
        at,
        further + FIRST_INPUT,
        inputs_in(tree, number),
        kinds,
        out,
    )?;
    write_locals(
        at,
        further + FIRST_LOCAL,
        locals_in(tree, number),
        kinds.len(),
        values,
        out,
    )?;
    write_piece(closing(kinds.len() + values.len()), out)
}

/// The method of this number, where there is one.
fn method_at(monitor: &Monitor, number: usize) -> Option<&Method>
    ensures { option_copied result ≡ slice_get monitor.now.methods number }
{
    monitor.methods().get(number)
}

/// The same, by the method's number, or nothing where there is none.
fn write_method<S: Sink>(
    tree: &MonitorTree,
    monitor: &Monitor,
    at: &Solution,
    further: u32,
    number: usize,
    out: &mut S,
) -> Result<(), SinkFailed>
    requires { further ≤ FIRST_INPUT }
    ensures { Wrote (S.seen out.old) (S.seen out.new) result
        (method_text tree.now monitor.now (valuation_of at.now) further number) }
{
    let _blocks = monitor.blocks();
    match method_at(monitor, number) {
        Some(method) => write_call(tree, at, further, number, method, out),
        None => write_piece(b"", out),
    }
}

/// The same of the method of a block.
fn write_client<S: Sink>(
    tree: &MonitorTree,
    monitor: &Monitor,
    at: &Solution,
    further: u32,
    block: Option<&Block>,
    out: &mut S,
) -> Result<(), SinkFailed>
    requires { further ≤ FIRST_INPUT }
    ensures { Wrote (S.seen out.old) (S.seen out.new) result (client_text tree.now monitor.now
        (valuation_of at.now) further (option_copied block.entry)) }
{
    match block {
        Some(held) => write_method(tree, monitor, at, further, held.method as usize, out),
        None => write_piece(b"", out),
    }
}

// ---- blocks and conditions

/// The block of this number, where there is one.
fn block_at(monitor: &Monitor, number: usize) -> Option<&Block>
    ensures { option_copied result ≡ slice_get monitor.now.blocks number }
{
    monitor.blocks().get(number)
}

/// Writes a block that runs, with its inputs and locals: `put(n=3)`. It takes no memory.
///
/// After `SinkFailed` the first bytes of the text were taken, fewer than all and maybe none.
pub fn write_running<S: Sink>(
    tree: &MonitorTree,
    monitor: &Monitor,
    at: &Solution,
    block: u32,
    out: &mut S,
) -> Result<(), SinkFailed>
    ensures { Wrote (S.seen out.old) (S.seen out.new) result
        (running_text tree.now monitor.now (valuation_of at.now) block) }
{
    write_block_name(monitor, block as usize, out)?;
    write_client(tree, monitor, at, 0, block_at(monitor, block as usize), out)
}

/// The first block that waits at the condition.
fn first_block(blocks: &[Block], condition: u32) -> Option<&Block>
    ensures { option_copied result ≡ find (waits_at condition) blocks.now }
{
    blocks.iter().find(|block| block.condition == condition)
}

/// Whether the monitor has this condition, and its guard reads no inputs.
fn reads_none(monitor: &Monitor, condition: u32) -> bool
    ensures { result ≡ reads_none monitor.now condition }
{
    match monitor
        .conditions()
        .get((condition as usize).saturating_sub(1))
    {
        None => false,
        Some(held) => !held.reads_inputs,
    }
}

/// The inputs and locals of a client that waits at the condition, where its guard reads such.
fn write_waiting_client<S: Sink>(
    tree: &MonitorTree,
    monitor: &Monitor,
    at: &Solution,
    condition: u32,
    out: &mut S,
) -> Result<(), SinkFailed>
    ensures { Wrote (S.seen out.old) (S.seen out.new) result
        (waiting_client_text tree.now monitor.now (valuation_of at.now) condition) }
{
    if reads_none(monitor, condition) {
        return write_piece(b"", out);
    }
    write_client(
        tree,
        monitor,
        at,
        FIRST_INPUT,
        first_block(monitor.blocks(), condition),
        out,
    )
}

/// A number.
pub(crate) fn write_number<S: Sink>(number: u32, out: &mut S) -> Result<(), SinkFailed>
    ensures { Wrote (S.seen out.old) (S.seen out.new) result (decimal number) }
{
    let mut digits = Buffer::new();
    write_piece(digits.format(number).as_bytes(), out)
}

/// `2(k=4)`: a condition.
pub(crate) fn write_waiting<S: Sink>(
    tree: &MonitorTree,
    monitor: &Monitor,
    at: &Solution,
    condition: u32,
    out: &mut S,
) -> Result<(), SinkFailed>
    ensures { Wrote (S.seen out.old) (S.seen out.new) result
        (waiting_text tree.now monitor.now (valuation_of at.now) condition) }
{
    write_number(condition, out)?;
    write_waiting_client(tree, monitor, at, condition, out)
}
