//! What conditions are called, and what a call hands on.

ghost use Rattle.std.specs.Prelude.{◌≡◌, ◌+◌, ◌<◌, ◌^◌, [], length};
ghost use Rattle.std.specs.List.{enumerate_from, flat_map};
ghost use Rattle.base_io.specs.Writing.{Wrote};
ghost use Rattle.emit_statements.specs.Sources.{seen};
ghost use Rattle.emit_statements.specs.Conditions.{arguments_text, around_count, around_name};
ghost use Rattle.emit_statements.specs.Conditions.{comma_text, condition_name, count_name};
ghost use Rattle.emit_statements.specs.Conditions.{handed_local, handed_parameter, name_in};
ghost use Rattle.emit_statements.specs.Conditions.{name_of, word_name};

use crate::source::{Source, first_block, first_of};
use base_io::{Sink, SinkFailed, write_piece, write_pieces};
use emit_bodies::{lending_bytes, write_block_name};
use emit_expressions::Reach;
use emit_names::write_input;
use lang_base::Named;
use lang_tree::{Decl, InputTree, MethodTree};

/// Writes what a block is called after a word, by its number in the monitor.
pub(crate) fn write_name_of<S: Sink>(
    source: &Source,
    word: &[u8],
    block: usize,
    out: &mut S,
) -> Result<(), SinkFailed>
    ensures { Wrote (S.seen out.old) (S.seen out.new) result
        (name_of (seen source.now) word.now block) }
{
    let blocks = source.monitor.blocks();
    match blocks.get(block) {
        Some(held) => write_name_in(source, word, block, held.method as usize, out),
        None => Ok(()),
    }
}

// A block of the method of this number.
fn write_name_in<S: Sink>(
    source: &Source,
    word: &[u8],
    block: usize,
    number: usize,
    out: &mut S,
) -> Result<(), SinkFailed>
    requires { block < 2 ^ 63 }
    ensures { Wrote (S.seen out.old) (S.seen out.new) result
        (name_in (seen source.now) word.now block number) }
{
    let place = (block + 1).saturating_sub(first_of(source.monitor, number) as usize);
    match source.tree.methods.items().get(number) {
        Some(method) => write_block_name(source.tree, method, word, place, out),
        None => Ok(()),
    }
}

// What is called after the first block of a condition, after a word.
fn write_word_name<S: Sink>(
    source: &Source,
    word: &[u8],
    condition: u32,
    out: &mut S,
) -> Result<(), SinkFailed>
    ensures { Wrote (S.seen out.old) (S.seen out.new) result
        (word_name (seen source.now) word.now condition) }
{
    match first_block(source.monitor, condition) {
        Some(block) => write_name_of(source, word, block, out),
        None => Ok(()),
    }
}

// A condition's condition variable, and the test of its guard.
fn write_condition_name<S: Sink>(
    source: &Source,
    condition: u32,
    out: &mut S,
) -> Result<(), SinkFailed>
    ensures { Wrote (S.seen out.old) (S.seen out.new) result
        (condition_name (seen source.now) condition) }
{
    write_word_name(source, b"can", condition, out)
}

// How many sleep on a condition.
fn write_count_name<S: Sink>(source: &Source, condition: u32, out: &mut S) -> Result<(), SinkFailed>
    ensures { Wrote (S.seen out.old) (S.seen out.new) result
        (count_name (seen source.now) condition) }
{
    write_word_name(source, b"asleep", condition, out)
}

/// Writes the name of a condition's condition variable between two pieces. It takes no memory.
///
/// After `SinkFailed` the first bytes were taken, fewer than all and maybe none.
pub fn write_around_name<S: Sink>(
    source: &Source,
    before: &[u8],
    condition: u32,
    after: &[u8],
    out: &mut S,
) -> Result<(), SinkFailed>
    ensures { Wrote (S.seen out.old) (S.seen out.new) result
        (around_name (seen source.now) before.now condition after.now) }
{
    write_piece(before, out)?;
    write_condition_name(source, condition, out)?;
    write_piece(after, out)
}

/// Writes the name of the count of those that sleep on a condition between two pieces. It takes no
/// memory.
///
/// After `SinkFailed` the first bytes were taken, fewer than all and maybe none.
pub fn write_around_count<S: Sink>(
    source: &Source,
    before: &[u8],
    condition: u32,
    after: &[u8],
    out: &mut S,
) -> Result<(), SinkFailed>
    ensures { Wrote (S.seen out.old) (S.seen out.new) result
        (around_count (seen source.now) before.now condition after.now) }
{
    write_piece(before, out)?;
    write_count_name(source, condition, out)?;
    write_piece(after, out)
}

// ---- what a call hands on

/// Writes what a call of a function of a block hands on: parameters, and locals after what lends
/// them.
pub(crate) fn write_arguments<S: Sink>(
    method: &MethodTree,
    reach: Reach,
    out: &mut S,
) -> Result<(), SinkFailed>
    ensures { Wrote (S.seen out.old) (S.seen out.new) result (arguments_text method.now reach) }
{
    write_handed_parameters(method, method.inputs.items(), out)?;
    write_handed_locals(method, reach, method.locals.items(), out)
}

/// Writes the names of the parameters of a method, with commas between them. It takes no memory.
///
/// After `SinkFailed` the first bytes were taken, fewer than all and maybe none.
pub fn write_handed_parameters<S: Sink>(
    method: &MethodTree,
    inputs: &[InputTree],
    out: &mut S,
) -> Result<(), SinkFailed>
    ensures { Wrote (S.seen out.old) (S.seen out.new) result
        (flat_map (λ one. handed_parameter method.now one.0 one.1) (enumerate_from 0 inputs.now)) }
{
    for (before, input) in inputs.iter().enumerate() {
        write_handed_parameter(method, before, input, out)?;
    }
    Ok(())
}

fn write_handed_parameter<S: Sink>(
    method: &MethodTree,
    before: usize,
    input: &InputTree,
    out: &mut S,
) -> Result<(), SinkFailed>
    ensures { Wrote (S.seen out.old) (S.seen out.new) result
        (handed_parameter method.now before input.now) }
{
    write_piece(comma_bytes(before), out)?;
    write_input(method, &input.name, out)
}

fn write_handed_locals<S: Sink>(
    method: &MethodTree,
    reach: Reach,
    locals: &[Decl],
    out: &mut S,
) -> Result<(), SinkFailed>
    ensures { Wrote (S.seen out.old) (S.seen out.new) result
        (flat_map (λ one. handed_local method.now reach one.0 one.1)
        (enumerate_from 0 locals.now)) }
{
    for (before, local) in locals.iter().enumerate() {
        write_handed_local(method, reach, before, local, out)?;
    }
    Ok(())
}

fn write_handed_local<S: Sink>(
    method: &MethodTree,
    reach: Reach,
    before: usize,
    local: &Decl,
    out: &mut S,
) -> Result<(), SinkFailed>
    requires { before < 2 ^ 63 }
    ensures { Wrote (S.seen out.old) (S.seen out.new) result
        (handed_local method.now reach before local.now) }
{
    let inputs = method.inputs.items().len();
    write_pieces(&[comma_bytes(inputs + before), lending_bytes(reach)], out)?;
    write_input(method, local.name(), out)
}

/// What stands before an argument, after so many others.
pub fn comma_bytes(before: usize) -> &'static [u8]
    ensures { result.now ≡ comma_text before }
{
    if before == 0 { b"" } else { b", " }
}
