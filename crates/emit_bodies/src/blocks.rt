//! What the functions of blocks are called, and what they take beside the state.

ghost use Rattle.std.specs.Prelude.{◌≡◌, ◌++◌, codes};
ghost use Rattle.std.specs.List.{flat_map};
ghost use Rattle.emit_bodies.specs.Blocks.{all_inputs_text, block_mark, block_name, inputs_text};
ghost use Rattle.emit_bodies.specs.Blocks.{kind_declared, kind_text, lending_text};
ghost use Rattle.emit_bodies.specs.Blocks.{local_text, parameter_text, taken_text};
ghost use Rattle.base_io.specs.Writing.{Wrote};

use base_io::{Sink, SinkFailed, write_piece, write_pieces};
use emit_expressions::Reach;
use emit_names::{Style, write_input, write_member};
use itoa::Buffer;
use lang_base::{Kind, Name, Named};
use lang_tree::{Decl, InputTree, MethodTree, MonitorTree};

// ---- what a block of a method is called, after a word

/// Writes what a block of a method is called after a word, by its number, from 1, among those of
/// the method: `can_put`, or `can2_pair`. It takes no memory.
///
/// After `SinkFailed` the first bytes were taken, fewer than all and maybe none.
pub fn write_block_name<S: Sink>(
    tree: &MonitorTree,
    method: &MethodTree,
    word: &[u8],
    number: usize,
    out: &mut S,
) -> Result<(), SinkFailed>
    ensures { Wrote (S.seen out.old) (S.seen out.new) result
        (block_name tree.now method.now word.now number) }
{
    write_word(word, number, out)?;
    write_member(tree, Style::Snake, &method.name, out)
}

fn write_word<S: Sink>(word: &[u8], number: usize, out: &mut S) -> Result<(), SinkFailed>
    ensures { Wrote (S.seen out.old) (S.seen out.new) result
        (word.now ++ block_mark number ++ codes "_") }
{
    write_piece(word, out)?;
    write_mark(number, out)?;
    write_piece(b"_", out)
}

fn write_mark<S: Sink>(number: usize, out: &mut S) -> Result<(), SinkFailed>
    ensures { Wrote (S.seen out.old) (S.seen out.new) result (block_mark number) }
{
    if number <= 1 {
        return Ok(());
    }
    let mut digits = Buffer::new();
    write_piece(digits.format(number).as_bytes(), out)
}

// ---- what a function takes beside the state

/// Writes what a function takes beside the state, where that is reached.
pub(crate) fn write_inputs<S: Sink>(
    method: &MethodTree,
    reach: Reach,
    out: &mut S,
) -> Result<(), SinkFailed>
    ensures { Wrote (S.seen out.old) (S.seen out.new) result (inputs_text method.now reach) }
{
    match reach {
        Reach::Unread => Ok(()),
        Reach::Held => write_all_inputs(method, Reach::Held, out),
        Reach::Lent => write_all_inputs(method, Reach::Lent, out),
    }
}

fn write_all_inputs<S: Sink>(
    method: &MethodTree,
    reach: Reach,
    out: &mut S,
) -> Result<(), SinkFailed>
    ensures { Wrote (S.seen out.old) (S.seen out.new) result (all_inputs_text method.now reach) }
{
    write_parameters(method, method.inputs.items(), out)?;
    write_locals(method, reach, method.locals.items(), out)
}

/// Writes these parameters of a method, each after a comma. It takes no memory.
///
/// After `SinkFailed` the first bytes were taken, fewer than all and maybe none.
pub fn write_parameters<S: Sink>(
    method: &MethodTree,
    inputs: &[InputTree],
    out: &mut S,
) -> Result<(), SinkFailed>
    ensures { Wrote (S.seen out.old) (S.seen out.new) result
        (flat_map (parameter_text method.now) inputs.now) }
{
    for input in inputs {
        write_parameter(method, input, out)?;
    }
    Ok(())
}

fn write_parameter<S: Sink>(
    method: &MethodTree,
    input: &InputTree,
    out: &mut S,
) -> Result<(), SinkFailed>
    ensures { Wrote (S.seen out.old) (S.seen out.new) result (parameter_text method.now input.now) }
{
    write_taken(method, &input.name, input.kind, b"", out)
}

fn write_locals<S: Sink>(
    method: &MethodTree,
    reach: Reach,
    locals: &[Decl],
    out: &mut S,
) -> Result<(), SinkFailed>
    ensures { Wrote (S.seen out.old) (S.seen out.new) result
        (flat_map (local_text method.now reach) locals.now) }
{
    for local in locals {
        write_local(method, reach, local, out)?;
    }
    Ok(())
}

fn write_local<S: Sink>(
    method: &MethodTree,
    reach: Reach,
    local: &Decl,
    out: &mut S,
) -> Result<(), SinkFailed>
    ensures { Wrote (S.seen out.old) (S.seen out.new) result
        (local_text method.now reach local.now) }
{
    let kind = kind_declared(local);
    write_taken(method, local.name(), kind, lending_bytes(reach), out)
}

// `, amount: i64`
fn write_taken<S: Sink>(
    method: &MethodTree,
    name: &Name,
    kind: Kind,
    lending: &'static [u8],
    out: &mut S,
) -> Result<(), SinkFailed>
    ensures { Wrote (S.seen out.old) (S.seen out.new) result
        (taken_text method.now name.now kind lending.now) }
{
    write_piece(b", ", out)?;
    write_input(method, name, out)?;
    write_pieces(&[b": ", lending, kind_bytes(kind)], out)
}

/// The kind of what is declared.
pub fn kind_declared(declared: &Decl) -> Kind
    ensures { result ≡ kind_declared declared.now }
{
    match declared {
        Decl::Flag { .. } => Kind::Bool,
        Decl::Const { .. } | Decl::Param { .. } | Decl::Int { .. } | Decl::Copied { .. } => {
            Kind::Int
        }
    }
}

/// The type of a kind.
pub fn kind_bytes(kind: Kind) -> &'static [u8]
    ensures { result.now ≡ kind_text kind }
{
    match kind {
        Kind::Int => b"i64",
        Kind::Bool => b"bool",
    }
}

/// What stands before a local that a body takes: it is lent to the body.
pub fn lending_bytes(reach: Reach) -> &'static [u8]
    ensures { result.now ≡ lending_text reach }
{
    match reach {
        Reach::Lent => b"&mut ",
        Reach::Held | Reach::Unread => b"",
    }
}
