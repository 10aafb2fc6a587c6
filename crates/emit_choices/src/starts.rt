//! The state of a monitor at its start.

ghost use Rattle.std.specs.Prelude.{◌≡◌};
ghost use Rattle.std.specs.List.{flat_map, list_any};
ghost use Rattle.emit_choices.specs.Declarations.{is_field};
ghost use Rattle.emit_choices.specs.Starts.{brace_by, brace_text, chosen_starts, constant_starts};
ghost use Rattle.emit_choices.specs.Starts.{copied_value, field_start, own_value, source_by};
ghost use Rattle.emit_choices.specs.Starts.{start_line, starts_end, starts_end_by, starts_text};
ghost use Rattle.emit_choices.specs.Starts.{value_text};
ghost use Rattle.base_io.specs.Writing.{Wrote};

use crate::declared::{is_field, write_start};
use crate::lists::{Form, write_parameters};
use base_io::{Sink, SinkFailed, write_piece};
use emit_expressions::{any_is_constant, write_constant};
use emit_names::{Style, has_parameters, write_member};
use lang_base::{Name, Named};
use lang_tree::{Decl, MonitorTree};

/// Writes the state of a monitor at its start: a constant, or a function of its parameters. It
/// takes no memory.
///
/// After `SinkFailed` the first bytes were taken, fewer than all and maybe none.
pub fn write_starts<S: Sink>(tree: &MonitorTree, out: &mut S) -> Result<(), SinkFailed>
    ensures { Wrote (S.seen out.old) (S.seen out.new) result (starts_text tree.now) }
{
    if has_parameters(tree) {
        return write_chosen(tree, out);
    }
    write_fixed(tree, out)
}

fn write_fixed<S: Sink>(tree: &MonitorTree, out: &mut S) -> Result<(), SinkFailed>
    ensures { Wrote (S.seen out.old) (S.seen out.new) result (constant_starts tree.now) }
{
    write_piece(b"    const START: Self = Self ", out)?;
    write_brace(tree, out)?;
    write_lines(b"        ", tree, tree.decls.items(), out)?;
    write_end(tree, out)
}

fn write_chosen<S: Sink>(tree: &MonitorTree, out: &mut S) -> Result<(), SinkFailed>
    ensures { Wrote (S.seen out.old) (S.seen out.new) result (chosen_starts tree.now) }
{
    write_piece(b"    const fn start(", out)?;
    write_parameters(Form::Taken, tree, out)?;
    write_piece(b") -> Self {\n        Self {\n", out)?;
    write_lines(b"            ", tree, tree.decls.items(), out)?;
    write_piece(b"        }\n    }\n", out)
}

// ---- braces

/// Writes a brace, with lines after it where there are fields. It takes no memory.
///
/// After `SinkFailed` the first bytes were taken, fewer than all and maybe none.
pub fn write_brace<S: Sink>(tree: &MonitorTree, out: &mut S) -> Result<(), SinkFailed>
    ensures { Wrote (S.seen out.old) (S.seen out.new) result (brace_text tree.now) }
{
    write_piece(brace_bytes(has_field(tree.decls.items())), out)
}

fn has_field(declared: &[Decl]) -> bool
    ensures { result ≡ list_any is_field declared.now }
{
    declared.iter().any(|one| is_field(one))
}

fn brace_bytes(any: bool) -> &'static [u8]
    ensures { result.now ≡ brace_by any }
{
    if any { b"{\n" } else { b"{" }
}

fn write_end<S: Sink>(tree: &MonitorTree, out: &mut S) -> Result<(), SinkFailed>
    ensures { Wrote (S.seen out.old) (S.seen out.new) result (starts_end tree.now) }
{
    write_piece(end_bytes(has_field(tree.decls.items())), out)
}

fn end_bytes(any: bool) -> &'static [u8]
    ensures { result.now ≡ starts_end_by any }
{
    if any { b"    };\n" } else { b"};\n" }
}

// ---- fields

fn write_lines<S: Sink>(
    indent: &[u8],
    tree: &MonitorTree,
    declared: &[Decl],
    out: &mut S,
) -> Result<(), SinkFailed>
    ensures { Wrote (S.seen out.old) (S.seen out.new) result
        (flat_map (start_line indent.now tree.now) declared.now) }
{
    for one in declared {
        write_line(indent, tree, one, out)?;
    }
    Ok(())
}

// Nothing for a constant.
fn write_line<S: Sink>(
    indent: &[u8],
    tree: &MonitorTree,
    declared: &Decl,
    out: &mut S,
) -> Result<(), SinkFailed>
    ensures { Wrote (S.seen out.old) (S.seen out.new) result
        (start_line indent.now tree.now declared.now) }
{
    if is_field(declared) {
        return write_field(indent, tree, declared, out);
    }
    Ok(())
}

// `count: 0,`
fn write_field<S: Sink>(
    indent: &[u8],
    tree: &MonitorTree,
    declared: &Decl,
    out: &mut S,
) -> Result<(), SinkFailed>
    ensures { Wrote (S.seen out.old) (S.seen out.new) result
        (field_start indent.now tree.now declared.now) }
{
    write_piece(indent, out)?;
    write_member(tree, Style::Snake, declared.name(), out)?;
    write_value(tree, declared, out)?;
    write_piece(b",\n", out)
}

// A parameter has its name for its value.
fn write_value<S: Sink>(tree: &MonitorTree, declared: &Decl, out: &mut S) -> Result<(), SinkFailed>
    ensures { Wrote (S.seen out.old) (S.seen out.new) result (value_text tree.now declared.now) }
{
    match declared {
        Decl::Const { .. } => write_own(declared, out),
        Decl::Param { .. } => Ok(()),
        Decl::Int { .. } => write_own(declared, out),
        Decl::Copied { source, .. } => write_copied(tree, &source.name, out),
        Decl::Flag { .. } => write_own(declared, out),
    }
}

fn write_own<S: Sink>(declared: &Decl, out: &mut S) -> Result<(), SinkFailed>
    ensures { Wrote (S.seen out.old) (S.seen out.new) result (own_value declared.now) }
{
    write_piece(b": ", out)?;
    write_start(declared, out)
}

fn write_copied<S: Sink>(tree: &MonitorTree, name: &Name, out: &mut S) -> Result<(), SinkFailed>
    ensures { Wrote (S.seen out.old) (S.seen out.new) result (copied_value tree.now name.now) }
{
    write_piece(b": ", out)?;
    let constant = any_is_constant(tree.decls.items(), name.bytes());
    write_source(tree, name, constant, out)
}

// `Buffer::CAP`, or `cap`, which a parameter is.
fn write_source<S: Sink>(
    tree: &MonitorTree,
    name: &Name,
    constant: bool,
    out: &mut S,
) -> Result<(), SinkFailed>
    ensures { Wrote (S.seen out.old) (S.seen out.new) result
        (source_by tree.now name.now constant) }
{
    if constant {
        return write_constant(tree, name, out);
    }
    write_member(tree, Style::Snake, name, out)
}
