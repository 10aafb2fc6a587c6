//! The functions of a module that open its monitor.

ghost use Rattle.std.specs.Prelude.{◌++◌, codes};
ghost use Rattle.std.specs.List.{flat_map};
ghost use Rattle.emit_choices.specs.Openings.{admits_text, assert_text, choice_docs, chosen_data};
ghost use Rattle.emit_comments.specs.Comments.{comment_docs};
ghost use Rattle.emit_choices.specs.Openings.{chosen_new, new_text, parameter_docs};
ghost use Rattle.emit_choices.specs.Openings.{parameter_said, said_by, with_data_text};
ghost use Rattle.base_io.specs.Writing.{Wrote};

use crate::fixed::{
    admits_head, chosen_data_head, chosen_inner, chosen_new_head, new_bytes, with_data_bytes,
};
use crate::lists::{Form, write_parameters};
use base_io::{Sink, SinkFailed, write_piece};
use emit_comments::{has_comments, line_of, write_comments};
use emit_names::{has_parameters, write_type};
use lang_base::Name;
use lang_tree::{Decl, MonitorTree};

/// Writes the functions that open a monitor with no data, and the end of their `impl`, with the
/// comments of the text that its tree was read from. It takes no memory.
///
/// After `SinkFailed` the first bytes were taken, fewer than all and maybe none.
pub fn write_new<S: Sink>(text: &[u8], tree: &MonitorTree, out: &mut S) -> Result<(), SinkFailed>
    ensures { Wrote (S.seen out.old) (S.seen out.new) result (new_text text.now tree.now) }
{
    if has_parameters(tree) {
        return write_chosen(text, tree, out);
    }
    write_piece(new_bytes(), out)
}

fn write_chosen<S: Sink>(text: &[u8], tree: &MonitorTree, out: &mut S) -> Result<(), SinkFailed>
    ensures { Wrote (S.seen out.old) (S.seen out.new) result
        (admits_text tree.now ++ chosen_new text.now tree.now) }
{
    write_admits(tree, out)?;
    write_chosen_new(text, tree, out)
}

/// Writes the function that opens a monitor with data, up to the counts at their start. It takes no
/// memory.
///
/// After `SinkFailed` the first bytes were taken, fewer than all and maybe none.
pub fn write_with_data<S: Sink>(
    text: &[u8],
    tree: &MonitorTree,
    out: &mut S,
) -> Result<(), SinkFailed>
    ensures { Wrote (S.seen out.old) (S.seen out.new) result (with_data_text text.now tree.now) }
{
    if has_parameters(tree) {
        return write_chosen_data(text, tree, out);
    }
    write_piece(with_data_bytes(), out)
}

// ---- with parameters

fn write_admits<S: Sink>(tree: &MonitorTree, out: &mut S) -> Result<(), SinkFailed>
    ensures { Wrote (S.seen out.old) (S.seen out.new) result (admits_text tree.now) }
{
    write_piece(
        b"    /// Whether the monitor may have these parameters: whether `",
        out,
    )?;
    write_parameters(Form::Shown, tree, out)?;
    write_piece(admits_head(), out)?;
    write_parameters(Form::Taken, tree, out)?;
    write_piece(b") -> bool {\n        ", out)?;
    write_parameters(Form::Tested, tree, out)?;
    write_piece(b"\n    }\n\n", out)
}

fn write_chosen_new<S: Sink>(text: &[u8], tree: &MonitorTree, out: &mut S) -> Result<(), SinkFailed>
    ensures { Wrote (S.seen out.old) (S.seen out.new) result (chosen_new text.now tree.now) }
{
    write_piece(b"    /// The monitor at its start.\n", out)?;
    write_choice_docs(text, tree, out)?;
    write_piece(chosen_new_head(), out)?;
    write_parameters(Form::Taken, tree, out)?;
    write_piece(b") -> Self {\n        Self::with_data(", out)?;
    write_parameters(Form::Given, tree, out)?;
    write_piece(b", ())\n    }\n}\n\n", out)
}

fn write_chosen_data<S: Sink>(
    text: &[u8],
    tree: &MonitorTree,
    out: &mut S,
) -> Result<(), SinkFailed>
    ensures { Wrote (S.seen out.old) (S.seen out.new) result (chosen_data text.now tree.now) }
{
    write_piece(b"    /// The monitor at its start, with these data.\n", out)?;
    write_choice_docs(text, tree, out)?;
    write_piece(chosen_data_head(), out)?;
    write_parameters(Form::Taken, tree, out)?;
    write_piece(b", data: D) -> Self {\n", out)?;
    write_assert(tree, out)?;
    write_piece(chosen_inner(), out)?;
    write_parameters(Form::Given, tree, out)?;
    write_piece(b"),\n", out)
}

fn write_assert<S: Sink>(tree: &MonitorTree, out: &mut S) -> Result<(), SinkFailed>
    ensures { Wrote (S.seen out.old) (S.seen out.new) result (assert_text tree.now) }
{
    write_piece(b"        assert!(", out)?;
    write_type(tree, out)?;
    write_piece(b"::admits(", out)?;
    write_parameters(Form::Given, tree, out)?;
    write_piece(b"), \"", out)?;
    write_type(tree, out)?;
    write_piece(b" wants ", out)?;
    write_parameters(Form::Shown, tree, out)?;
    write_piece(b"\");\n", out)
}

// ---- what is said of parameters

fn write_choice_docs<S: Sink>(
    text: &[u8],
    tree: &MonitorTree,
    out: &mut S,
) -> Result<(), SinkFailed>
    ensures { Wrote (S.seen out.old) (S.seen out.new) result (choice_docs text.now tree.now) }
{
    write_docs(text, tree.decls.items(), out)?;
    write_piece(b"    ///\n    /// # Panics\n    ///\n    /// Where `", out)?;
    write_parameters(Form::Shown, tree, out)?;
    write_piece(
        b"` is false: then a `const` or a `static` does not compile.\n",
        out,
    )
}

fn write_docs<S: Sink>(text: &[u8], declared: &[Decl], out: &mut S) -> Result<(), SinkFailed>
    ensures { Wrote (S.seen out.old) (S.seen out.new) result
        (flat_map (parameter_docs text.now) declared.now) }
{
    for one in declared {
        write_parameter_docs(text, one, out)?;
    }
    Ok(())
}

// Nothing for other declarations.
fn write_parameter_docs<S: Sink>(
    text: &[u8],
    declared: &Decl,
    out: &mut S,
) -> Result<(), SinkFailed>
    ensures { Wrote (S.seen out.old) (S.seen out.new) result
        (parameter_docs text.now declared.now) }
{
    match declared {
        Decl::Const { .. } => Ok(()),
        Decl::Param { at, name, .. } => write_parameter_said(text, line_of(text, *at), name, out),
        Decl::Int { .. } => Ok(()),
        Decl::Copied { .. } => Ok(()),
        Decl::Flag { .. } => Ok(()),
    }
}

fn write_parameter_said<S: Sink>(
    text: &[u8],
    place: usize,
    name: &Name,
    out: &mut S,
) -> Result<(), SinkFailed>
    ensures { Wrote (S.seen out.old) (S.seen out.new) result
        (parameter_said text.now place name.now) }
{
    write_piece(b"    ///\n    /// The parameter `", out)?;
    write_piece(name.bytes(), out)?;
    write_said(text, place, has_comments(text, place), out)
}

// By whether comments stand above the line.
fn write_said<S: Sink>(text: &[u8], place: usize, says: bool, out: &mut S) -> Result<(), SinkFailed>
    ensures { Wrote (S.seen out.old) (S.seen out.new) result (said_by text.now place says) }
{
    if says {
        return write_comments_after(text, place, out);
    }
    write_piece(b"`.\n", out)
}

fn write_comments_after<S: Sink>(text: &[u8], place: usize, out: &mut S) -> Result<(), SinkFailed>
    ensures { Wrote (S.seen out.old) (S.seen out.new) result
        (codes "`:\n" ++ comment_docs (codes "    ") text.now place) }
{
    write_piece(b"`:\n", out)?;
    write_comments(b"    ", text, place, out)
}
