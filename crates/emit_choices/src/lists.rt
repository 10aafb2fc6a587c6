//! The parameters of a monitor in a row.

ghost use Rattle.std.specs.Prelude.{◌≡◌, ◌||◌, ◌++◌, codes};
ghost use Rattle.emit_names.specs.Names.{member_name};
ghost use Rattle.emit_names.specs.declared.style.Style.TheVariants as styles;
ghost use Rattle.emit_choices.specs.Lists.{item_text, items_text, parameter_text, parameters_text};
ghost use Rattle.emit_choices.specs.Lists.{sign_before, sign_between, test_text};
ghost use Rattle.base_io.specs.Writing.{Wrote};

use crate::declared::write_literal;
use base_io::{Sink, SinkFailed, write_piece};
use emit_names::{Style, is_parameter, write_member};
use lang_base::Name;
use lang_printer::limit_sign_bytes;
use lang_tree::{Decl, LimitTree, MonitorTree};

/// What is written of each parameter: what a function takes, `cap: i64`; what it is given, `cap`;
/// its test, `cap >= 1`; or its condition as the monitor has it, `CAP >= 1`.
#[derive(Clone, Copy)]
pub(crate) enum Form {
    Taken,
    Given,
    Tested,
    Shown,
}

/// Writes the parameters of a monitor, in file order.
pub(crate) fn write_parameters<S: Sink>(
    form: Form,
    tree: &MonitorTree,
    out: &mut S,
) -> Result<(), SinkFailed>
    ensures { Wrote (S.seen out.old) (S.seen out.new) result (parameters_text form tree.now) }
{
    write_items(form, tree, false, tree.decls.items(), out)
}

// Those among these declarations, by whether one stands before them.
fn write_items<S: Sink>(
    form: Form,
    tree: &MonitorTree,
    begun: bool,
    declared: &[Decl],
    out: &mut S,
) -> Result<(), SinkFailed>
    ensures { Wrote (S.seen out.old) (S.seen out.new) result
        (items_text form tree.now begun declared.now) }
{
    let [one, more @ ..] = declared else {
        return Ok(());
    };
    write_item(form, tree, begun, one, out)?;
    write_items(form, tree, either(begun, is_parameter(one)), more, out)
}

fn either(one: bool, other: bool) -> bool
    ensures { result ≡ (one || other) }
{
    one || other
}

// Nothing for other declarations.
fn write_item<S: Sink>(
    form: Form,
    tree: &MonitorTree,
    begun: bool,
    declared: &Decl,
    out: &mut S,
) -> Result<(), SinkFailed>
    ensures { Wrote (S.seen out.old) (S.seen out.new) result
        (item_text form tree.now begun declared.now) }
{
    match declared {
        Decl::Const { .. } => Ok(()),
        Decl::Param { name, limit, .. } => write_next(form, tree, begun, name, limit, out),
        Decl::Int { .. } => Ok(()),
        Decl::Copied { .. } => Ok(()),
        Decl::Flag { .. } => Ok(()),
    }
}

fn write_next<S: Sink>(
    form: Form,
    tree: &MonitorTree,
    begun: bool,
    name: &Name,
    limit: &LimitTree,
    out: &mut S,
) -> Result<(), SinkFailed>
    ensures { Wrote (S.seen out.old) (S.seen out.new) result
        (sign_before form begun ++ parameter_text form tree.now name.now limit.now) }
{
    write_piece(sign_before(form, begun), out)?;
    write_parameter(form, tree, name, limit, out)
}

// What stands before one, by whether another does.
fn sign_before(form: Form, begun: bool) -> &'static [u8]
    ensures { result.now ≡ sign_before form begun }
{
    if begun { sign_between(form) } else { b"" }
}

fn sign_between(form: Form) -> &'static [u8]
    ensures { result.now ≡ sign_between form }
{
    match form {
        Form::Taken => b", ",
        Form::Given => b", ",
        Form::Tested => b" && ",
        Form::Shown => b" && ",
    }
}

fn write_parameter<S: Sink>(
    form: Form,
    tree: &MonitorTree,
    name: &Name,
    limit: &LimitTree,
    out: &mut S,
) -> Result<(), SinkFailed>
    ensures { Wrote (S.seen out.old) (S.seen out.new) result
        (parameter_text form tree.now name.now limit.now) }
{
    match form {
        Form::Taken => write_taken(tree, name, out),
        Form::Given => write_member(tree, Style::Snake, name, out),
        Form::Tested => write_tested(tree, name, limit, out),
        Form::Shown => write_shown(name, limit, out),
    }
}

// `cap: i64`
fn write_taken<S: Sink>(tree: &MonitorTree, name: &Name, out: &mut S) -> Result<(), SinkFailed>
    ensures { Wrote (S.seen out.old) (S.seen out.new) result
        (member_name tree.now styles.Snake name.now ++ codes ": i64") }
{
    write_member(tree, Style::Snake, name, out)?;
    write_piece(b": i64", out)
}

// `cap >= 1`
fn write_tested<S: Sink>(
    tree: &MonitorTree,
    name: &Name,
    limit: &LimitTree,
    out: &mut S,
) -> Result<(), SinkFailed>
    ensures { Wrote (S.seen out.old) (S.seen out.new) result
        (member_name tree.now styles.Snake name.now ++ test_text limit.now) }
{
    write_member(tree, Style::Snake, name, out)?;
    write_test(limit, out)
}

// `CAP >= 1`
fn write_shown<S: Sink>(name: &Name, limit: &LimitTree, out: &mut S) -> Result<(), SinkFailed>
    ensures { Wrote (S.seen out.old) (S.seen out.new) result (name.now ++ test_text limit.now) }
{
    write_piece(name.bytes(), out)?;
    write_test(limit, out)
}

// ` >= 1`
fn write_test<S: Sink>(limit: &LimitTree, out: &mut S) -> Result<(), SinkFailed>
    ensures { Wrote (S.seen out.old) (S.seen out.new) result (test_text limit.now) }
{
    write_piece(limit_sign_bytes(limit.sign), out)?;
    write_literal(limit.bound, out)
}
