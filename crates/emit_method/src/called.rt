//! What methods are called.

ghost use Rattle.std.specs.Prelude.{◌≡◌, ◌++◌, codes};
ghost use Rattle.base_io.specs.Writing.{Wrote};
ghost use Rattle.emit_statements.specs.Statements.{method_seen};
ghost use Rattle.emit_method.specs.Called.{called_text, name_of, plain_called, plain_name};
ghost use Rattle.emit_method.specs.Called.{work_name};

use base_io::{Sink, SinkFailed, write_piece};
use emit_names::{
    Ending, Style, write_ended_name, write_member, write_try_name, write_try_with_name,
};
use emit_statements::{Calls, Way};
use lang_base::Name;
use lang_tree::MonitorTree;

/// Writes what a method is called, with the type of what its function answers, where it has one.
pub(crate) fn write_called<S: Sink>(it: &Calls, out: &mut S) -> Result<(), SinkFailed>
    ensures { Wrote (S.seen out.old) (S.seen out.new) result (called_text (method_seen it.now)) }
{
    if !it.works {
        return write_plain_called(it, out);
    }
    write_generic(it, out)
}

/// Writes the name of the method without a function.
pub(crate) fn write_plain_called<S: Sink>(it: &Calls, out: &mut S) -> Result<(), SinkFailed>
    ensures { Wrote (S.seen out.old) (S.seen out.new) result (plain_called (method_seen it.now)) }
{
    write_plain_name(it.source.tree, &it.method.name, it.way, out)
}

// With the type of what its function answers.
fn write_generic<S: Sink>(it: &Calls, out: &mut S) -> Result<(), SinkFailed>
    ensures { Wrote (S.seen out.old) (S.seen out.new) result
        (work_name it.now.source.now.tree.now it.now.method.now.name it.now.way ++ codes "<R>") }
{
    write_work_name(it.source.tree, &it.method.name, it.way, out)?;
    write_piece(b"<R>", out)
}

/// Writes the name of a method for calls of this way, with a function or with none.
pub(crate) fn write_name_of<S: Sink>(it: &Calls, way: Way, out: &mut S) -> Result<(), SinkFailed>
    ensures { Wrote (S.seen out.old) (S.seen out.new) result (name_of (method_seen it.now) way) }
{
    if !it.works {
        return write_plain_name(it.source.tree, &it.method.name, way, out);
    }
    write_work_name(it.source.tree, &it.method.name, way, out)
}

fn write_plain_name<S: Sink>(
    tree: &MonitorTree,
    name: &Name,
    way: Way,
    out: &mut S,
) -> Result<(), SinkFailed>
    ensures { Wrote (S.seen out.old) (S.seen out.new) result (plain_name tree.now name.now way) }
{
    match way {
        Way::Waits | Way::Asserts => write_member(tree, Style::Snake, name, out),
        Way::Tries => write_try_name(tree, name, out),
        Way::Until => write_ended_name(tree, Ending::Until, name, out),
        Way::For => write_ended_name(tree, Ending::For, name, out),
    }
}

fn write_work_name<S: Sink>(
    tree: &MonitorTree,
    name: &Name,
    way: Way,
    out: &mut S,
) -> Result<(), SinkFailed>
    ensures { Wrote (S.seen out.old) (S.seen out.new) result (work_name tree.now name.now way) }
{
    match way {
        Way::Waits | Way::Asserts => write_ended_name(tree, Ending::With, name, out),
        Way::Tries => write_try_with_name(tree, name, out),
        Way::Until => write_ended_name(tree, Ending::UntilWith, name, out),
        Way::For => write_ended_name(tree, Ending::ForWith, name, out),
    }
}
