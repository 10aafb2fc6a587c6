//! The fields of the structs of a module, a line each.

ghost use Rattle.std.specs.Prelude.{◌≡◌, ◌<◌, ◌≤◌, length};
ghost use Rattle.std.specs.List.{enumerate_from, flat_map};
ghost use Rattle.lang_base.specs.Limits.{CONDITIONS};
ghost use Rattle.base_io.specs.Writing.{Wrote};
ghost use Rattle.emit_statements.specs.Sources.{seen};
ghost use Rattle.emit_module.specs.Modules.{field_line, field_text, waited_field};
ghost use Rattle.emit_module.specs.inner.Lines.{condition_at, condition_line_at, copied_count};

use base_io::{Sink, SinkFailed, write_piece, write_pieces};
use emit_bodies::{kind_bytes, kind_declared};
use emit_choices::is_field;
use emit_names::{Style, write_member};
use emit_statements::{Source, is_always, write_around_count, write_around_name};
use lang_base::Named;
use lang_monitor::Condition;
use lang_tree::{Decl, MonitorTree};

/// What a line of a condition says: of its condition variable, or of how many sleep on it, as a
/// field or at its start, or in a copy.
#[derive(Clone, Copy)]
pub(crate) enum ConditionLine {
    Variable,
    NewVariable,
    Count,
    NewCount,
    CopiedCount,
}

// ---- the fields of the state

/// Writes the lines of the fields of the state.
pub(crate) fn write_fields<S: Sink>(
    tree: &MonitorTree,
    declared: &[Decl],
    out: &mut S,
) -> Result<(), SinkFailed>
    ensures { Wrote (S.seen out.old) (S.seen out.new) result
        (flat_map (field_line tree.now) declared.now) }
{
    for one in declared {
        write_line(tree, one, out)?;
    }
    Ok(())
}

// Nothing for a constant.
fn write_line<S: Sink>(tree: &MonitorTree, declared: &Decl, out: &mut S) -> Result<(), SinkFailed>
    ensures { Wrote (S.seen out.old) (S.seen out.new) result (field_line tree.now declared.now) }
{
    if !is_field(declared) {
        return Ok(());
    }
    write_field(tree, declared, out)
}

// `count: i64,`
fn write_field<S: Sink>(tree: &MonitorTree, declared: &Decl, out: &mut S) -> Result<(), SinkFailed>
    ensures { Wrote (S.seen out.old) (S.seen out.new) result (field_text tree.now declared.now) }
{
    write_piece(b"    ", out)?;
    write_member(tree, Style::Snake, declared.name(), out)?;
    write_piece(b": ", out)?;
    write_piece(kind_bytes(kind_declared(declared)), out)?;
    write_piece(b",\n", out)
}

// ---- the lines of conditions

/// Writes the lines of the conditions of a monitor on which someone may wait.
pub(crate) fn write_conditions<S: Sink>(
    line: ConditionLine,
    source: &Source,
    conditions: &[Condition],
    out: &mut S,
) -> Result<(), SinkFailed>
    requires { length conditions.now ≤ CONDITIONS }
    ensures { Wrote (S.seen out.old) (S.seen out.new) result
        (flat_map (λ one. condition_line_at line (seen source.now) one.0 one.1)
        (enumerate_from 0 conditions.now)) }
{
    for (place, which) in conditions.iter().enumerate() {
        write_condition_line(line, source, place, which, out)?;
    }
    Ok(())
}

// Nothing where no one waits on the condition.
fn write_condition_line<S: Sink>(
    line: ConditionLine,
    source: &Source,
    place: usize,
    which: &Condition,
    out: &mut S,
) -> Result<(), SinkFailed>
    requires { place < CONDITIONS }
    ensures { Wrote (S.seen out.old) (S.seen out.new) result
        (condition_line_at line (seen source.now) place which.now) }
{
    if is_always(&which.guard) {
        return Ok(());
    }
    write_condition(line, source, place, which, out)
}

fn write_condition<S: Sink>(
    line: ConditionLine,
    source: &Source,
    place: usize,
    which: &Condition,
    out: &mut S,
) -> Result<(), SinkFailed>
    requires { place < CONDITIONS }
    ensures { Wrote (S.seen out.old) (S.seen out.new) result
        (condition_at line (seen source.now) place which.now) }
{
    let number = place as u32 + 1;
    match line {
        ConditionLine::Variable => write_waited_field(source, place, which, out),
        ConditionLine::NewVariable => {
            write_around_name(source, b"            ", number, b": Condvar::new(),\n", out)
        }
        ConditionLine::Count => write_around_count(source, b"    ", number, b": usize,\n", out),
        ConditionLine::NewCount => {
            write_around_count(source, b"                ", number, b": 0,\n", out)
        }
        ConditionLine::CopiedCount => write_copied_count(source, number, out),
    }
}

fn write_copied_count<S: Sink>(source: &Source, number: u32, out: &mut S) -> Result<(), SinkFailed>
    ensures { Wrote (S.seen out.old) (S.seen out.new) result
        (copied_count (seen source.now) number) }
{
    write_around_count(source, b"            ", number, b"", out)?;
    write_around_count(source, b": self.", number, b",\n", out)
}

fn write_waited_field<S: Sink>(
    source: &Source,
    place: usize,
    which: &Condition,
    out: &mut S,
) -> Result<(), SinkFailed>
    requires { place < CONDITIONS }
    ensures { Wrote (S.seen out.old) (S.seen out.new) result
        (waited_field (seen source.now) place which.now) }
{
    let shown = which.shown.items();
    write_pieces(
        &[b"    /// For calls that wait until `", shown, b"`.\n"],
        out,
    )?;
    write_around_name(source, b"    ", place as u32 + 1, b": Condvar,\n", out)
}
