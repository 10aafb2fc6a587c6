//! What the program prints of words and of one monitor, written whole to a sink and handed on, with
//! the status that it comes to. No writer takes memory.

ghost use Rattle.machine_events.specs.PlanText.{plan_text};
ghost use Rattle.lang_printer.specs.Canonical.{tree_text};
ghost use Rattle.emit_module.specs.Modules.{rust_text};
ghost use Rattle.expresso_answers.specs.Texts.{usage_text, version_text};
ghost use Rattle.expresso_answers.specs.Ending.{IsWritten};

use base_io::{Sink, write_pieces};
use emit_module::{version_bytes, write_rust};
use expresso_answers::{Status, finish};
use lang_monitor::Monitor;
use lang_printer::print_monitor;
use lang_tree::MonitorTree;
use machine_events::Plan;
use report_text::write_plan;

/// Writes the usage.
pub(crate) fn show_usage<S: Sink>(out: &mut S) -> Status
    ensures { IsWritten Status.Usage usage_text result (S.seen out.old) (S.seen out.new) }
{
    let outcome = write_pieces(
        &[
            b"usage:\n",
            b"expresso check FILE\n",
            b"expresso turns FILE CLIENTS\n",
            b"expresso compile FILE [--count] [--relay]\n",
            b"expresso simulate FILE CLIENTS [--seed N] [--spurious K] [--count] [--relay]\n",
            b"expresso run FILE CLIENTS [--workers N] [--count] [--relay]\n",
            b"expresso stress N [--workers N]\n",
            b"expresso report FILE [--count] [--fits]\n",
            b"expresso recheck FILE REPORT\n",
            b"expresso block FILE CLIENTS [--count]\n",
            b"expresso audit FILE PLAN [--count]\n",
            b"expresso explain FILE [--count] [--fits]\n",
            b"expresso emit FILE\n",
            b"expresso --version\n",
        ],
        out,
    );
    finish(Status::Usage, outcome, out)
}

/// Writes the program's name and version.
pub(crate) fn show_version<S: Sink>(out: &mut S) -> Status
    ensures { IsWritten Status.Done version_text result (S.seen out.old) (S.seen out.new) }
{
    let outcome = write_pieces(&[b"expresso ", version_bytes(), b"\n"], out);
    finish(Status::Done, outcome, out)
}

/// Writes the canonical form of a tree.
pub(crate) fn show_tree<S: Sink>(tree: &MonitorTree, out: &mut S) -> Status
    ensures { IsWritten Status.Done (tree_text tree.now) result
        (S.seen out.old) (S.seen out.new) }
{
    let outcome = print_monitor(tree, out);
    finish(Status::Done, outcome, out)
}

/// Writes a plan of a monitor.
pub(crate) fn show_plan<S: Sink>(monitor: &Monitor, plan: &Plan, out: &mut S) -> Status
    ensures { IsWritten Status.Done (plan_text monitor.now plan.now) result
        (S.seen out.old) (S.seen out.new) }
{
    let outcome = write_plan(monitor, plan, out);
    finish(Status::Done, outcome, out)
}

/// Writes the Rust module of a monitor under a plan, with the comments of its file's bytes, and
/// with these of its blocks whole.
pub(crate) fn show_module<S: Sink>(
    bytes: &[u8],
    tree: &MonitorTree,
    monitor: &Monitor,
    plan: &Plan,
    whole: &[bool],
    out: &mut S,
) -> Status
    ensures { IsWritten Status.Done (rust_text bytes.now tree.now monitor.now plan.now whole.now)
        result (S.seen out.old) (S.seen out.new) }
{
    let outcome = write_rust(bytes, tree, monitor, plan, whole, out);
    finish(Status::Done, outcome, out)
}
