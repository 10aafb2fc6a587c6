//! The lines of blocks that may leave 64 bits.

ghost use Rattle.std.specs.Prelude.{◌≤◌, ◌++◌, codes, length};
ghost use Rattle.base_io.specs.Writing.{Wrote};
ghost use Rattle.base_pen.specs.Putting.{Adds};
ghost use Rattle.logic_solve.specs.Solutions.{valuation_of};
ghost use Rattle.report_reasons.specs.ReasonText.{fields_text, running_text};
ghost use Rattle.report_fits.specs.FitReasonTexts.{fit_reason_text, fit_reasons_text};
ghost use Rattle.report_fits.specs.FitReasonTexts.{leaves_text, undecided_text};
ghost use Rattle.report_fits.specs.FitTexts.{MOST_LINES};

use super::reasons::FitReason;
use base_io::{Sink, SinkFailed};
use base_pen::Pen;
use lang_monitor::Monitor;
use lang_tree::MonitorTree;
use logic_solve::Solution;
use report_proofs::put_block_name;
use report_reasons::{write_fields, write_running};

/// Writes a line for each block that isn't known to fit: `why fits put(n=3): count=4`, with values
/// with which it leaves 64 bits, or `why fits put: not decided`. It takes no memory.
///
/// After `SinkFailed` the first bytes of the text were taken, fewer than all and maybe none.
pub fn write_fit_reasons<S: Sink>(
    tree: &MonitorTree,
    monitor: &Monitor,
    found: &[FitReason],
    out: &mut S,
) -> Result<(), SinkFailed>
    requires { length found.now ≤ MOST_LINES }
    ensures { Wrote (S.seen out.old) (S.seen out.new) result
        (fit_reasons_text tree.now monitor.now found.now) }
{
    let mut pen = Pen::new(out);
    put_fit_reasons(tree, monitor, found, &mut pen);
    pen.outcome
}

fn put_fit_reasons<S: Sink>(
    tree: &MonitorTree,
    monitor: &Monitor,
    found: &[FitReason],
    pen: &mut Pen<'_, S>,
)
    requires { length found.now ≤ MOST_LINES }
    ensures { Adds S.seen pen.old pen.new (fit_reasons_text tree.now monitor.now found.now) }
{
    for index in 0..found.len() {
        put_fit_reason(tree, monitor, index as u32, &found[index], pen);
    }
}

/// The line of a block, where it has one.
fn put_fit_reason<S: Sink>(
    tree: &MonitorTree,
    monitor: &Monitor,
    block: u32,
    reason: &FitReason,
    pen: &mut Pen<'_, S>,
)
    ensures { Adds S.seen pen.old pen.new
        (fit_reason_text tree.now monitor.now block reason.now) }
{
    match reason {
        FitReason::Fits => pen.put(b""),
        FitReason::Leaves { at } => put_leaves(tree, monitor, block, at, pen),
        FitReason::Undecided => put_undecided(monitor, block, pen),
    }
}

/// `why fits put(n=3): count=4` and a line feed.
#[tactic(auto, using(base_pen::proofs::Putting::adds_three))]
fn put_leaves<S: Sink>(
    tree: &MonitorTree,
    monitor: &Monitor,
    block: u32,
    at: &Solution,
    pen: &mut Pen<'_, S>,
)
    ensures { Adds S.seen pen.old pen.new
        (leaves_text tree.now monitor.now block at.now) }
{
    put_leaves_head(tree, monitor, block, at, pen);
    put_fields(monitor, at, pen);
    pen.put(b"\n");
}

/// `why fits put(n=3):`
#[tactic(auto, using(base_pen::proofs::Putting::adds_three))]
fn put_leaves_head<S: Sink>(
    tree: &MonitorTree,
    monitor: &Monitor,
    block: u32,
    at: &Solution,
    pen: &mut Pen<'_, S>,
)
    ensures { Adds S.seen pen.old pen.new
        (codes "why fits " ++ running_text tree.now monitor.now (valuation_of at.now) block
        ++ codes ":") }
{
    pen.put(b"why fits ");
    put_running(tree, monitor, at, block, pen);
    pen.put(b":");
}

/// `why fits put: not decided` and a line feed.
#[tactic(auto, using(base_pen::proofs::Putting::adds_three))]
fn put_undecided<S: Sink>(monitor: &Monitor, block: u32, pen: &mut Pen<'_, S>)
    ensures { Adds S.seen pen.old pen.new
        (undecided_text monitor.now block) }
{
    pen.put(b"why fits ");
    put_block_name(monitor, block as usize, pen);
    pen.put(b": not decided\n");
}

/// The fields, by what stands at their places.
fn put_fields<S: Sink>(monitor: &Monitor, at: &Solution, pen: &mut Pen<'_, S>)
    ensures { Adds S.seen pen.old pen.new (fields_text (valuation_of at.now) monitor.now.fields) }
{
    let fields = monitor.fields();
    if pen.outcome.is_ok() {
        pen.outcome = write_fields(at, fields, pen.out);
    }
}

/// A block that runs, with its inputs and locals.
fn put_running<S: Sink>(
    tree: &MonitorTree,
    monitor: &Monitor,
    at: &Solution,
    block: u32,
    pen: &mut Pen<'_, S>,
)
    ensures { Adds S.seen pen.old pen.new
        (running_text tree.now monitor.now (valuation_of at.now) block) }
{
    if pen.outcome.is_ok() {
        pen.outcome = write_running(tree, monitor, at, block, pen.out);
    }
}
