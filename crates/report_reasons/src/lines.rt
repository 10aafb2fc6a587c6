//! Lines of reasons.

ghost use Rattle.std.specs.Prelude.{◌++◌, codes, decimal};
ghost use Rattle.base_io.specs.Writing.{Wrote};
ghost use Rattle.logic_solve.specs.Solutions.{valuation_of};
ghost use Rattle.report_reasons.specs.ReasonText.{after_text, answer_text};
ghost use Rattle.report_reasons.specs.ReasonText.{change_text, heading_text};
ghost use Rattle.report_reasons.specs.ReasonText.{noted_text, pair_text, reason_text, reasons_text};
ghost use Rattle.report_reasons.specs.ReasonText.{running_text, shown_text, thing_text};

use super::clients::{write_number, write_running, write_waiting};
use super::values::write_fields;
use base_io::{Sink, SinkFailed, write_piece};
use lang_monitor::Monitor;
use lang_tree::MonitorTree;
use logic_solve::Solution;
use plan_why::{Answer, Reason, Thing};
use report_text::write_block_name;

/// Writes a line for each reason: `why startRead 2: readers=0 to readers=1`, `why 2 broadcast
/// endRead: ..`, `why endRead 4 tested: ..`, or `why startRead 2: not decided`. The fields stand in
/// the monitor's order, before and after the body of the block; where a number on the way is
/// outside 128 bits, `numbers beyond 128 bits` stands for those after it. The inputs and locals of
/// the method of the block stand after it in parentheses, and those of a waiting client after the
/// condition, where its guard reads such. Their names are the tree's. It takes no memory.
///
/// After `SinkFailed` the first bytes of the text were taken, fewer than all and maybe none.
pub fn write_reasons<S: Sink>(
    tree: &MonitorTree,
    monitor: &Monitor,
    reasons: &[Reason],
    out: &mut S,
) -> Result<(), SinkFailed>
    ensures { Wrote (S.seen out.old) (S.seen out.new) result
        (reasons_text tree.now monitor.now reasons.now) }
{
    for reason in reasons {
        write_reason(tree, monitor, reason, out)?;
    }
    Ok(())
}

/// The line of a reason.
fn write_reason<S: Sink>(
    tree: &MonitorTree,
    monitor: &Monitor,
    reason: &Reason,
    out: &mut S,
) -> Result<(), SinkFailed>
    ensures { Wrote (S.seen out.old) (S.seen out.new) result
        (reason_text tree.now monitor.now reason.now) }
{
    write_piece(b"why ", out)?;
    write_answer(tree, monitor, reason.thing, &reason.answer, out)?;
    write_piece(b"\n", out)
}

/// Whether a thing is needed, and why.
fn write_answer<S: Sink>(
    tree: &MonitorTree,
    monitor: &Monitor,
    thing: Thing,
    answer: &Answer,
    out: &mut S,
) -> Result<(), SinkFailed>
    ensures { Wrote (S.seen out.old) (S.seen out.new) result
        (answer_text tree.now monitor.now thing answer.now) }
{
    match answer {
        Answer::Shown {
            block,
            before,
            after,
        } => write_shown(tree, monitor, thing, *block, before, after, out),
        Answer::Undecided => write_undecided(monitor, thing, out),
    }
}

// ---- things that are needed

/// A thing that is needed, the block that shows it, and the fields before and after its body.
fn write_shown<S: Sink>(
    tree: &MonitorTree,
    monitor: &Monitor,
    thing: Thing,
    block: u32,
    before: &Solution,
    after: &Option<Solution>,
    out: &mut S,
) -> Result<(), SinkFailed>
    ensures { Wrote (S.seen out.old) (S.seen out.new) result
        (shown_text tree.now monitor.now thing block before.now after.now) }
{
    write_heading(tree, monitor, before, thing, block, out)?;
    write_piece(b":", out)?;
    write_change(monitor, before, after, out)
}

/// The fields before and after the body.
pub(crate) fn write_change<S: Sink>(
    monitor: &Monitor,
    before: &Solution,
    after: &Option<Solution>,
    out: &mut S,
) -> Result<(), SinkFailed>
    ensures { Wrote (S.seen out.old) (S.seen out.new) result
        (change_text monitor.now before.now after.now) }
{
    write_fields(before, monitor.fields(), out)?;
    write_piece(b" to", out)?;
    write_after(monitor, after, out)
}

/// The fields after the body, where they were computed.
fn write_after<S: Sink>(
    monitor: &Monitor,
    after: &Option<Solution>,
    out: &mut S,
) -> Result<(), SinkFailed>
    ensures { Wrote (S.seen out.old) (S.seen out.new) result (after_text monitor.now after.now) }
{
    match after {
        None => write_piece(b" numbers beyond 128 bits", out),
        Some(last) => write_fields(last, monitor.fields(), out),
    }
}

/// A thing, and the block that shows that it is needed.
fn write_heading<S: Sink>(
    tree: &MonitorTree,
    monitor: &Monitor,
    at: &Solution,
    thing: Thing,
    block: u32,
    out: &mut S,
) -> Result<(), SinkFailed>
    ensures { Wrote (S.seen out.old) (S.seen out.new) result
        (heading_text tree.now monitor.now (valuation_of at.now) thing block) }
{
    match thing {
        Thing::Note { condition, .. } => write_noted(tree, monitor, at, block, condition, out),
        Thing::Broadcast { condition } => {
            write_broadcast(tree, monitor, at, condition, block, out)
        }
        Thing::Test { condition, .. } => write_tested(tree, monitor, at, block, condition, out),
    }
}

/// `put(n=3) 2(k=4)`: a block and a condition.
pub(crate) fn write_noted<S: Sink>(
    tree: &MonitorTree,
    monitor: &Monitor,
    at: &Solution,
    block: u32,
    condition: u32,
    out: &mut S,
) -> Result<(), SinkFailed>
    ensures { Wrote (S.seen out.old) (S.seen out.new) result
        (noted_text tree.now monitor.now (valuation_of at.now) block condition) }
{
    write_running(tree, monitor, at, block, out)?;
    write_piece(b" ", out)?;
    write_waiting(tree, monitor, at, condition, out)
}

/// `2 broadcast put(n=3)`: a condition and a block.
fn write_broadcast<S: Sink>(
    tree: &MonitorTree,
    monitor: &Monitor,
    at: &Solution,
    condition: u32,
    block: u32,
    out: &mut S,
) -> Result<(), SinkFailed>
    ensures { Wrote (S.seen out.old) (S.seen out.new) result
        (decimal condition ++ codes " broadcast "
        ++ running_text tree.now monitor.now (valuation_of at.now) block) }
{
    write_number(condition, out)?;
    write_piece(b" broadcast ", out)?;
    write_running(tree, monitor, at, block, out)
}

/// `put(n=3) 2(k=4) tested`: a block and a condition.
fn write_tested<S: Sink>(
    tree: &MonitorTree,
    monitor: &Monitor,
    at: &Solution,
    block: u32,
    condition: u32,
    out: &mut S,
) -> Result<(), SinkFailed>
    ensures { Wrote (S.seen out.old) (S.seen out.new) result
        (noted_text tree.now monitor.now (valuation_of at.now) block condition
        ++ codes " tested") }
{
    write_noted(tree, monitor, at, block, condition, out)?;
    write_piece(b" tested", out)
}

// ---- things that were not decided

/// `put 2: not decided`.
fn write_undecided<S: Sink>(monitor: &Monitor, thing: Thing, out: &mut S) -> Result<(), SinkFailed>
    ensures { Wrote (S.seen out.old) (S.seen out.new) result
        (thing_text monitor.now thing ++ codes ": not decided") }
{
    write_thing(monitor, thing, out)?;
    write_piece(b": not decided", out)
}

/// `put 2`, `2 broadcast` or `put 2 tested`.
fn write_thing<S: Sink>(monitor: &Monitor, thing: Thing, out: &mut S) -> Result<(), SinkFailed>
    ensures { Wrote (S.seen out.old) (S.seen out.new) result (thing_text monitor.now thing) }
{
    match thing {
        Thing::Note { block, condition } => write_pair(monitor, block, condition, out),
        Thing::Broadcast { condition } => write_kind(condition, out),
        Thing::Test { block, condition } => write_tested_pair(monitor, block, condition, out),
    }
}

/// `put 2`: a block and a condition.
pub(crate) fn write_pair<S: Sink>(
    monitor: &Monitor,
    block: u32,
    condition: u32,
    out: &mut S,
) -> Result<(), SinkFailed>
    ensures { Wrote (S.seen out.old) (S.seen out.new) result
        (pair_text monitor.now block condition) }
{
    write_block_name(monitor, block as usize, out)?;
    write_piece(b" ", out)?;
    write_number(condition, out)
}

/// `put 2 tested`.
fn write_tested_pair<S: Sink>(
    monitor: &Monitor,
    block: u32,
    condition: u32,
    out: &mut S,
) -> Result<(), SinkFailed>
    ensures { Wrote (S.seen out.old) (S.seen out.new) result
        (pair_text monitor.now block condition ++ codes " tested") }
{
    write_pair(monitor, block, condition, out)?;
    write_piece(b" tested", out)
}

/// `2 broadcast`.
fn write_kind<S: Sink>(condition: u32, out: &mut S) -> Result<(), SinkFailed>
    ensures { Wrote (S.seen out.old) (S.seen out.new) result
        (decimal condition ++ codes " broadcast") }
{
    write_number(condition, out)?;
    write_piece(b" broadcast", out)
}
