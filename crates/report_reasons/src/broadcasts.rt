//! Lines of broadcasts of blocks on counted conditions.

ghost use Rattle.std.specs.Prelude.{◌++◌, codes};
ghost use Rattle.base_io.specs.Writing.{Wrote};
ghost use Rattle.report_reasons.specs.ReasonText.{pair_text};
ghost use Rattle.report_reasons.specs.BroadcastText.{broadcast_reason_text, broadcast_reasons_text};
ghost use Rattle.report_reasons.specs.BroadcastText.{enough_text, needed_text};

use super::lines::{write_change, write_noted, write_pair};
use base_io::{Sink, SinkFailed, write_piece};
use lang_monitor::Monitor;
use lang_tree::MonitorTree;
use plan_needs::{BlockBroadcast, BroadcastReason};
use plan_why::Failure;

/// Writes a line for each reason: `why releaseTwo 1 broadcast: free=1 to free=3`, or `why
/// releaseTwo 1 broadcast: not decided`, with fields, inputs and locals as `write_reasons` has
/// them. It takes no memory.
///
/// After `SinkFailed` the first bytes of the text were taken, fewer than all and maybe none.
pub fn write_broadcast_reasons<S: Sink>(
    tree: &MonitorTree,
    monitor: &Monitor,
    reasons: &[BroadcastReason],
    out: &mut S,
) -> Result<(), SinkFailed>
    ensures { Wrote (S.seen out.old) (S.seen out.new) result
        (broadcast_reasons_text tree.now monitor.now reasons.now) }
{
    for reason in reasons {
        write_broadcast_reason(tree, monitor, reason, out)?;
    }
    Ok(())
}

/// The line of a reason.
fn write_broadcast_reason<S: Sink>(
    tree: &MonitorTree,
    monitor: &Monitor,
    reason: &BroadcastReason,
    out: &mut S,
) -> Result<(), SinkFailed>
    ensures { Wrote (S.seen out.old) (S.seen out.new) result
        (broadcast_reason_text tree.now monitor.now reason.now) }
{
    write_piece(b"why ", out)?;
    write_enough(tree, monitor, reason.broadcast, &reason.failure, out)?;
    write_piece(b"\n", out)
}

/// Whether a broadcast is needed, and why.
fn write_enough<S: Sink>(
    tree: &MonitorTree,
    monitor: &Monitor,
    broadcast: BlockBroadcast,
    failure: &Option<Failure>,
    out: &mut S,
) -> Result<(), SinkFailed>
    ensures { Wrote (S.seen out.old) (S.seen out.new) result
        (enough_text tree.now monitor.now broadcast failure.now) }
{
    match failure {
        Some(failure) => write_needed(tree, monitor, broadcast, failure, out),
        None => write_open(monitor, broadcast, out),
    }
}

/// A broadcast that is needed, and the fields before and after the body of its block.
fn write_needed<S: Sink>(
    tree: &MonitorTree,
    monitor: &Monitor,
    broadcast: BlockBroadcast,
    failure: &Failure,
    out: &mut S,
) -> Result<(), SinkFailed>
    ensures { Wrote (S.seen out.old) (S.seen out.new) result
        (needed_text tree.now monitor.now broadcast failure.now) }
{
    let BlockBroadcast { block, condition } = broadcast;
    write_noted(tree, monitor, &failure.before, block, condition, out)?;
    write_piece(b" broadcast:", out)?;
    write_change(monitor, &failure.before, &failure.after, out)
}

/// `releaseTwo 1 broadcast: not decided`.
fn write_open<S: Sink>(
    monitor: &Monitor,
    broadcast: BlockBroadcast,
    out: &mut S,
) -> Result<(), SinkFailed>
    ensures { Wrote (S.seen out.old) (S.seen out.new) result
        (pair_text monitor.now broadcast.block broadcast.condition
        ++ codes " broadcast: not decided") }
{
    write_pair(monitor, broadcast.block, broadcast.condition, out)?;
    write_piece(b" broadcast: not decided", out)
}
