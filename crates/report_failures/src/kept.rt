//! Lines of kept candidates that a block may make false.

ghost use Rattle.std.specs.Prelude.{◌++◌, codes};
ghost use Rattle.base_io.specs.Writing.{Wrote};
ghost use Rattle.logic_solve.specs.Solutions.{valuation_of};
ghost use Rattle.lang_monitor.specs.declared.claim.Claim.TheVariants.{Keeps};
ghost use Rattle.report_reasons.specs.ReasonText.{after_text, change_text};
ghost use Rattle.report_proofs.specs.ReportTexts.{claim_text};
ghost use Rattle.report_failures.specs.FailureText.{broken_text, kept_text, leaving_text};

use base_io::{Sink, SinkFailed, write_piece};
use lang_monitor::{Candidate, Claim, Monitor};
use lang_tree::MonitorTree;
use logic_solve::Solution;
use plan_why::Failure;
use report_proofs::write_claim;
use report_reasons::{write_fields, write_running};
use report_text::write_candidate;

/// The line of a candidate that the block makes false, or of which that wasn't decided.
pub(crate) fn write_kept<S: Sink>(
    tree: &MonitorTree,
    monitor: &Monitor,
    candidate: Candidate,
    block: u32,
    failure: &Option<Failure>,
    out: &mut S,
) -> Result<(), SinkFailed>
    ensures { Wrote (S.seen out.old) (S.seen out.new) result
        (kept_text tree.now monitor.now candidate block failure.now) }
{
    match failure {
        Some(failure) => write_broken(tree, monitor, candidate, block, failure, out),
        None => write_undecided(monitor, candidate, block, out),
    }
}

/// `why keep count >= 2 get: count=2 to count=1` and a line feed.
fn write_broken<S: Sink>(
    tree: &MonitorTree,
    monitor: &Monitor,
    candidate: Candidate,
    block: u32,
    failure: &Failure,
    out: &mut S,
) -> Result<(), SinkFailed>
    ensures { Wrote (S.seen out.old) (S.seen out.new) result
        (broken_text tree.now monitor.now candidate block failure.now) }
{
    write_leaving(tree, monitor, candidate, block, &failure.before, out)?;
    write_change(monitor, &failure.before, &failure.after, out)?;
    write_piece(b"\n", out)
}

/// `why keep count >= 2 get:`
fn write_leaving<S: Sink>(
    tree: &MonitorTree,
    monitor: &Monitor,
    candidate: Candidate,
    block: u32,
    before: &Solution,
    out: &mut S,
) -> Result<(), SinkFailed>
    ensures { Wrote (S.seen out.old) (S.seen out.new) result
        (leaving_text tree.now monitor.now candidate block (valuation_of before.now)) }
{
    write_piece(b"why keep ", out)?;
    write_candidate(monitor.fields(), candidate, out)?;
    write_piece(b" ", out)?;
    write_running(tree, monitor, before, block, out)?;
    write_piece(b":", out)
}

/// The fields before and after the body.
fn write_change<S: Sink>(
    monitor: &Monitor,
    before: &Solution,
    after: &Option<Solution>,
    out: &mut S,
) -> Result<(), SinkFailed>
    ensures { Wrote (S.seen out.old) (S.seen out.new) result
        (change_text monitor.now before.now after.now) }
{
    write_fields(before, monitor.fields(), out)?;
    write_piece(b" to", out)?;
    write_after(monitor, after, out)
}

/// The fields after the body, where they were computed.
fn write_after<S: Sink>(
    monitor: &Monitor,
    after: &Option<Solution>,
    out: &mut S,
) -> Result<(), SinkFailed>
    ensures { Wrote (S.seen out.old) (S.seen out.new) result
        (after_text monitor.now after.now) }
{
    match after {
        None => write_piece(b" numbers beyond 128 bits", out),
        Some(last) => write_fields(last, monitor.fields(), out),
    }
}

/// `why keep count >= 2 get: not decided` and a line feed.
fn write_undecided<S: Sink>(
    monitor: &Monitor,
    candidate: Candidate,
    block: u32,
    out: &mut S,
) -> Result<(), SinkFailed>
    ensures { Wrote (S.seen out.old) (S.seen out.new) result
        (codes "why " ++ claim_text monitor.now (Keeps candidate block)
        ++ codes ": not decided\n") }
{
    write_piece(b"why ", out)?;
    write_claim(monitor, Claim::Keeps { candidate, block }, out)?;
    write_piece(b": not decided\n", out)
}
