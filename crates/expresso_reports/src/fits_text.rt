//! What is printed of blocks that keep 64 bits, after reports and explanations.

ghost use Rattle.std.specs.Prelude.{◌≤◌, ◌++◌, length};
ghost use Rattle.lang_base.specs.Limits.{BLOCKS};
ghost use Rattle.base_io.specs.Writing.{Wrote};
ghost use Rattle.plan_counted.specs.Counted.{AreBacked};
ghost use Rattle.report_fits.specs.FitReasonTexts.{fit_reasons_text};
ghost use Rattle.report_fits.specs.FitTexts.{certified, fits_text};
ghost use Rattle.report_fits.specs.FitVerdicts.{fitting_text};
ghost use Rattle.report_proofs.specs.ReportTexts.{placed_text, verdict_text};
ghost use Rattle.report_tally.specs.CountedTexts.{counted_text};
ghost use Rattle.expresso_answers.specs.Texts.{count_explained_text, explained_text};
ghost use Rattle.expresso_answers.specs.Ending.{IsWritten};

use crate::explain::{CountExplanation, Explanation};
use crate::text::{write_count_explanation, write_explanation};
use base_io::{Sink, SinkFailed};
use expresso_answers::{Counting, Status, finish};
use lang_monitor::Monitor;
use lang_tree::MonitorTree;
use logic_cert::Cert;
use plan_claims::PlacedPlan;
use report_fits::{Fit, FitReason, write_fit_reasons, write_fits, write_fitting};
use report_proofs::{write_report, write_verdict};
use report_tally::write_counted_report;
use report_verdict::Verdict;

// ---- reports

/// Writes the report of a plan that was placed, and the lines of blocks that keep 64 bits.
pub(crate) fn show_fits_report<S: Sink>(
    monitor: &Monitor,
    placed: &PlacedPlan,
    answers: &[Option<Cert>],
    out: &mut S,
) -> Status
    requires { length answers.now ≤ BLOCKS }
    ensures { IsWritten Status.Done (placed_text monitor.now placed.now
        ++ fits_text monitor.now (certified answers.now)) result
        (S.seen out.old) (S.seen out.new) }
{
    let outcome = write_fits_report(monitor, placed, answers, out);
    finish(Status::Done, outcome, out)
}

fn write_fits_report<S: Sink>(
    monitor: &Monitor,
    placed: &PlacedPlan,
    answers: &[Option<Cert>],
    out: &mut S,
) -> Result<(), SinkFailed>
    requires { length answers.now ≤ BLOCKS }
    ensures { Wrote (S.seen out.old) (S.seen out.new) result (placed_text monitor.now placed.now
        ++ fits_text monitor.now (certified answers.now)) }
{
    write_report(monitor, placed, out)?;
    write_fits(monitor, answers, out)
}

/// Writes the same of a plan that was placed and then counted.
pub(crate) fn show_counted_fits_report<S: Sink>(
    monitor: &Monitor,
    counting: &Counting,
    answers: &[Option<Cert>],
    out: &mut S,
) -> Status
    requires backed { AreBacked monitor.now counting.now.placed.plan counting.now.counted.columns }
    requires few { length answers.now ≤ BLOCKS }
    ensures { IsWritten Status.Done
        (counted_text monitor.now counting.now.placed counting.now.counted
        ++ fits_text monitor.now (certified answers.now)) result
        (S.seen out.old) (S.seen out.new) }
{
    let outcome = write_counted_fits_report(monitor, counting, answers, out);
    finish(Status::Done, outcome, out)
}

fn write_counted_fits_report<S: Sink>(
    monitor: &Monitor,
    counting: &Counting,
    answers: &[Option<Cert>],
    out: &mut S,
) -> Result<(), SinkFailed>
    requires backed { AreBacked monitor.now counting.now.placed.plan counting.now.counted.columns }
    requires few { length answers.now ≤ BLOCKS }
    ensures { Wrote (S.seen out.old) (S.seen out.new) result
        (counted_text monitor.now counting.now.placed counting.now.counted
        ++ fits_text monitor.now (certified answers.now)) }
{
    write_counted_report(monitor, &counting.placed, &counting.counted, out)?;
    write_fits(monitor, answers, out)
}

// ---- explanations

/// Writes a plan with its reasons, and why blocks may leave 64 bits.
pub(crate) fn show_fits_explanation<S: Sink>(
    tree: &MonitorTree,
    monitor: &Monitor,
    explanation: &Explanation,
    found: &[FitReason],
    out: &mut S,
) -> Status
    requires { length found.now ≤ BLOCKS }
    ensures { IsWritten Status.Done (explained_text tree.now monitor.now explanation.now.plan
        explanation.now.reasons.items ++ fit_reasons_text tree.now monitor.now found.now) result
        (S.seen out.old) (S.seen out.new) }
{
    let outcome = write_fits_explanation(tree, monitor, explanation, found, out);
    finish(Status::Done, outcome, out)
}

fn write_fits_explanation<S: Sink>(
    tree: &MonitorTree,
    monitor: &Monitor,
    explanation: &Explanation,
    found: &[FitReason],
    out: &mut S,
) -> Result<(), SinkFailed>
    requires { length found.now ≤ BLOCKS }
    ensures { Wrote (S.seen out.old) (S.seen out.new) result (explained_text tree.now monitor.now
        explanation.now.plan explanation.now.reasons.items
        ++ fit_reasons_text tree.now monitor.now found.now) }
{
    write_explanation(tree, monitor, explanation, out)?;
    write_fit_reasons(tree, monitor, found, out)
}

/// Writes the same of a counted plan.
pub(crate) fn show_counted_fits_explanation<S: Sink>(
    tree: &MonitorTree,
    monitor: &Monitor,
    explanation: &CountExplanation,
    found: &[FitReason],
    out: &mut S,
) -> Status
    requires { length found.now ≤ BLOCKS }
    ensures { IsWritten Status.Done (count_explained_text tree.now monitor.now
        explanation.now.explanation.plan explanation.now.explanation.reasons.items
        explanation.now.broadcasts.items ++ fit_reasons_text tree.now monitor.now found.now) result
        (S.seen out.old) (S.seen out.new) }
{
    let outcome = write_counted_fits_explanation(tree, monitor, explanation, found, out);
    finish(Status::Done, outcome, out)
}

fn write_counted_fits_explanation<S: Sink>(
    tree: &MonitorTree,
    monitor: &Monitor,
    explanation: &CountExplanation,
    found: &[FitReason],
    out: &mut S,
) -> Result<(), SinkFailed>
    requires { length found.now ≤ BLOCKS }
    ensures { Wrote (S.seen out.old) (S.seen out.new) result (count_explained_text tree.now
        monitor.now explanation.now.explanation.plan explanation.now.explanation.reasons.items
        explanation.now.broadcasts.items ++ fit_reasons_text tree.now monitor.now found.now) }
{
    write_count_explanation(tree, monitor, explanation, out)?;
    write_fit_reasons(tree, monitor, found, out)
}

// ---- what is said of reports

/// Writes that a report is accepted, and which blocks after it are.
pub(crate) fn show_acceptance<S: Sink>(
    monitor: &Monitor,
    certs: u64,
    fits: &[Fit],
    out: &mut S,
) -> Status
    ensures { IsWritten Status.Done (verdict_text (Verdict.Accepted certs)
        ++ fitting_text monitor.now fits.now) result (S.seen out.old) (S.seen out.new) }
{
    let outcome = write_acceptance(monitor, certs, fits, out);
    finish(Status::Done, outcome, out)
}

fn write_acceptance<S: Sink>(
    monitor: &Monitor,
    certs: u64,
    fits: &[Fit],
    out: &mut S,
) -> Result<(), SinkFailed>
    ensures { Wrote (S.seen out.old) (S.seen out.new) result
        (verdict_text (Verdict.Accepted certs) ++ fitting_text monitor.now fits.now) }
{
    write_verdict(&Verdict::Accepted { claims: certs }, out)?;
    write_fitting(monitor, fits, out)
}

/// Writes the line of a verdict that rejects a report.
pub(crate) fn show_rejection<S: Sink>(verdict: Verdict, out: &mut S) -> Status
    ensures { IsWritten Status.Refused (verdict_text verdict) result
        (S.seen out.old) (S.seen out.new) }
{
    let outcome = write_verdict(&verdict, out);
    finish(Status::Refused, outcome, out)
}
