//! Reports, findings and explanations, written whole to a sink and handed on, with the status that
//! each comes to. No writer takes memory.

ghost use Rattle.std.specs.Prelude.{◌≡◌};
ghost use Rattle.base_io.specs.Writing.{Wrote};
ghost use Rattle.plan_counted.specs.Counted.{AreBacked};
ghost use Rattle.report_proofs.specs.ReportTexts.{placed_text};
ghost use Rattle.report_tally.specs.CountedTexts.{counted_text};
ghost use Rattle.report_audit.specs.FindingText.{finding_text};
ghost use Rattle.report_failures.specs.FailureText.{failing_finding_text};
ghost use Rattle.expresso_answers.specs.Texts.{count_explained_text, explained_text};
ghost use Rattle.expresso_reports.specs.inner.Auditing.{audit_status};
ghost use Rattle.expresso_answers.specs.Ending.{IsWritten};

use crate::explain::{CountExplanation, Explanation};
use base_io::{Sink, SinkFailed};
use expresso_answers::{Counting, Status, finish};
use lang_monitor::Monitor;
use lang_tree::MonitorTree;
use machine_events::Plan;
use plan_claims::PlacedPlan;
use plan_why::Failure;
use report_audit::{Finding, write_finding};
use report_failures::write_failing_finding;
use report_proofs::write_report;
use report_reasons::{write_broadcast_reasons, write_reasons};
use report_tally::write_counted_report;
use report_text::write_plan;

/// Writes the report of a plan that was placed.
pub(crate) fn show_report<S: Sink>(monitor: &Monitor, placed: &PlacedPlan, out: &mut S) -> Status
    ensures { IsWritten Status.Done (placed_text monitor.now placed.now) result
        (S.seen out.old) (S.seen out.new) }
{
    let outcome = write_report(monitor, placed, out);
    finish(Status::Done, outcome, out)
}

/// Writes the report of a plan that was placed and then counted.
pub(crate) fn show_counted_report<S: Sink>(
    monitor: &Monitor,
    counting: &Counting,
    out: &mut S,
) -> Status
    requires { AreBacked monitor.now counting.now.placed.plan counting.now.counted.columns }
    ensures { IsWritten Status.Done
        (counted_text monitor.now counting.now.placed counting.now.counted) result
        (S.seen out.old) (S.seen out.new) }
{
    let outcome = write_counted_report(monitor, &counting.placed, &counting.counted, out);
    finish(Status::Done, outcome, out)
}

/// Writes a plan, and why each thing stands in it that costs something.
pub(crate) fn show_explanation<S: Sink>(
    tree: &MonitorTree,
    monitor: &Monitor,
    explanation: &Explanation,
    out: &mut S,
) -> Status
    ensures { IsWritten Status.Done (explained_text tree.now monitor.now explanation.now.plan
        explanation.now.reasons.items) result (S.seen out.old) (S.seen out.new) }
{
    let outcome = write_explanation(tree, monitor, explanation, out);
    finish(Status::Done, outcome, out)
}

/// Writes the plan, and then the reasons.
pub(crate) fn write_explanation<S: Sink>(
    tree: &MonitorTree,
    monitor: &Monitor,
    explanation: &Explanation,
    out: &mut S,
) -> Result<(), SinkFailed>
    ensures { Wrote (S.seen out.old) (S.seen out.new) result (explained_text tree.now monitor.now
        explanation.now.plan explanation.now.reasons.items) }
{
    write_plan(monitor, &explanation.plan, out)?;
    write_reasons(tree, monitor, explanation.reasons.as_slice(), out)
}

/// Writes a counted plan, and why each thing stands in it that costs something.
pub(crate) fn show_count_explanation<S: Sink>(
    tree: &MonitorTree,
    monitor: &Monitor,
    explanation: &CountExplanation,
    out: &mut S,
) -> Status
    ensures { IsWritten Status.Done (count_explained_text tree.now monitor.now
        explanation.now.explanation.plan explanation.now.explanation.reasons.items
        explanation.now.broadcasts.items) result (S.seen out.old) (S.seen out.new) }
{
    let outcome = write_count_explanation(tree, monitor, explanation, out);
    finish(Status::Done, outcome, out)
}

/// Writes the plan with its reasons, and then those of the broadcasts of blocks.
pub(crate) fn write_count_explanation<S: Sink>(
    tree: &MonitorTree,
    monitor: &Monitor,
    explanation: &CountExplanation,
    out: &mut S,
) -> Result<(), SinkFailed>
    ensures { Wrote (S.seen out.old) (S.seen out.new) result (count_explained_text tree.now
        monitor.now explanation.now.explanation.plan explanation.now.explanation.reasons.items
        explanation.now.broadcasts.items) }
{
    write_explanation(tree, monitor, &explanation.explanation, out)?;
    write_broadcast_reasons(tree, monitor, explanation.broadcasts.as_slice(), out)
}

/// The status of a finding.
fn audit_status(finding: Finding) -> Status
    ensures { result ≡ audit_status finding }
{
    match finding {
        Finding::Lawful => Status::Done,
        Finding::Start { .. } => Status::Refused,
        Finding::Kind { .. } => Status::Refused,
        Finding::Unproved { .. } => Status::Refused,
        Finding::Uncounted { .. } => Status::Refused,
    }
}

/// Writes the line of what was found of a plan.
pub(crate) fn show_finding<S: Sink>(
    monitor: &Monitor,
    plan: &Plan,
    finding: Finding,
    out: &mut S,
) -> Status
    ensures { IsWritten (audit_status finding) (finding_text monitor.now plan.now finding) result
        (S.seen out.old) (S.seen out.new) }
{
    let outcome = write_finding(monitor, plan, &finding, out);
    finish(audit_status(finding), outcome, out)
}

/// Writes that line, and of a claim or a question that it names why it has no certificate.
pub(crate) fn show_failing_finding<S: Sink>(
    tree: &MonitorTree,
    monitor: &Monitor,
    plan: &Plan,
    finding: Finding,
    failure: Option<Failure>,
    out: &mut S,
) -> Status
    ensures { IsWritten (audit_status finding)
        (failing_finding_text tree.now monitor.now plan.now finding failure) result
        (S.seen out.old) (S.seen out.new) }
{
    let outcome = write_failing_finding(tree, monitor, plan, finding, failure, out);
    finish(audit_status(finding), outcome, out)
}
