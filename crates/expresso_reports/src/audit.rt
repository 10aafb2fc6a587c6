//! `expresso audit FILE PLAN [--count]`.

ghost use Rattle.std.specs.Prelude.{[], ◌∷◌, All, IfOk};
ghost use Rattle.report_audit.specs.CountedFindings.{IsFindingBy};
ghost use Rattle.front_command.specs.CommandLine.{audit};
ghost use Rattle.report_verdict.specs.Reports.{IsPlanOf};
ghost use Rattle.expresso_answers.specs.Ending.{CommandEnds, IsWritten, KeepsFiles};
ghost use Rattle.expresso_answers.specs.PlanFiles.{IsFailureBy, audit_text};
ghost use Rattle.expresso_reports.specs.inner.Auditing.{IsFound, audit_status};
ghost use Rattle.expresso_reports.specs.inner.Auditing.{found_status, found_text};

use crate::text::{show_failing_finding, show_finding};
use base_io::{Files, Sink};
use expresso_answers::{MonitorFile, OTHER_BYTES, Status, open_both, show_fault};
use lang_monitor::Monitor;
use lang_syntax::derives_one_tree;
use lang_tokens::one_spelling;
use machine_events::Plan;
use plan_why::Failure;
use report_audit::{Finding, audit, audit_by_counting};
use report_failures::finding_failure;
use report_proofs::read_plan;
use report_text::Fault;
use std::alloc::{AllocError, Global};

/// A plan, what was found of it, and where signals may be counted, a failure of what that names.
#[derive(Debug, Drop)]
pub(crate) struct Found {
    pub plan: Plan,
    pub finding: Finding,
    pub failure: Option<Failure>,
}

/// Reads both files, the monitor first, asks whether the plan of the second is lawful, or where
/// signals may be counted, lawful by counting, and writes that it is, or the line of the first
/// fault, with a state that shows why where signals may be counted.
pub fn audit_files<F: Files, S: Sink>(
    alloc: Global,
    monitor: &str,
    plan: &str,
    count: bool,
    files: &mut F,
    out: &mut S,
) -> Status
    requires files { All (F.may_read files.old) (monitor.now ∷ plan.now ∷ []) }
    ensures ended { CommandEnds (audit monitor.now plan.now count)
        (F.seen files.old) (F.seen files.new) result (S.seen out.old) (S.seen out.new) }
    ensures files { KeepsFiles (F.seen files.old) (F.seen files.new)
        (F.may_read files.old) (F.may_read files.new) }
{
    one_spelling();
    derives_one_tree();
    let opened = match open_both(
        alloc,
        monitor,
        plan,
        OTHER_BYTES,
        &Fault::OtherTooLong { file: plan },
        files,
        out,
    ) {
        Ok(opened) => opened,
        Err(status) => return status,
    };
    match audited(alloc, &opened.found.monitor, count, &opened.bytes) {
        Ok(found) => show_judged(&opened.found, plan, count, found, out),
        Err(AllocError) => Status::OutOfMemory,
    }
}

/// Writes what was found of the plan, and where the file is none, that line.
fn show_judged<S: Sink>(
    held: &MonitorFile,
    file: &str,
    count: bool,
    found: Option<Found>,
    out: &mut S,
) -> Status
    ensures { IsWritten (found_status found)
        (found_text count held.now.tree held.now.monitor file.now found) result
        (S.seen out.old) (S.seen out.new) }
{
    match found {
        Some(found) => show_found(held, count, found, out),
        None => show_fault(&Fault::NotPlan { file }, out),
    }
}

/// Writes the line of what was found, and where signals may be counted, why what it names has no
/// certificate.
fn show_found<S: Sink>(held: &MonitorFile, count: bool, found: Found, out: &mut S) -> Status
    ensures { IsWritten (audit_status found.finding) (audit_text count held.now.tree
        held.now.monitor found.plan found.finding found.failure) result
        (S.seen out.old) (S.seen out.new) }
{
    let Found {
        plan,
        finding,
        failure,
    } = found;
    if count {
        show_failing_finding(&held.tree, &held.monitor, &plan, finding, failure, out)
    } else {
        show_finding(&held.monitor, &plan, finding, out)
    }
}

/// The plan that bytes are with what is found of it, and nothing where they are none. It fails only
/// for want of memory.
fn audited(
    alloc: Global,
    monitor: &Monitor,
    count: bool,
    bytes: &[u8],
) -> Result<Option<Found>, AllocError>
    ensures { IfOk result (IsFound count monitor.now bytes.now) }
{
    let Some(plan) = read_plan(alloc, monitor, bytes)? else {
        return Ok(None);
    };
    let finding = finding_by(alloc, monitor, count, &plan)?;
    let failure = failure_by(alloc, monitor, count, &plan, finding)?;
    Ok(Some(Found {
        plan,
        finding,
        failure,
    }))
}

/// What is found of the plan, whose signals may be counted or not. It fails only for want of
/// memory.
fn finding_by(
    alloc: Global,
    monitor: &Monitor,
    count: bool,
    plan: &Plan,
) -> Result<Finding, AllocError>
    requires { IsPlanOf monitor.now plan.now }
    ensures { IfOk result (IsFindingBy count monitor.now plan.now) }
{
    if count {
        audit_by_counting(alloc, monitor, plan)
    } else {
        audit(alloc, monitor, plan)
    }
}

/// Where signals may be counted, why what the finding names has no certificate, if that is found.
/// It fails only for want of memory.
fn failure_by(
    alloc: Global,
    monitor: &Monitor,
    count: bool,
    plan: &Plan,
    finding: Finding,
) -> Result<Option<Failure>, AllocError>
    requires plan { IsPlanOf monitor.now plan.now }
    requires found { IsFindingBy count monitor.now plan.now finding }
    ensures { IfOk result (IsFailureBy count monitor.now plan.now finding) }
{
    if count {
        finding_failure(alloc, monitor, plan, finding)
    } else {
        Ok(None)
    }
}
