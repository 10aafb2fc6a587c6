//! `expresso explain FILE [--count]`, without `--fits`.

ghost use Rattle.std.specs.Prelude.{IfOk, false, true};
ghost use Rattle.front_command.specs.CommandLine.{explain};
ghost use Rattle.expresso_answers.specs.Ending.{CommandEnds, KeepsFiles};
ghost use Rattle.expresso_reports.specs.inner.Explaining.{IsCountExplained, IsExplained};

use crate::text::{show_count_explanation, show_explanation};
use base_io::{Files, Sink};
use expresso_answers::{Status, monitor_of, placed_of};
use lang_monitor::Monitor;
use machine_events::Plan;
use plan_counted::count_plan;
use plan_needs::{BroadcastReason, broadcast_reasons, counted_reasons};
use plan_why::{Reason, reasons};
use std::alloc::{AllocError, Global};

/// A plan that a monitor is compiled to, and why each thing in it stands that costs something.
#[derive(Debug, Drop)]
pub(crate) struct Explanation {
    pub plan: Plan,
    pub reasons: Vec<Reason>,
}

/// The same of a counted plan, and why the broadcasts of blocks on counted conditions stand.
#[derive(Debug, Drop)]
pub(crate) struct CountExplanation {
    pub explanation: Explanation,
    pub broadcasts: Vec<BroadcastReason>,
}

/// Compiles a monitor file and writes the plan, with a state that shows why each thing stands that
/// costs something, or the line of its first fault.
pub fn explain_file<F: Files, S: Sink>(
    alloc: Global,
    file: &str,
    files: &mut F,
    out: &mut S,
) -> Status
    requires { F.may_read files.old file.now }
    ensures ended { CommandEnds (explain file.now false false)
        (F.seen files.old) (F.seen files.new) result (S.seen out.old) (S.seen out.new) }
    ensures files { KeepsFiles (F.seen files.old) (F.seen files.new)
        (F.may_read files.old) (F.may_read files.new) }
{
    let found = match monitor_of(alloc, file, files, out) {
        Ok(found) => found,
        Err(status) => return status,
    };
    match explanation_of(alloc, &found.monitor) {
        Ok(explanation) => show_explanation(&found.tree, &found.monitor, &explanation, out),
        Err(AllocError) => Status::OutOfMemory,
    }
}

/// The plan of a monitor with its reasons. It fails only for want of memory.
pub(crate) fn explanation_of(alloc: Global, monitor: &Monitor) -> Result<Explanation, AllocError>
    ensures { IfOk result (λ found. IsExplained monitor.now found.plan found.reasons.items) }
{
    let plan = placed_of(alloc, monitor)?.plan;
    let reasons = reasons(alloc, monitor, &plan)?;
    Ok(Explanation { plan, reasons })
}

/// The same for the counted plan of a monitor file.
pub fn explain_counted_file<F: Files, S: Sink>(
    alloc: Global,
    file: &str,
    files: &mut F,
    out: &mut S,
) -> Status
    requires { F.may_read files.old file.now }
    ensures ended { CommandEnds (explain file.now true false)
        (F.seen files.old) (F.seen files.new) result (S.seen out.old) (S.seen out.new) }
    ensures files { KeepsFiles (F.seen files.old) (F.seen files.new)
        (F.may_read files.old) (F.may_read files.new) }
{
    let found = match monitor_of(alloc, file, files, out) {
        Ok(found) => found,
        Err(status) => return status,
    };
    match count_explanation_of(alloc, &found.monitor) {
        Ok(explanation) => show_count_explanation(&found.tree, &found.monitor, &explanation, out),
        Err(AllocError) => Status::OutOfMemory,
    }
}

/// The counted plan of a monitor with its reasons. It fails only for want of memory.
pub(crate) fn count_explanation_of(
    alloc: Global,
    monitor: &Monitor,
) -> Result<CountExplanation, AllocError>
    ensures { IfOk result (λ found. IsCountExplained monitor.now found.explanation.plan
        found.explanation.reasons.items found.broadcasts.items) }
{
    let placed = placed_of(alloc, monitor)?.plan;
    let counted = count_plan(alloc, monitor, &placed)?;
    let reasons = counted_reasons(alloc, monitor, &counted)?;
    let broadcasts = broadcast_reasons(alloc, monitor, &counted)?;
    let plan = counted.plan;
    let explanation = Explanation { plan, reasons };
    Ok(CountExplanation {
        explanation,
        broadcasts,
    })
}
