//! The text of a counted report, read.

ghost use Rattle.std.specs.Prelude.{◌≡◌, ◌≤◌, [], IfOk, MatchOption, is_some, length, map};
ghost use Rattle.lang_base.specs.Limits.{CONDITIONS};
ghost use Rattle.report_verdict.specs.Reports.{IsPlanOf};
ghost use Rattle.report_tally.specs.CountedReadings.{IsCountedRead};
ghost use Rattle.report_tally.specs.inner.Lines.{AreMarked, AreSignals, IsWithAnswers, IsWithLines};

use super::answering::{Answered, read_conditions};
use super::finding::{found_claims, left_out};
use super::owed::owed_claims;
use super::report::CountedReport;
use base_list::Seq;
use lang_monitor::Monitor;
use logic_outline::Outline;
use machine_events::Plan;
use plan_candidates::candidates_have_formulas;
use report_proofs::{plan_front, read_proofs};
use report_verdict::claims_of;
use std::alloc::{AllocError, Global};

/// The counted report whose text the bytes are, or none where they are no counted report's text. It
/// fails only for want of memory, however deep certificates nest.
///
/// Where no condition is counted the text is that of the plain report. A condition is counted whose
/// kind is signal, and of which no line says that one waiter is enough; by the row that the lines
/// of its questions name, which is the first where they name none.
pub fn read_counted_report(
    alloc: Global,
    monitor: &Monitor,
    bytes: &[u8],
) -> Result<Option<CountedReport>, AllocError>
    ensures { IfOk result (IsCountedRead monitor.now bytes.now) }
{
    match plan_front(alloc, monitor, bytes)? {
        Some((plan, rest)) => with_lines(alloc, monitor, plan, rest),
        None => Ok(None),
    }
}

/// The report of a plan, where the bytes are the lines of what it rests on.
fn with_lines(
    alloc: Global,
    monitor: &Monitor,
    plan: Plan,
    bytes: &[u8],
) -> Result<Option<CountedReport>, AllocError>
    requires { IsPlanOf monitor.now plan }
    ensures { IfOk result (IsWithLines monitor.now plan bytes.now) }
{
    let _conditions = monitor.conditions();
    let marked = marked(alloc, monitor, &plan, bytes)?;
    let claims = owed_claims(alloc, monitor, &plan, &marked)?;
    match read_proofs(alloc, monitor, &claims, bytes)? {
        Some((proofs, rest)) => with_answers(alloc, monitor, plan, &marked, proofs, rest),
        None => Ok(None),
    }
}

/// Which conditions are counted where the bytes are the lines of what the plan rests on, each here
/// by its first row.
fn marked(
    alloc: Global,
    monitor: &Monitor,
    plan: &Plan,
    bytes: &[u8],
) -> Result<Vec<Option<u32>>, AllocError>
    requires { IsPlanOf monitor.now plan.now }
    ensures { IfOk result (λ marked. AreMarked monitor.now plan.now bytes.now marked.items) }
{
    let _conditions = monitor.conditions();
    candidates_have_formulas(monitor);
    let all = claims_of(alloc, monitor, plan)?;
    let found = found_claims(alloc, monitor, &all, bytes)?;
    let marked = left_out(alloc, &found, plan.kinds.items())?;
    Ok(marked)
}

/// The report, where the bytes are the lines of the questions on the conditions that are marked.
fn with_answers(
    alloc: Global,
    monitor: &Monitor,
    plan: Plan,
    marked: &[Option<u32>],
    proofs: Vec<Outline>,
    bytes: &[u8],
) -> Result<Option<CountedReport>, AllocError>
    requires few { length marked.now ≤ CONDITIONS }
    requires are { AreSignals plan marked.now }
    ensures { IfOk result
        (IsWithAnswers monitor.now plan (map is_some marked.now) proofs.items bytes.now) }
{
    match read_conditions(alloc, monitor, &plan, marked, bytes)? {
        Some((answered, rest)) => Ok(whole_report(plan, answered, proofs, rest)),
        None => Ok(None),
    }
}

/// The report, where nothing is left after it.
fn whole_report(
    plan: Plan,
    answered: Answered,
    proofs: Vec<Outline>,
    rest: &[u8],
) -> Option<CountedReport>
    ensures { MatchOption result (rest.now ≡ [] → ⊥)
        (λ report. (report ≡ record {
          plan = plan;
          counted = answered.counted.items;
          proofs = proofs.items;
          answers = answered.answers.items;
        }) × (rest.now ≡ [])) }
{
    if rest.is_empty() {
        Some(CountedReport {
            plan,
            counted: Seq::of(answered.counted),
            proofs: Seq::of(proofs),
            answers: Seq::of(answered.answers),
        })
    } else {
        None
    }
}
