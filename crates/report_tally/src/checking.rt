//! The check of a counted report.

ghost use Rattle.std.specs.Prelude.{◌≡◌, ◌+◌, ◌^◌, ◌<◌, IfOk, IfSome, All, true, length};
ghost use Rattle.std.specs.List.{list_all, zip};
ghost use Rattle.logic_wp.specs.Expressible.{is_expressible};
ghost use Rattle.plan_count.specs.Questions.{MayAskQuestion};
ghost use Rattle.report_verdict.specs.Verdicts.{AreChecked, IsLawfulAtSight};
ghost use Rattle.report_tally.specs.CountedReports.{IsCountedReport, owed_proofs};
ghost use Rattle.report_tally.specs.CountedVerdicts.{IsCountedVerdict};
ghost use Rattle.report_tally.specs.inner.Checks.{IsCheckOf, IsFirstUnanswered};

use super::owed::{owed_claims, owed_questions};
use super::report::CountedReport;
use lang_monitor::{Candidate, Monitor};
use logic_cert::refuted_formula_is_false;
use logic_outline::{Outline, is_refuted};
use logic_wp::{negated, refuted_query_is_valid};
use machine_events::counting_applies;
use plan_candidates::candidates_have_formulas;
use plan_count::{Question, answers_count, question_query};
use report_verdict::{Verdict, first_open, is_lawful_at_sight, line_of};
use std::alloc::{AllocError, Global};

/// Checks a counted report, which has one certificate for each claim and each question that its
/// plan rests on, and asks no prover.
///
/// It is accepted only where its plan fits the monitor and is lawful by counting, and each
/// certificate refutes the negated query of its claim or question. It is unlawful exactly where a
/// candidate that the plan keeps is false at the start, or its kinds and notes don't suit the
/// conditions. It is unproved at a line only where it isn't unlawful, the certificates on the lines
/// before are accepted, and the one on this line doesn't refute its negated query, or this query
/// isn't negated within the limits of [`negated`]. It fails only for want of memory.
pub fn recheck_counted(
    alloc: Global,
    monitor: &Monitor,
    report: &CountedReport,
) -> Result<Verdict, AllocError>
    requires { IsCountedReport monitor.now report.now }
    ensures { IfOk result (IsCountedVerdict monitor.now report.now) }
{
    let _blocks = monitor.blocks();
    candidates_have_formulas(monitor);
    if !is_lawful_at_sight(monitor, &report.plan) {
        return Ok(Verdict::Unlawful);
    }
    let claims = owed_claims(alloc, monitor, &report.plan, report.counted.items())?;
    let kept = report.plan.kept.items();
    match first_open(alloc, monitor, kept, &claims, report.proofs.items())? {
        Some(place) => Ok(Verdict::Unproved {
            line: line_of(monitor, &report.plan, place),
        }),
        None => recheck_answers(alloc, monitor, report),
    }
}

/// Checks the answers of a report whose plan is lawful at sight, and each claim of which is proved.
fn recheck_answers(
    alloc: Global,
    monitor: &Monitor,
    report: &CountedReport,
) -> Result<Verdict, AllocError>
    requires is { IsCountedReport monitor.now report.now }
    requires sight { IsLawfulAtSight monitor.now report.now.plan }
    requires proofs { AreChecked monitor.now report.now.plan.kept
        (owed_proofs monitor.now report.now) }
    ensures { IfOk result (IsCountedVerdict monitor.now report.now) }
{
    let _blocks = monitor.blocks();
    refuted_formula_is_false();
    refuted_query_is_valid();
    answers_count();
    counting_applies();
    candidates_have_formulas(monitor);
    let questions = owed_questions(alloc, monitor, &report.plan, report.counted.items())?;
    let kept = report.plan.kept.items();
    let proofs = report.proofs.items();
    let answers = report.answers.items();
    match first_unanswered(alloc, monitor, kept, &questions, answers)? {
        Some(place) => Ok(Verdict::Unproved {
            line: line_of(monitor, &report.plan, proofs.len() + place),
        }),
        None => Ok(Verdict::Accepted {
            claims: proofs.len() as u64 + answers.len() as u64,
        }),
    }
}

/// The place of the first question whose certificate isn't accepted, or none.
fn first_unanswered(
    alloc: Global,
    monitor: &Monitor,
    kept: &[Candidate],
    questions: &[Question],
    certs: &[Outline],
) -> Result<Option<usize>, AllocError>
    requires kept { list_all is_expressible kept.now ≡ true }
    requires questions { All (MayAskQuestion monitor.now) questions.now }
    requires each { length certs.now ≡ length questions.now }
    ensures first { IfOk result
        (IsFirstUnanswered monitor.now kept.now (zip questions.now certs.now)) }
    ensures near { IfOk result (λ found. IfSome found (λ place. place < length certs.now)) }
{
    for place in 0..questions.len() {
        let answered = is_answered(alloc, monitor, kept, questions[place], &certs[place])?;
        if !answered {
            return Ok(Some(place));
        }
    }
    Ok(None)
}

/// Whether the certificate refutes the negated query of the question, which is negated within the
/// limits.
fn is_answered(
    alloc: Global,
    monitor: &Monitor,
    kept: &[Candidate],
    question: Question,
    cert: &Outline,
) -> Result<bool, AllocError>
    requires kept { list_all is_expressible kept.now ≡ true }
    requires question { MayAskQuestion monitor.now question }
    ensures { IfOk result (IsCheckOf monitor.now kept.now question cert.now) }
{
    let query = question_query(alloc, monitor, kept, question)?;
    match negated(alloc, monitor, &query)? {
        Some(formula) => is_refuted(alloc, &formula, cert),
        None => Ok(false),
    }
}
