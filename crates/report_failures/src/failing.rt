//! Failures of what claims and questions ask.

ghost use Rattle.std.specs.Prelude.{◌≡◌, IfOk, true};
ghost use Rattle.std.specs.List.{list_all};
ghost use Rattle.lang_monitor.specs.Queries.{query_of};
ghost use Rattle.logic_wp.specs.Expressible.{is_expressible};
ghost use Rattle.logic_wp.specs.PlainClaims.{IsBlockNumber, MayAsk, ReadsNone};
ghost use Rattle.plan_count.specs.Questions.{HasRowAt, MayAskQuestion, question_query};
ghost use Rattle.plan_why.specs.Failures.{IsFailureOf};
ghost use Rattle.report_verdict.specs.Reports.{IsPlanOf};
ghost use Rattle.report_audit.specs.CountedFindings.{IsCountedFinding};
ghost use Rattle.report_failures.specs.FindingFailures.{IsFailureByRow, IsFindingFailure};
ghost use Rattle.report_failures.specs.FindingFailures.{IsQuestionFailure};
ghost use Rattle.report_failures.specs.inner.Asked.{IsAbout};

use lang_monitor::{Candidate, Claim, Monitor};
use logic_wp::claim_query;
use machine_events::Plan;
use plan_candidates::candidates_have_formulas;
use plan_count::{Question, has_row, question_query};
use plan_why::{Failure, failure_of};
use report_audit::Finding;
use std::alloc::{AllocError, Global};

/// A failure of the claim's query, where one is found.
fn claim_failure(
    alloc: Global,
    monitor: &Monitor,
    kept: &[Candidate],
    claim: Claim,
) -> Result<Option<Failure>, AllocError>
    requires kept { list_all is_expressible kept.now ≡ true }
    requires claim { MayAsk monitor.now claim }
    ensures { IfOk result (IsFailureOf monitor.now (query_of monitor.now kept.now claim)) }
{
    let query = claim_query(alloc, monitor, kept, claim)?;
    Ok(failure_of(alloc, monitor, &query)?)
}

/// A failure of the question's query, where one is found.
fn query_failure(
    alloc: Global,
    monitor: &Monitor,
    kept: &[Candidate],
    question: Question,
) -> Result<Option<Failure>, AllocError>
    requires kept { list_all is_expressible kept.now ≡ true }
    requires question { MayAskQuestion monitor.now question }
    ensures { IfOk result
        (IsFailureOf monitor.now (question_query monitor.now kept.now question)) }
{
    let query = question_query(alloc, monitor, kept, question)?;
    Ok(failure_of(alloc, monitor, &query)?)
}

/// The same of a question that is about this condition, row and block; where the guard has no such
/// row, a failure of the query that one waiter is enough after the block.
fn failure_by_row(
    alloc: Global,
    monitor: &Monitor,
    kept: &[Candidate],
    question: Question,
    condition: u32,
    row: u32,
    block: u32,
) -> Result<Option<Failure>, AllocError>
    requires kept { list_all is_expressible kept.now ≡ true }
    requires block { IsBlockNumber monitor.now block }
    requires condition { ReadsNone monitor.now condition }
    requires question { HasRowAt monitor.now condition row → MayAskQuestion monitor.now question }
    ensures { IfOk result (IsFailureByRow monitor.now kept.now question condition row block) }
{
    let has_row = has_row(monitor, condition, row);
    if !has_row {
        let claim = Claim::One { condition, block };
        return Ok(claim_failure(alloc, monitor, kept, claim)?);
    }
    Ok(query_failure(alloc, monitor, kept, question)?)
}

/// A failure of what the question asks, where one is found.
fn question_failure(
    alloc: Global,
    monitor: &Monitor,
    kept: &[Candidate],
    question: Question,
) -> Result<Option<Failure>, AllocError>
    requires kept { list_all is_expressible kept.now ≡ true }
    requires question { IsAbout monitor.now question }
    ensures { IfOk result (IsQuestionFailure monitor.now kept.now question) }
{
    match question {
        Question::Counts {
            condition,
            row,
            block,
        } => failure_by_row(alloc, monitor, kept, question, condition, row, block),
        Question::Gives {
            condition,
            row,
            block,
        } => failure_by_row(alloc, monitor, kept, question, condition, row, block),
        Question::First {
            condition,
            row,
            block,
        } => failure_by_row(alloc, monitor, kept, question, condition, row, block),
    }
}

/// Why the claim or the question of a finding has no certificate: a valuation in whole numbers at
/// which the triple of its query fails, under the lines that the plan keeps, where one is found. Of
/// a question by a row that the guard doesn't have it is one at which the triple fails by which one
/// waiter is enough. Of other findings there is none.
///
/// None is found of a claim or a question only where its query is valid or not plain
/// (`plan_why::failure_of`). It fails only for want of memory.
pub fn finding_failure(
    alloc: Global,
    monitor: &Monitor,
    plan: &Plan,
    finding: Finding,
) -> Result<Option<Failure>, AllocError>
    requires plan { IsPlanOf monitor.now plan.now }
    requires found { IsCountedFinding monitor.now plan.now finding }
    ensures { IfOk result (IsFindingFailure monitor.now plan.now finding) }
{
    let _blocks = monitor.blocks();
    candidates_have_formulas(monitor);
    let kept = plan.kept.items();
    match finding {
        Finding::Lawful => Ok(None),
        Finding::Start { .. } => Ok(None),
        Finding::Kind { .. } => Ok(None),
        Finding::Unproved { claim } => Ok(claim_failure(alloc, monitor, kept, claim)?),
        Finding::Uncounted { question } => Ok(question_failure(alloc, monitor, kept, question)?),
    }
}
