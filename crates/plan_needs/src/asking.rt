//! Failures of the queries that would have to be valid.

ghost use Rattle.std.specs.Prelude.{◌≡◌, ◌∷◌, [], IfOk, true};
ghost use Rattle.std.specs.List.{list_all};
ghost use Rattle.lang_monitor.specs.Queries.{query_of};
ghost use Rattle.logic_wp.specs.Expressible.{is_expressible};
ghost use Rattle.logic_wp.specs.PlainClaims.{MayAsk};
ghost use Rattle.plan_why.specs.Failures.{IsFailureAmong};
ghost use Rattle.plan_count.specs.Questions.{MayAskQuestion, question_query};

use lang_monitor::{Candidate, Claim, Monitor};
use logic_wp::claim_query;
use plan_count::{Question, question_query};
use plan_why::{Failure, failure_of};
use std::alloc::{AllocError, Global};

/// A failure of the claim's query, where one is found.
pub(crate) fn claim_failure(
    alloc: Global,
    monitor: &Monitor,
    kept: &[Candidate],
    claim: Claim,
) -> Result<Option<Failure>, AllocError>
    requires kept { list_all is_expressible kept.now ≡ true }
    requires claim { MayAsk monitor.now claim }
    ensures { IfOk result (IsFailureAmong monitor.now (query_of monitor.now kept.now claim ∷ [])) }
{
    let query = claim_query(alloc, monitor, kept, claim)?;
    Ok(failure_of(alloc, monitor, &query)?)
}

/// A failure of the question's query, where one is found.
pub(crate) fn question_failure(
    alloc: Global,
    monitor: &Monitor,
    kept: &[Candidate],
    question: Question,
) -> Result<Option<Failure>, AllocError>
    requires kept { list_all is_expressible kept.now ≡ true }
    requires question { MayAskQuestion monitor.now question }
    ensures { IfOk result
        (IsFailureAmong monitor.now (question_query monitor.now kept.now question ∷ [])) }
{
    let query = question_query(alloc, monitor, kept, question)?;
    Ok(failure_of(alloc, monitor, &query)?)
}
