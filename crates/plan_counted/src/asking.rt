//! The prover is asked a question.

ghost use Rattle.std.specs.Prelude.{◌≡◌, IfOk, true};
ghost use Rattle.std.specs.List.{list_all};
ghost use Rattle.logic_wp.specs.Expressible.{is_expressible};
ghost use Rattle.plan_count.specs.Questions.{MayAskQuestion};
ghost use Rattle.plan_counted.specs.inner.Answers.{IsAnswerTo};

use lang_monitor::{Candidate, Monitor};
use logic_cert::Cert;
use plan_count::{Question, question_query};
use plan_prune::certificate_of;
use std::alloc::{AllocError, Global};

/// A certificate that what a question asks is so, where the prover finds one.
pub(crate) fn answer(
    alloc: Global,
    monitor: &Monitor,
    kept: &[Candidate],
    question: Question,
) -> Result<Option<Cert>, AllocError>
    requires kept { list_all is_expressible kept.now ≡ true }
    requires question { MayAskQuestion monitor.now question }
    ensures { IfOk result (IsAnswerTo monitor.now kept.now question) }
{
    let query = question_query(alloc, monitor, kept, question)?;
    let _blocks = monitor.blocks();
    certificate_of(alloc, monitor, &query)
}
