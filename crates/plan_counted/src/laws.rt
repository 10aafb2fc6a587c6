//! What follows from the prover's answers.

ghost use Rattle.plan_counted.specs.CountedAndRelayed.{CountedPlansOmitNoMore};
ghost use Rattle.plan_counted.specs.Exact.{CountedIsExact};
ghost use Rattle.plan_counted.specs.Mixed.{MixedPlansAreLawful};
ghost use Rattle.plan_counted.specs.inner.Answers.{AnsweredColumnsCount, AnsweredColumnsFit};
ghost use Rattle.plan_counted.specs.inner.Answers.{AnsweredColumnsLicense};

use machine_events::counting_applies;
use plan_count::answers_count;

/// A plan with what blocks have on conditions that are counted, as the prover answers, fits, is
/// lawful by counting, and is the placed plan, counted.
pub(crate) fn answered_columns_count()
    ensures fits { AnsweredColumnsFit }
    ensures lawful { AnsweredColumnsCount }
    ensures counted { AnsweredColumnsLicense }
{
    answers_count(); // valid questions leave a condition counted
    counting_applies(); // and a plan whose conditions are counted is lawful by counting
}

/// A counted plan is exact where the prover may leave no question open: a condition that was of
/// kind broadcast is of kind signal exactly where it may be counted, and then a block has no note
/// on it exactly where it needs none, and a signal exactly where one is enough, by the first of the
/// rows that need the fewest broadcasts.
pub fn counted_plans_are_exact()
    ensures { CountedIsExact }
{}

/// Where a counted plan leaves a note out, the placed plan does.
pub fn counted_plans_omit_no_more()
    ensures { CountedPlansOmitNoMore }
{}

/// A plan that has on each condition what one of two plans has, which are lawful by counting and
/// keep the same candidates, is lawful by counting too.
pub fn mixed_plans_are_lawful()
    ensures { MixedPlansAreLawful }
{}
