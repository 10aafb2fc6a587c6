//! What follows from the definitions alone.

ghost use Rattle.plan_fits.specs.Laws.{CertifiedBlocksFit, NumberlessBlocksFit, QuestionsAreExact};

use logic_cert::refuted_formula_is_false;

/// A block fits exactly where its question is true at no valuation.
pub fn questions_are_exact()
    ensures { QuestionsAreExact }
{}

/// A block fits where a certificate refutes its question.
pub fn certified_blocks_fit()
    ensures { CertifiedBlocksFit }
{
    refuted_formula_is_false(); // so a question that is refuted is true at no valuation
}

/// A block that assigns and answers no number fits, and its question never stays open.
pub fn numberless_blocks_fit()
    ensures { NumberlessBlocksFit }
{}
