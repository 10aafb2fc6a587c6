//! What follows from the definitions alone, of runs and reports.

ghost use Rattle.std.specs.Prelude.{◌≡◌, ℕ, List, Option};
ghost use Rattle.front_command.specs.declared.plan_choice.PlanChoice.{PlanChoice};
ghost use Rattle.plan_claims.specs.Backing.{AreProofs, backed_claims};
ghost use Rattle.expresso_answers.specs.declared.status.Status.{Status};
ghost use Rattle.expresso.specs.ReportedRuns.{AreRunAndReport};

use lang_syntax::derives_one_tree;
use lang_tokens::one_spelling;
use plan_place::one_exact_plan;

/// Where no claim of a monitor is hard, `report` prints the certificates of the very plan that
/// `run` and `block` place: of the same bytes they place the same plan, and each claim that it
/// rests on has its certificate among those printed.
pub fn runs_are_reported()
    ensures plans { (choice : PlanChoice) (status : Status) (held : List ℕ → Option (List ℕ))
        (file clients_bytes text report_text : List ℕ)
        (is : AreRunAndReport choice status held file clients_bytes text report_text)
        → is.run.placed ≡ is.report.placed.plan }
    ensures proofs { (choice : PlanChoice) (status : Status) (held : List ℕ → Option (List ℕ))
        (file clients_bytes text report_text : List ℕ)
        (is : AreRunAndReport choice status held file clients_bytes text report_text)
        → AreProofs is.run.monitor is.run.placed.kept
        (backed_claims is.run.monitor is.run.placed) is.report.placed.proofs }
{
    one_spelling();
    derives_one_tree();
    one_exact_plan();
}
