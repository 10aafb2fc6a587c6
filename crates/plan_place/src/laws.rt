//! What follows from the prover's answers, and from the definition of exact plans alone.

ghost use Rattle.std.specs.Prelude.{◌≡◌};
ghost use Rattle.machine_events.specs.declared.plan.Plan.{Plan};
ghost use Rattle.machine_events.specs.Plans.{FitsPlan, IsLawful};
ghost use Rattle.lang_monitor.specs.MonitorParts.{MonitorParts, IsMonitor};
ghost use Rattle.plan_prune.specs.Hardness.{HasNoHardClaim, HasNoOpenClaim, IsSmall};
ghost use Rattle.plan_prune.specs.Invariants.{IsGreatest};
ghost use Rattle.plan_place.specs.Exact.{IsExact, IsLicensed};
ghost use Rattle.plan_place.specs.Relayed.{RelayedPlansAreLawful, RelayedPlansFit};
ghost use Rattle.plan_place.specs.Relayed.{RelayedPlansOmitNoMore, RelayedSectionsWakeOne};
ghost use Rattle.plan_place.specs.inner.Answers.{IsAnswered};

use logic_cert::refuted_formula_is_false;
use logic_wp::refuted_query_is_valid;
use plan_prune::easy_monitors_have_no_open_claim;

/// A plan that the prover's answers make fits, is lawful and licensed, and exact where it keeps the
/// greatest invariant, under which no query may stay open: so where no claim of the monitor is
/// hard, as none of a small one is.
pub(crate) fn answered_plans_are_placed()
    ensures fits { (monitor : MonitorParts) (plan : Plan) → IsMonitor monitor
        → IsAnswered monitor plan → FitsPlan monitor plan }
    ensures lawful { (monitor : MonitorParts) (plan : Plan) → IsMonitor monitor
        → IsAnswered monitor plan → IsLawful monitor plan }
    ensures licensed { (monitor : MonitorParts) (plan : Plan) → IsMonitor monitor
        → IsAnswered monitor plan → IsLicensed monitor plan }
    ensures exact { (monitor : MonitorParts) (plan : Plan) → IsMonitor monitor
        → IsAnswered monitor plan → IsSmall monitor → IsExact monitor plan }
    ensures none_hard { (monitor : MonitorParts) (plan : Plan) → IsMonitor monitor
        → IsAnswered monitor plan → HasNoHardClaim monitor → IsExact monitor plan }
    ensures none_open { (monitor : MonitorParts) (plan : Plan) → IsMonitor monitor
        → IsAnswered monitor plan → HasNoOpenClaim monitor plan.kept
        → IsGreatest monitor plan.kept → IsExact monitor plan }
{
    refuted_formula_is_false(); // so where the prover finds a certificate
    refuted_query_is_valid(); // the claim of a note or a kind holds
    easy_monitors_have_no_open_claim(); // `none_hard` follows from `none_open`
}

/// A monitor has one exact plan at most.
pub fn one_exact_plan()
    ensures { (monitor : MonitorParts) (plan other : Plan)
        → FitsPlan monitor plan → FitsPlan monitor other
        → IsExact monitor plan → IsExact monitor other
        → plan ≡ other }
{}

/// Where a plan fits, so does the relayed one; where it is lawful too, so is the relayed one, which
/// has a note on each condition on which the plan has one.
pub fn relayed_plans_are_lawful()
    ensures fits { RelayedPlansFit }
    ensures lawful { RelayedPlansAreLawful }
    ensures omits { RelayedPlansOmitNoMore }
{}

/// Under a relayed plan each section wakes, of the clients that wait on a condition that reads no
/// inputs, one at most.
pub fn relayed_sections_wake_one()
    ensures { RelayedSectionsWakeOne }
{}
