//! What follows from the definitions alone.

ghost use Rattle.std.specs.Prelude.{◌≡◌};
ghost use Rattle.machine_events.specs.declared.plan.Plan.{Plan};
ghost use Rattle.plan_counted.specs.Exact.{HasNoOpenQuestion};
ghost use Rattle.machine_events.specs.Plans.{IsLawful};
ghost use Rattle.lang_monitor.specs.MonitorParts.{MonitorParts, IsMonitor};
ghost use Rattle.plan_prune.specs.Hardness.{HasNoHardClaim, HasNoOpenClaim};
ghost use Rattle.report_verdict.specs.Reports.{IsPlanOf};
ghost use Rattle.report_audit.specs.declared.finding.Finding.{Finding};
ghost use Rattle.report_audit.specs.declared.finding.Finding.TheVariants.{Lawful};
ghost use Rattle.report_audit.specs.CountedFindings.{IsCountedFinding, IsLawfulByRows};
ghost use Rattle.report_audit.specs.Findings.{IsFinding};

use plan_prune::easy_monitors_have_no_open_claim;

/// Where no claim of the monitor is hard, as none of a small one is, what is found of a lawful plan
/// is that it is lawful.
pub fn lawful_plans_are_found()
    ensures { (monitor : MonitorParts) (plan : Plan) (finding : Finding)
        → IsMonitor monitor → IsPlanOf monitor plan → HasNoHardClaim monitor
        → IsLawful monitor plan → IsFinding monitor plan finding → finding ≡ Lawful }
{
    easy_monitors_have_no_open_claim();
}

/// Where signals may be counted, what is found of a plan that is lawful by rows of its guards that
/// are tried is that it is lawful, if no query may stay open; and what is found of a lawful plan,
/// if none of a claim may.
pub fn counted_plans_are_found()
    ensures counted { (monitor : MonitorParts) (plan : Plan) (finding : Finding)
        → IsMonitor monitor → IsPlanOf monitor plan → HasNoOpenClaim monitor plan.kept
        → HasNoOpenQuestion monitor plan.kept → IsLawfulByRows monitor plan
        → IsCountedFinding monitor plan finding → finding ≡ Lawful }
    ensures lawful { (monitor : MonitorParts) (plan : Plan) (finding : Finding)
        → IsMonitor monitor → IsPlanOf monitor plan → HasNoOpenClaim monitor plan.kept
        → IsLawful monitor plan → IsCountedFinding monitor plan finding → finding ≡ Lawful }
    ensures easy { (monitor : MonitorParts) (plan : Plan) (finding : Finding)
        → IsMonitor monitor → IsPlanOf monitor plan → HasNoHardClaim monitor
        → IsLawful monitor plan → IsCountedFinding monitor plan finding → finding ≡ Lawful }
{
    easy_monitors_have_no_open_claim();
}
