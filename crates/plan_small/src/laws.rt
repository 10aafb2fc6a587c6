//! What follows from the definitions alone.

ghost use Rattle.std.specs.Prelude.{◌≡◌, All, List, map};
ghost use Rattle.lang_monitor.specs.MonitorParts.{MonitorParts, IsMonitor};
ghost use Rattle.machine_events.specs.declared.plan.Plan.{Plan};
ghost use Rattle.machine_events.specs.Plans.{FitsPlan};
ghost use Rattle.plan_prune.specs.Hardness.{IsSmall};
ghost use Rattle.plan_place.specs.Exact.{IsExact};
ghost use Rattle.plan_why.specs.declared.reason.Reason.{Reason};
ghost use Rattle.plan_why.specs.Reasons.{IsReason};
ghost use Rattle.plan_why.specs.Things.{things_of};
ghost use Rattle.plan_small.specs.Plain.{IsPlain};
ghost use Rattle.plan_small.specs.Shown.{AreShown};

/// A small monitor is plain: where blocks are simple, negated queries have difference rows alone.
pub fn small_monitors_are_plain()
    ensures { (monitor : MonitorParts) → IsMonitor monitor → IsSmall monitor → IsPlain monitor }
{}

/// Of the exact plan of a small monitor each reason that is right for its thing shows a valuation:
/// none is undecided.
pub fn reasons_of_small_monitors_are_shown()
    ensures { (monitor : MonitorParts) (plan : Plan) (reasons : List Reason)
        → IsMonitor monitor → IsSmall monitor → FitsPlan monitor plan → IsExact monitor plan
        → map (λ reason. reason.thing) reasons ≡ things_of monitor plan
        → All (IsReason monitor plan) reasons → AreShown reasons }
{}
