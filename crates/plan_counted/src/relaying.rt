//! Counted plans in which the signals on every other condition are relayed.

ghost use Rattle.std.specs.Prelude.{◌≡◌, IfOk, length};
ghost use Rattle.machine_events.specs.Plans.{FitsPlan, IsLawful};
ghost use Rattle.machine_events.specs.Counts.{IsLawfulByCounting};
ghost use Rattle.plan_counted.specs.Counted.{counted_of};
ghost use Rattle.plan_counted.specs.CountedAndRelayed.{CountsBroadcasts, IsCountedAndRelayed};
ghost use Rattle.plan_counted.specs.CountedAndRelayed.{OmitsNoMore, counted_and_relayed};

use super::counted::CountedPlan;
use super::laws::mixed_plans_are_lawful;
use super::placing::counted_plan;
use lang_monitor::Monitor;
use machine_events::{Plan, counting_loses_no_wakeup};
use plan_place::{relay, relayed_plans_are_lawful};
use std::alloc::{AllocError, Global};

/// The counted plan, with the signals relayed on each condition that is not counted. It fails only
/// for want of memory.
///
/// A condition that is counted stays as it is counted, and every other one is as the relayed plan
/// has it: its kind, and the note of each block (`specs/CountedAndRelayed`). So the plan is lawful
/// by counting, and leaves out no note that the placed plan has.
pub fn relay_uncounted(
    alloc: Global,
    monitor: &Monitor,
    placed: &Plan,
    counted: &CountedPlan,
) -> Result<Plan, AllocError>
    requires fits { FitsPlan monitor.now placed.now }
    requires lawful { IsLawful monitor.now placed.now }
    requires counted_fits { FitsPlan monitor.now counted.now.plan }
    requires counted_lawful { IsLawfulByCounting monitor.now counted.now.plan }
    requires counted_plan { counted.now.plan ≡ counted_of placed.now counted.now.columns }
    requires counted_omits { OmitsNoMore placed.now counted.now.plan }
    requires broadcasts { CountsBroadcasts monitor.now placed.now counted.now.columns }
    requires many { length counted.now.columns ≡ length monitor.now.conditions }
    ensures fits { IfOk result (λ plan. FitsPlan monitor.now plan) }
    ensures lawful { IfOk result (λ plan. IsLawfulByCounting monitor.now plan) }
    ensures plan { IfOk result (λ plan.
        plan ≡ counted_and_relayed monitor.now placed.now counted.now.columns) }
    ensures relayed { IfOk result (λ plan.
        IsCountedAndRelayed monitor.now placed.now counted.now.plan plan) }
    ensures omits { IfOk result (λ plan. OmitsNoMore placed.now plan) }
{
    let _blocks = monitor.blocks();
    counting_loses_no_wakeup(); // a lawful plan is lawful by counting too
    mixed_plans_are_lawful(); // and so is one that has parts of two such plans
    relayed_plans_are_lawful(); // one of which is the relayed plan
    let relayed = relay(alloc, monitor, placed)?;
    let plan = counted_plan(alloc, &relayed, counted.columns.items())?;
    Ok(plan)
}
