//! The plan that a monitor is compiled to, and the one that is asked for.

ghost use Rattle.std.specs.Prelude.{IfOk};
ghost use Rattle.plan_claims.specs.Backing.{AreProofs, backed_claims};
ghost use Rattle.expresso_answers.specs.Placements.{IsChosen, IsCounting, IsPlacement};

use front_command::PlanChoice;
use lang_monitor::Monitor;
use machine_events::Plan;
use plan_claims::PlacedPlan;
use plan_counted::{CountedPlan, count_plan, relay_uncounted};
use plan_place::{place, relay, relayed_plans_are_lawful};
use report_proofs::read_numbers;
use report_tally::read_column_numbers;
use std::alloc::{AllocError, Global};

/// A plan that the monitor is compiled to, with a proof of each claim that it rests on. It fails
/// only for want of memory.
pub fn placed_of(alloc: Global, monitor: &Monitor) -> Result<PlacedPlan, AllocError>
    ensures placement { IfOk result (λ placed. IsPlacement monitor.now placed.plan) }
    ensures proofs { IfOk result (λ placed. AreProofs monitor.now placed.plan.kept
        (backed_claims monitor.now placed.plan) placed.proofs) }
{
    // A reading call says what the rule of the monitor gives.
    let _blocks = monitor.blocks();
    let placed = place(alloc, monitor)?;
    Ok(placed)
}

/// A plan that a monitor is compiled to, with its proofs, and that plan counted.
#[derive(Debug, Drop)]
pub struct Counting {
    pub placed: PlacedPlan,
    pub counted: CountedPlan,
}

/// A plan that the monitor is compiled to, with a proof of each claim that it rests on, and that
/// plan counted. It fails only for want of memory.
pub fn counting_of(alloc: Global, monitor: &Monitor) -> Result<Counting, AllocError>
    ensures { IfOk result (λ it. IsCounting monitor.now it.placed it.counted) }
{
    let placed = placed_of(alloc, monitor)?;
    let counted = count_plan(alloc, monitor, &placed.plan)?;
    read_numbers(&placed);
    read_column_numbers(counted.columns.items());
    Ok(Counting { placed, counted })
}

/// The plan that is asked for: one that the monitor is compiled to, or that one counted, or with
/// its signals relayed, or both. It fails only for want of memory.
pub fn plan_of(alloc: Global, monitor: &Monitor, choice: PlanChoice) -> Result<Plan, AllocError>
    ensures { IfOk result (IsChosen choice monitor.now) }
{
    relayed_plans_are_lawful();
    let placed = placed_of(alloc, monitor)?;
    match choice {
        PlanChoice::Placed => Ok(placed.plan),
        PlanChoice::Relayed => {
            let relayed = relay(alloc, monitor, &placed.plan)?;
            Ok(relayed)
        }
        PlanChoice::Counted => {
            let counted = count_plan(alloc, monitor, &placed.plan)?;
            Ok(counted.plan)
        }
        PlanChoice::CountedAndRelayed => {
            let counted = count_plan(alloc, monitor, &placed.plan)?;
            let relayed = relay_uncounted(alloc, monitor, &placed.plan, &counted)?;
            Ok(relayed)
        }
    }
}
