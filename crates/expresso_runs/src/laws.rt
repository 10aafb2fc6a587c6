//! What follows from the definitions alone, of simulations.

ghost use Rattle.std.specs.Prelude.{◌≡◌, List};
ghost use Rattle.lang_monitor.specs.MonitorParts.{MonitorParts};
ghost use Rattle.machine_implicit.specs.declared.script.Client.{Client};
ghost use Rattle.machine_events.specs.declared.log.Entry.{Entry};
ghost use Rattle.machine_events.specs.declared.plan.Plan.{Plan};
ghost use Rattle.machine_events.specs.Configurations.{System, Configuration, system_under};
ghost use Rattle.plan_prune.specs.Hardness.{HasNoHardClaim};
ghost use Rattle.report_text.specs.Laws.{plan_and_log_text};
ghost use Rattle.front_command.specs.declared.plan_choice.PlanChoice.{PlanChoice};
ghost use Rattle.front_command.specs.declared.schedule.Schedule.{Schedule};
ghost use Rattle.expresso_answers.specs.Placements.{CountsNothing, IsPlacement};
ghost use Rattle.expresso_answers.specs.Simulations.{IsSimulation};

use machine_simulate::{one_drawn_log, one_log_by_rounds};
use plan_place::one_exact_plan;

/// Under one plan, clients of one monitor have one simulation by a schedule: one log, and one
/// configuration at its end.
pub fn one_simulation()
    ensures logs { (choice : PlanChoice) (system : System) (schedule : Schedule)
        (log other : List Entry) (last also : Configuration)
        → IsSimulation choice system schedule log last
        → IsSimulation choice system schedule other also → log ≡ other }
    ensures ends { (choice : PlanChoice) (system : System) (schedule : Schedule)
        (log other : List Entry) (last also : Configuration)
        → IsSimulation choice system schedule log last
        → IsSimulation choice system schedule other also → last ≡ also }
{
    one_log_by_rounds();
    one_drawn_log();
}

/// A monitor none of whose claims is hard, as of a small one, is compiled to one plan, so its
/// clients have one simulation by a schedule and a choice of the plan that counts no condition, and
/// `simulate` has one text.
pub fn one_simulated_text()
    ensures plans { (monitor : MonitorParts) (plan other : Plan) → HasNoHardClaim monitor
        → IsPlacement monitor plan → IsPlacement monitor other → plan ≡ other }
    ensures texts { (choice : PlanChoice) (monitor : MonitorParts) (clients : List Client)
        (schedule : Schedule) (plan other : Plan) (log others : List Entry)
        (last also : Configuration) → CountsNothing choice → HasNoHardClaim monitor
        → IsSimulation choice (system_under monitor clients plan) schedule log last
        → IsSimulation choice (system_under monitor clients other) schedule others also
        → plan_and_log_text (system_under monitor clients plan) log last
        ≡ plan_and_log_text (system_under monitor clients other) others also }
{
    one_exact_plan();
    one_log_by_rounds();
    one_drawn_log();
}
