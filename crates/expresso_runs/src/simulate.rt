//! `expresso simulate FILE CLIENTS [--seed N] [--spurious K] [--count] [--relay]`.

ghost use Rattle.std.specs.Prelude.{◌≡◌, ◌≤◌, ◌+◌, [], ◌∷◌, All, IfOk};
ghost use Rattle.machine_implicit.specs.Scripted.{FitsScripts};
ghost use Rattle.machine_explicit.specs.Sections.{MOST_SPURIOUS, spurious_in};
ghost use Rattle.front_command.specs.CommandLine.{simulate};
ghost use Rattle.expresso_answers.specs.Simulations.{IsSimulation, most_spurious};
ghost use Rattle.machine_events.specs.Configurations.{system_under};
ghost use Rattle.expresso_answers.specs.Ending.{CommandEnds, KeepsFiles};
ghost use Rattle.expresso_runs.specs.inner.Schedules.{IsRunOut};

use crate::text::show_plan_and_log;
use base_io::{Files, Sink};
use expresso_answers::{Input, Status, input_of, plan_of};
use front_command::{PlanChoice, Schedule};
use machine_explicit::FreeMonitor;
use machine_simulate::{drawn, rounds};
use std::alloc::{AllocError, Global};

/// The most spurious wake-ups of a schedule.
fn most_spurious(schedule: Schedule) -> u64
    ensures { result ≡ most_spurious schedule }
{
    match schedule {
        Schedule::Rounds => 0,
        Schedule::Drawn { spurious, .. } => spurious as u64,
    }
}

/// Runs a monitor to the end of the schedule.
fn run(free: &mut FreeMonitor, schedule: Schedule)
    requires { spurious_in free.old.log + most_spurious schedule ≤ free.old.extra }
    ensures { IsRunOut schedule free.old free.new }
{
    match schedule {
        Schedule::Rounds => rounds(free),
        Schedule::Drawn { seed, spurious } => drawn(free, seed, spurious),
    }
}

/// The clients run on their monitor by the schedule, under the plan that is asked for. All memory
/// is taken here.
fn simulation(
    alloc: Global,
    input: Input,
    schedule: Schedule,
    choice: PlanChoice,
) -> Result<FreeMonitor, AllocError>
    requires fits { FitsScripts input.monitor input.scripts }
    requires few { most_spurious schedule ≤ MOST_SPURIOUS }
    ensures system { IfOk result (λ free.
        free.system ≡ system_under input.monitor input.scripts free.system.plan) }
    ensures simulation { IfOk result (λ free. IsSimulation choice
        (system_under input.monitor input.scripts free.system.plan) schedule free.log free.now) }
{
    let Input { monitor, scripts } = input;
    let plan = plan_of(alloc, &monitor, choice)?;
    let mut free = FreeMonitor::open(alloc, monitor, plan, scripts, most_spurious(schedule))?;
    run(&mut free, schedule);
    Ok(free)
}

/// Reads both files, the monitor first, runs the clients on the monitor by sections, and writes the
/// plan and the log, or the line of the first fault.
pub fn simulate_files<F: Files, S: Sink>(
    alloc: Global,
    monitor: &str,
    clients: &str,
    schedule: Schedule,
    choice: PlanChoice,
    files: &mut F,
    out: &mut S,
) -> Status
    requires files { All (F.may_read files.old) (monitor.now ∷ clients.now ∷ []) }
    requires few { most_spurious schedule ≤ MOST_SPURIOUS }
    ensures ended { CommandEnds (simulate monitor.now clients.now schedule choice)
        (F.seen files.old) (F.seen files.new) result (S.seen out.old) (S.seen out.new) }
    ensures files { KeepsFiles (F.seen files.old) (F.seen files.new)
        (F.may_read files.old) (F.may_read files.new) }
{
    let input = match input_of(alloc, monitor, clients, files, out) {
        Ok(input) => input,
        Err(status) => return status,
    };
    match simulation(alloc, input, schedule, choice) {
        Ok(free) => show_plan_and_log(&free, out),
        Err(AllocError) => Status::OutOfMemory,
    }
}
