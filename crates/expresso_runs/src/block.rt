//! `expresso block FILE CLIENTS [--count]`.

ghost use Rattle.std.specs.Prelude.{◌≡◌, [], ◌∷◌, All, IfOk};
ghost use Rattle.front_command.specs.CommandLine.{block};
ghost use Rattle.machine_implicit.specs.Scripted.{FitsScripts};
ghost use Rattle.machine_explicit.specs.Sections.{spurious_in};
ghost use Rattle.machine_events.specs.Configurations.{system_under};
ghost use Rattle.expresso_answers.specs.PlacedRuns.{IsPlacedRun};
ghost use Rattle.expresso_answers.specs.Ending.{CommandEnds, KeepsFiles};

use crate::text::show_plan_and_log;
use base_io::{Files, Sink};
use expresso_answers::{Input, Status, input_of, plan_of};
use front_command::PlanChoice;
use lang_monitor::Monitor;
use machine_explicit::FreeMonitor;
use machine_implicit::Scripts;
use std::alloc::{AllocError, Global};
use std::sync::Wait;
use std::thread::Threads;
use threads_call::run_callers;
use threads_pool::Gate;

/// A caller for each client runs it on their monitor to the end, under the plan that is asked for.
/// All memory is taken here.
fn called<R: Threads + Wait + Sync, G: Gate>(
    rt: &R,
    alloc: Global,
    monitor: Monitor,
    scripts: Scripts,
    choice: PlanChoice,
    gate: &G,
) -> Result<FreeMonitor, AllocError>
    requires fits { FitsScripts monitor scripts }
    ensures system { IfOk result (λ free.
        free.system ≡ system_under monitor scripts free.system.plan) }
    ensures placed { IfOk result (λ free. IsPlacedRun choice
        (system_under monitor scripts free.system.plan) free.log free.now) }
    ensures unprompted { IfOk result (λ free. spurious_in free.log ≡ 0) }
{
    let plan = plan_of(alloc, &monitor, choice)?;
    let free = FreeMonitor::open(alloc, monitor, plan, scripts, 0)?;
    run_callers(rt, alloc, free, gate)
}

/// Reads both files, the monitor first, has a caller for each client run it on the monitor in a
/// thread of its own, and writes the plan and the log, or the line of the first fault.
pub fn block_files<R: Threads + Wait + Sync, F: Files, S: Sink, G: Gate>(
    rt: &R,
    alloc: Global,
    monitor: &str,
    clients: &str,
    choice: PlanChoice,
    files: &mut F,
    out: &mut S,
    gate: &G,
) -> Status
    requires { All (F.may_read files.old) (monitor.now ∷ clients.now ∷ []) }
    ensures ended { CommandEnds (block monitor.now clients.now choice)
        (F.seen files.old) (F.seen files.new) result (S.seen out.old) (S.seen out.new) }
    ensures files { KeepsFiles (F.seen files.old) (F.seen files.new)
        (F.may_read files.old) (F.may_read files.new) }
{
    let Input { monitor, scripts } = match input_of(alloc, monitor, clients, files, out) {
        Ok(input) => input,
        Err(status) => return status,
    };
    match called(rt, alloc, monitor, scripts, choice, gate) {
        Ok(free) => show_plan_and_log(&free, out),
        Err(AllocError) => Status::OutOfMemory,
    }
}
