//! Monitors and clients of texts, and plans for them. What is promised of a monitor is left out
//! here, so that no test has to be proved over it.

ghost use Rattle.std.specs.Prelude.{IfOk};
ghost use Rattle.machine_implicit.specs.Scripted.{FitsScripts};
ghost use Rattle.machine_events.specs.Plans.{FitsPlan};

use lang_monitor::Monitor;
use machine_events::{CondKind, Note, Plan, plan_fits};
use machine_implicit::Scripts;
use samples::plans::plan_of;
use samples::{checked, scripts_read};
use std::alloc::Global;
use std::test::Fail;

/// The monitor of a text.
pub(crate) fn monitor_of(alloc: Global, text: &[u8]) -> Result<Monitor, Fail> {
    match checked(alloc, text) {
        Some(monitor) => Ok(monitor),
        None => Err("a monitor".into()),
    }
}

/// The clients of a text.
pub(crate) fn clients_of(alloc: Global, text: &[u8], monitor: &Monitor) -> Result<Scripts, Fail>
    ensures { IfOk result (FitsScripts monitor.now) }
{
    match scripts_read(alloc, text, monitor) {
        Some(scripts) => Ok(scripts),
        None => Err("clients".into()),
    }
}

/// The plan of these kinds, with one note or none for each block, where it fits the monitor.
pub(crate) fn fitting_plan(
    alloc: Global,
    monitor: &Monitor,
    kinds: &[CondKind],
    notes: &[Option<Note>],
) -> Result<Plan, Fail>
    ensures { IfOk result (FitsPlan monitor.now) }
{
    let plan = plan_of(alloc, kinds, notes)?;
    if plan_fits(monitor, &plan) {
        Ok(plan)
    } else {
        Err("a plan that fits".into())
    }
}
