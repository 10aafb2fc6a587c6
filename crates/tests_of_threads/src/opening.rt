//! A monitor that is about to be shared.

use machine_events::Plan;
use machine_explicit::FreeMonitor;
use samples::{checked, scripts_read};
use std::alloc::Global;
use std::test::Fail;

/// The monitor of a text at the start, with the clients of another and the plan that wakes
/// everyone.
pub(crate) fn opened(alloc: Global, monitor: &[u8], clients: &[u8]) -> Result<FreeMonitor, Fail> {
    let monitor = checked(alloc, monitor).ok_or("a monitor")?;
    let scripts = scripts_read(alloc, clients, &monitor).ok_or("clients")?;
    let plan = Plan::everyone(alloc, &monitor)?;
    Ok(FreeMonitor::open(alloc, monitor, plan, scripts, 0)?)
}
