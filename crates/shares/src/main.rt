//! A monitor that a program's own threads share: two permits among four threads, each of which
//! takes one, works, and gives it back.
#![tactic(auto)]

mod threads;

use anyhow::{Context, Result};
use machine_explicit::FreeMonitor;
use plan_place::place;
use samples::{checked, scripts_read};
use std::alloc::Global;
use threads::{Told, share};

/// Two permits, which threads take and give back.
const MONITOR: &[u8] = b"monitor Permits {
  const ALL = 2;
  int taken = 0;
  method take() waituntil (taken < ALL) { taken = taken + 1; }
  method give() waituntil (taken > 0) { taken = taken - 1; }
}";

/// How many permits there are.
const PERMITS: u64 = 2;

/// Threads that take a permit and give it back, eight times each.
const CLIENTS: &[u8] = b"client A { repeat 8 { take(); give(); } }
client B { repeat 8 { take(); give(); } }
client C { repeat 8 { take(); give(); } }
client D { repeat 8 { take(); give(); } }";

/// The monitor and its clients at the start, under a plan that it is compiled to.
fn compiled(alloc: Global) -> Option<FreeMonitor> {
    let monitor = checked(alloc, MONITOR)?;
    let scripts = scripts_read(alloc, CLIENTS, &monitor)?;
    let placed = place(alloc, &monitor).ok()?;
    FreeMonitor::open(alloc, monitor, placed.plan, scripts, 0).ok()
}

/// What is to be said of it, the same whatever the schedule was.
fn verdict(told: Told) -> &'static str {
    if told.closed && told.most <= PERMITS {
        "never more threads at work than permits"
    } else {
        "a thread worked without a permit"
    }
}

fn main(rt: HostRuntime) -> Result<()> {
    let alloc = rt.alloc();
    let free = compiled(alloc).context("a text is refused")?;
    let told = share(&rt, alloc, free)?;
    println!(rt; "{} calls, {}", told.replies, verdict(told))?;
    Ok(())
}
