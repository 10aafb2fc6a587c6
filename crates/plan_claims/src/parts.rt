//! What a condition or a block of a monitor is.

ghost use Rattle.std.specs.Prelude.{◌≡◌};
ghost use Rattle.plan_claims.specs.Backing.{reads_none, waits_at};

use lang_monitor::Monitor;

/// Whether the monitor has this condition, and its guard reads no inputs.
pub fn reads_none(monitor: &Monitor, condition: u32) -> bool
    ensures { result ≡ reads_none monitor.now condition }
{
    let place = condition.saturating_sub(1) as usize;
    match monitor.conditions().get(place) {
        Some(held) => !held.reads_inputs,
        None => false,
    }
}

/// Whether the monitor has this block, and it waits at the condition.
pub fn waits_at(monitor: &Monitor, condition: u32, block: u32) -> bool
    ensures { result ≡ waits_at monitor.now condition block }
{
    match monitor.blocks().get(block as usize) {
        Some(held) => held.condition == condition,
        None => false,
    }
}
