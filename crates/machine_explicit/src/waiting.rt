//! Who rests, and who can start.

ghost use Rattle.std.specs.Prelude.{◌≡◌, ◌≤◌, ◌↔◌, IsTrue, length};
ghost use Rattle.lang_base.specs.Limits.{CLIENTS};
ghost use Rattle.machine_explicit.specs.inner.Waiting.{AllRest};
ghost use Rattle.machine_explicit.specs.inner.Waiting.{position_rests, position_starts};

use super::calls::calls;
use super::position::Position;
use machine_events::Stage;
use machine_implicit::Scripts;

/// Whether each client waits, or is idle with no call left.
pub fn all_rest(scripts: &Scripts, positions: &[Position]) -> bool
    requires few { length positions.now ≤ CLIENTS }
    ensures { IsTrue result ↔ AllRest scripts.now positions.now (length positions.now) }
{
    for client in 0..positions.len() {
        if !rests(scripts, client as u32, &positions[client]) {
            return false;
        }
    }
    true
}

/// Whether a client is idle with a call left, or was woken.
pub fn starts(scripts: &Scripts, client: u32, one: &Position) -> bool
    ensures { result ≡ position_starts scripts.now client one.now }
{
    match one.stage {
        Stage::Woken(_) => true,
        Stage::Idle => (one.place.past as usize) < calls(scripts, client).len(),
        _ => false,
    }
}

/// Whether a client waits, or is idle with no call left.
fn rests(scripts: &Scripts, client: u32, one: &Position) -> bool
    ensures { result ≡ position_rests scripts.now client one.now }
{
    match one.stage {
        Stage::Waiting(_) => true,
        Stage::Idle => one.place.past as usize >= calls(scripts, client).len(),
        _ => false,
    }
}
