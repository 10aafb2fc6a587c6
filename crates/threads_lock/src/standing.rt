//! How a client stands.

ghost use Rattle.std.specs.Prelude.{◌≡◌, ◌<◌, ◌↔◌, IsTrue, true, length};
ghost use Rattle.machine_events.specs.Logs.{IsClosed};
ghost use Rattle.threads_lock.specs.Standings.{StandsAs};
ghost use Rattle.threads_lock.specs.inner.Standing.{standing_by};

use machine_explicit::FreeMonitor;

/// How a client stands in a shared monitor.
#[derive(Clone, Copy, Debug, PartialEq, Eq)]
pub enum Standing {
    /// It can make a section: it has a call left, and doesn't wait.
    Ready,
    /// It waits, and some client can make a section.
    Waits,
    /// It waits, and the monitor is closed: nobody will wake it.
    Stalled,
    /// It has no call left.
    Over,
}

/// How a client stands in a monitor.
pub fn standing_of(free: &FreeMonitor, client: u32) -> Standing
    requires { client < length free.now.system.clients }
    ensures { StandsAs free.now client result }
{
    let ready = free.is_ready(client);
    let stage = free.stage(client);
    let waits = stage.is_waiting();
    let stalled = is_stalled(free, waits);
    standing_by(ready, waits, stalled)
}

/// Whether a client that waits, or doesn't, is stalled.
fn is_stalled(free: &FreeMonitor, waits: bool) -> bool
    ensures { IsTrue result ↔ (waits ≡ true) × IsClosed free.now.system free.now.now }
{
    if waits { free.closed() } else { false }
}

/// How a client stands that is ready, or waits, or neither.
fn standing_by(ready: bool, waits: bool, stalled: bool) -> Standing
    ensures { result ≡ standing_by ready waits stalled }
{
    if ready {
        return Standing::Ready;
    }
    if !waits {
        return Standing::Over;
    }
    if stalled {
        Standing::Stalled
    } else {
        Standing::Waits
    }
}
