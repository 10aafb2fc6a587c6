//! What whoever has the turn finds in the monitor.

ghost use Rattle.std.specs.Prelude.{◌≡◌, ◌<◌, ◌↔◌, IsTrue, length};
ghost use Rattle.machine_events.specs.Logs.{IsClosed};
ghost use Rattle.machine_explicit.specs.Sections.{HasEnded};
ghost use Rattle.threads_lock.specs.Standings.{StandsAs};

use super::standing::{Standing, standing_of};
use machine_explicit::FreeMonitor;

/// Whether the monitor is closed, and how long its log is.
#[derive(Clone, Copy)]
pub struct Look {
    pub closed: bool,
    pub entries: u64,
}

/// How a client stands, and how long the log is.
#[derive(Clone, Copy)]
pub struct Stand {
    pub standing: Standing,
    pub entries: u64,
}

/// A look at a monitor.
pub fn look_of(free: &FreeMonitor) -> Look
    ensures closed { IsTrue result.closed ↔ IsClosed free.now.system free.now.now }
    ensures ends { IsTrue result.closed → HasEnded free.now }
    ensures entries { result.entries ≡ length free.now.log }
{
    let closed = free.closed();
    let entries = free.log().len() as u64;
    Look { closed, entries }
}

/// A look at how a client stands in a monitor.
pub fn stand_of(free: &FreeMonitor, client: u32) -> Stand
    requires client { client < length free.now.system.clients }
    ensures standing { StandsAs free.now client result.standing }
    ensures entries { result.entries ≡ length free.now.log }
{
    let standing = standing_of(free, client);
    let entries = free.log().len() as u64;
    Stand { standing, entries }
}
