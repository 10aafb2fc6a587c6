//! What workers share.

ghost use Rattle.std.specs.Prelude.{◌≡◌, length};

use super::hints::Hints;
use super::roster::Roster;
use threads_lock::SharedMonitor;
use threads_queue::ReadyQueue;

/// The monitor, the tickets of its clients, the hints, and who leads.
#[derive(Drop)]
pub struct Shop {
    pub monitor: SharedMonitor,
    pub queue: ReadyQueue,
    pub hints: Hints,
    pub roster: Roster,
    pub clients: u32,
    ghost counted: { queue.clients ≡ clients },
    ghost every: { length monitor.start.system.clients ≡ clients },
}

impl Shop {
    /// The monitor.
    pub fn into_monitor(self) -> SharedMonitor
        ensures { result ≡ self.monitor }
    {
        let Shop {
            monitor,
            queue: _,
            hints: _,
            roster: _,
            clients: _,
        } = self;
        monitor
    }
}
