//! What the threads of callers share.

ghost use Rattle.std.specs.Prelude.{◌≡◌, length};

use super::blocking::BlockingMonitor;
use super::start::Start;

/// What threads share: the monitor, how many clients there are, and their callers' start.
#[derive(Drop)]
pub struct Hall {
    pub monitor: BlockingMonitor,
    pub clients: u32,
    pub start: Start,
    ghost every: { length monitor.start.system.clients ≡ clients },
}

impl Hall {
    /// The monitor.
    pub fn into_monitor(self) -> BlockingMonitor
        ensures { result ≡ self.monitor }
    {
        let Hall {
            monitor,
            clients: _,
            start: _,
        } = self;
        monitor
    }
}
