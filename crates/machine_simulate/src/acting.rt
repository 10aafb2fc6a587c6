//! What a schedule has a client do.

ghost use Rattle.std.specs.Prelude.{◌≡◌, ◌<◌, length, true};
ghost use Rattle.machine_explicit.specs.Sections.{HoldsAlways, WokenByNothing};
ghost use Rattle.machine_explicit.specs.Sections.{is_ready, spurious_in};
ghost use Rattle.machine_simulate.specs.Schedules.{Acts, is_waiting};

use machine_explicit::FreeMonitor;

/// How many clients there are.
pub fn count_clients(free: &FreeMonitor) -> u32
    ensures count { result ≡ length free.now.system.clients }
    ensures always { HoldsAlways free.now }
{
    free.scripts().clients().len() as u32
}

/// A client that can make a section makes one.
pub fn act(free: &mut FreeMonitor, client: u32)
    requires there { client < length free.old.system.clients }
    requires can { is_ready free.old client ≡ true }
    ensures acts { Acts client free.old free.new }
    ensures always { HoldsAlways free.new }
{
    if free.section(client).is_err() {
        unreachable!()
    }
}

/// A client that waits is woken by nothing.
pub fn wake(free: &mut FreeMonitor, client: u32)
    requires there { client < length free.old.system.clients }
    requires waits { is_waiting free.old client ≡ true }
    requires left { spurious_in free.old.log < free.old.extra }
    ensures wakes { WokenByNothing client free.old free.new }
    ensures always { HoldsAlways free.new }
{
    if free.spurious(client).is_err() {
        unreachable!()
    }
}
