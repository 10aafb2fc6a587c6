//! The schedule by rounds.

ghost use Rattle.std.specs.Prelude.{◌≡◌, ◌≤◌, IfNone, IfSome, length};
ghost use Rattle.machine_events.specs.Logs.{IsClosed};
ghost use Rattle.machine_explicit.specs.Sections.{HasEnded, HoldsAlways, spurious_in};
ghost use Rattle.machine_simulate.specs.Schedules.{Extends, IsByRounds, IsNextReady};
ghost use Rattle.machine_simulate.specs.inner.Turns.{IsFirstReady, NoneReady};

use super::acting::{act, count_clients};
use machine_explicit::FreeMonitor;

/// Runs a monitor by rounds. It passes over the clients in file order, again and again; in a pass
/// each client that can make a section at that moment makes one. It ends when the monitor is
/// closed. No spurious wake-up is made.
pub fn rounds(free: &mut FreeMonitor)
    ensures rounds { IsByRounds 0 free.old free.new }
    ensures closed { IsClosed free.new.system free.new.now }
    ensures extends { Extends free.old free.new }
    ensures spurious { spurious_in free.new.log ≡ spurious_in free.old.log }
    ensures always { HoldsAlways free.new }
    ensures ends { HasEnded free.new }
{
    let mut asked = 0;
    while !free.closed() {
        let client = next_actor(free, asked);
        act(free, client);
        asked = client + 1;
    }
}

/// The first client that can make a section, in cyclic order from the one that is asked first.
fn next_actor(free: &FreeMonitor, asked: u32) -> u32
    requires open { IsClosed free.now.system free.now.now → ⊥ }
    requires asked { asked ≤ length free.now.system.clients }
    ensures { IsNextReady asked free.now result }
{
    if let Some(client) = first_ready(free, asked, count_clients(free)) {
        return client;
    }
    match first_ready(free, 0, asked) {
        Some(client) => client,
        None => unreachable!(),
    }
}

/// The first client of a range that can make a section.
fn first_ready(free: &FreeMonitor, from: u32, to: u32) -> Option<u32>
    requires { to ≤ length free.now.system.clients }
    ensures none { IfNone result (NoneReady free.now from to) }
    ensures first { IfSome result (λ client. IsFirstReady free.now from to client) }
{
    for client in from..to {
        if free.is_ready(client) {
            return Some(client);
        }
    }
    None
}
