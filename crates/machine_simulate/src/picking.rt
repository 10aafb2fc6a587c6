//! The clients of whom one is drawn.

ghost use Rattle.std.specs.Prelude.{◌≡◌, ◌<◌, length, true, Some, slice_get};
ghost use Rattle.machine_simulate.specs.Schedules.{IsAt};
ghost use Rattle.machine_simulate.specs.inner.Turns.{is_one, those};

use super::acting::count_clients;
use machine_explicit::FreeMonitor;

/// Those who can make a section, or those who wait.
#[derive(Clone, Copy)]
pub enum Who {
    Ready,
    Waiting,
}

/// How many they are.
pub fn count(free: &FreeMonitor, who: Who) -> u32
    ensures { result ≡ length (those who free.now) }
{
    let mut count = 0;
    for client in 0..count_clients(free) {
        if is_one(free, who, client) {
            count += 1;
        }
    }
    count
}

/// The one at this position modulo their number.
pub fn picked(free: &FreeMonitor, who: Who, position: u32) -> u32
    requires { 0 < length (those who free.now) }
    ensures at { IsAt (those who free.now) position result }
    ensures there { result < length free.now.system.clients }
    ensures one { is_one who free.now result ≡ true }
{
    nth(free, who, position % count(free, who))
}

/// The one at this position.
fn nth(free: &FreeMonitor, who: Who, position: u32) -> u32
    requires { position < length (those who free.now) }
    ensures at { slice_get (those who free.now) position ≡ Some result }
    ensures there { result < length free.now.system.clients }
    ensures one { is_one who free.now result ≡ true }
{
    let mut before = position;
    for client in 0..count_clients(free) {
        if is_one(free, who, client) {
            if before == 0 {
                return client;
            }
            before -= 1;
        }
    }
    unreachable!()
}

/// Whether a client is one of them.
fn is_one(free: &FreeMonitor, who: Who, client: u32) -> bool
    requires { client < length free.now.system.clients }
    ensures { result ≡ is_one who free.now client }
{
    match who {
        Who::Ready => free.is_ready(client),
        Who::Waiting => free.stage(client).is_waiting(),
    }
}
