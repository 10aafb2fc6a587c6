//! The calls of clients, and their blocks.

ghost use Rattle.std.specs.Prelude.{◌≡◌, ◌==◌, ◌&&◌, ◌<◌, ◌≤◌, ◌*◌, length, sum_by};
ghost use Rattle.lang_base.specs.Limits.{CALLS, METHOD_BLOCKS};
ghost use Rattle.machine_implicit.specs.Scripted.{AreClients, all_blocks, blocks_in, calls_of};
ghost use Rattle.machine_events.specs.Configurations.{block_condition};

use lang_monitor::Monitor;
use machine_implicit::{Call, Client, Place, Scripts};

/// The calls of a client.
pub fn calls(scripts: &Scripts, client: u32) -> &[Call]
    ensures calls { result.now ≡ calls_of scripts.now client }
    ensures few { length result.now ≤ CALLS }
{
    match scripts.clients().get(client as usize) {
        Some(one) => one.calls.items(),
        None => &[],
    }
}

/// Whether a call that tries is at its first block.
pub fn is_first_try(call: &Call, place: &Place) -> bool
    ensures { result ≡ (call.now.tries && place.now.block == 0) }
{
    call.tries && place.block == 0
}

/// The condition of a block.
pub fn condition_of(monitor: &Monitor, block: u32) -> u32
    requires { block < length monitor.now.blocks }
    ensures { result ≡ block_condition monitor.now block }
{
    monitor.blocks()[block as usize].condition
}

/// How many blocks the calls of all clients have together.
pub fn all_blocks(monitor: &Monitor, clients: &[Client]) -> usize
    requires { AreClients clients.now }
    ensures blocks { result ≡ all_blocks monitor.now clients.now }
    ensures few { result ≤ METHOD_BLOCKS * CALLS }
{
    let mut all = 0;
    for client in clients {
        all += blocks_of(monitor, client.calls.items());
    }
    all
}

/// How many blocks calls have together.
fn blocks_of(monitor: &Monitor, calls: &[Call]) -> usize
    requires { length calls.now ≤ CALLS }
    ensures blocks { result ≡ sum_by (blocks_in monitor.now) calls.now }
    ensures few { result ≤ METHOD_BLOCKS * length calls.now }
{
    let mut blocks = 0;
    for call in calls {
        blocks += blocks_in(monitor, call);
    }
    blocks
}

/// How many blocks a call has.
fn blocks_in(monitor: &Monitor, call: &Call) -> usize
    ensures blocks { result ≡ blocks_in monitor.now call.now }
    ensures few { result ≤ METHOD_BLOCKS }
{
    match monitor.methods().get(call.method as usize) {
        Some(method) => method.count as usize,
        None => 0,
    }
}
