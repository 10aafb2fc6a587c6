//! What callers share.

ghost use Rattle.std.specs.Prelude.{◌≡◌, IfOk, IfSome};
ghost use Rattle.std.specs.List.{All};
ghost use Rattle.threads_lock.specs.Loans.{lock_of};

use super::parkers::Parkers;
use std::alloc::{AllocError, Global};
use threads_lock::{Berth, SharedMonitor};

/// The monitor, and where its callers rest: the parkers of all clients, and a berth for each.
#[derive(Drop)]
pub struct Lobby {
    pub monitor: SharedMonitor,
    pub parkers: Parkers,
    pub berths: Vec<Berth>,
    ghost own: { All (λ berth. lock_of berth ≡ monitor.lock) berths.items },
}

impl Lobby {
    /// The berth of a client whose caller may rest.
    pub fn berth_for(&self, client: u32, may_rest: bool) -> Option<&Berth>
        ensures { IfSome result (λ berth. lock_of berth.now ≡ self.now.monitor.lock) }
    {
        let place = client as usize;
        if !may_rest || place >= self.berths.len() {
            return None;
        }
        Some(&self.berths[place])
    }
}

/// A berth for each of so many clients. It fails only for want of memory.
pub fn open_berths(
    alloc: Global,
    monitor: &SharedMonitor,
    clients: u32,
) -> Result<Vec<Berth>, AllocError>
    ensures { IfOk result (λ berths. All (λ berth. lock_of berth ≡ monitor.now.lock) berths.items) }
{
    let mut berths = Vec::new(alloc);
    for _ in 0..clients {
        berths.push(monitor.berth(alloc)?)?;
    }
    Ok(berths)
}
