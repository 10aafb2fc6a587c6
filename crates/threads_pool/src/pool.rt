//! A monitor is run by workers.

ghost use Rattle.std.specs.Prelude.{◌≡◌, ◌≤◌, ◌<◌, IfOk, length, vec_len};
ghost use Rattle.std.specs.List.{All};
ghost use Rattle.lang_base.specs.Limits.{WORKERS};
ghost use Rattle.machine_events.specs.Logs.{IsClosed};
ghost use Rattle.machine_explicit.specs.Sections.{HasEnded, HoldsAlways};
ghost use Rattle.threads_lock.specs.Growth.{Follows};
ghost use Rattle.threads_pool.specs.inner.Workers.{HasFinished, IsWorker, KnowsClosed};

use super::crew::{dismiss, hire};
use super::hints::Hints;
use super::roster::Roster;
use super::shop::Shop;
use super::worker::{Worker, work};
use machine_explicit::FreeMonitor;
use std::alloc::{AllocError, Global};
use std::sync::Wait;
use std::thread;
use std::thread::Threads;
use threads_lock::{Gate, Pass, SharedMonitor};
use threads_queue::ReadyQueue;

/// Runs a monitor by so many workers, from 1 to 16, each in a thread of its own, until it is
/// closed. The gate is called ahead of each section that a worker tries, with no lock held. Workers
/// alone make sections, and each ends when it was told that the monitor is closed: so the answer is
/// closed for every schedule of the threads, and has no spurious entry more than before. It takes
/// all memory first, and fails only for want of memory; the monitor is dropped then.
pub fn run_pool<R: Threads + Wait + Sync, G: Gate>(
    rt: &R,
    alloc: Global,
    free: FreeMonitor,
    workers: u32,
    gate: &G,
) -> Result<FreeMonitor, AllocError>
    requires some { 1 ≤ workers }
    requires few { workers ≤ WORKERS }
    ensures follows { IfOk result (Follows free) }
    ensures closed { IfOk result (λ last. IsClosed last.system last.now) }
    ensures ends { IfOk result HasEnded }
    ensures always { IfOk result HoldsAlways }
{
    let clients = free.scripts().clients().len() as u32;
    let hints = Hints::open(alloc, clients)?;
    let (queue, tickets) = ReadyQueue::open(alloc, clients, workers)?;
    let mut crew = Vec::with_capacity(alloc, workers as usize)?;
    let mut back = Vec::with_capacity(alloc, workers as usize)?;
    let (monitor, places) = SharedMonitor::open(alloc, free, workers)?;
    let shop = Shop {
        monitor,
        queue,
        hints,
        roster: Roster::new(u64::from(workers)),
        clients,
    };
    hire(&shop, places, tickets, &mut crew);
    work_all(rt, &shop, gate, crew.as_mut_slice());
    dismiss(&shop, crew, &mut back);
    Ok(end(shop.into_monitor(), back))
}

/// The monitor, once all workers have ended. Each was told that it is closed, and so it is.
#[tactic(auto, using(crate::proofs::Closing::is_closed, crate::proofs::Closing::has_ended))]
fn end(monitor: SharedMonitor, places: Vec<Pass>) -> FreeMonitor
    requires some { 0 < monitor.passes }
    requires all { vec_len places ≡ monitor.passes }
    requires own { All (λ pass. pass.lock ≡ monitor.lock) places.items }
    requires closed { All KnowsClosed places.items }
    ensures follows { Follows monitor.start result }
    ensures closed { IsClosed result.system result.now }
    ensures ends { HasEnded result }
    ensures always { HoldsAlways result }
{
    let last = monitor.close(places);
    // A reading call says what follows of a closed monitor.
    let _closed = last.closed();
    last
}

/// Each worker works in a thread of its own, until it was told that the monitor is closed.
fn work_all<R: Threads + Wait + Sync, G: Gate>(rt: &R, shop: &Shop, gate: &G, crew: &mut [Worker])
    requires some { 0 < length crew.old }
    requires own { All (IsWorker shop.now) crew.old }
    ensures len { length crew.new ≡ length crew.old }
    ensures own { All (HasFinished shop.now) crew.new }
{
    let threads = crew.len();
    thread::for_each_mut(
        rt,
        crew,
        threads,
        &|_, worker: &mut Worker|
            requires { IsWorker shop.now worker.now }
            ensures { HasFinished shop.entry.now worker.exit.now }
        { work(rt, shop, gate, worker) },
    );
}
