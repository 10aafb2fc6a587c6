//! The calls of all clients, each client's in a thread of its own.

ghost use Rattle.std.specs.Prelude.{◌≡◌, ◌<◌, IfOk, length, vec_len};
ghost use Rattle.std.specs.List.{All};
ghost use Rattle.machine_events.specs.Logs.{IsClosed};
ghost use Rattle.machine_explicit.specs.Sections.{HasEnded, HoldsAlways};
ghost use Rattle.threads_lock.specs.Growth.{Follows};
ghost use Rattle.threads_lock.specs.Closing.{KnowsClosed};
ghost use Rattle.threads_call.specs.inner.Callings.{IsCalling};

use super::blocking::{BlockingMonitor, Caller};
use super::crew::{Calling, call_all, dismiss, gather};
use super::hall::Hall;
use super::start::Start;
use machine_explicit::FreeMonitor;
use std::alloc::{AllocError, Global};
use std::sync::Wait;
use std::thread;
use std::thread::Threads;
use threads_lock::Gate;

/// Makes the calls of all clients, each client's in a thread of its own, until each client is over
/// or stalled. The gate is called ahead of each call, with no lock held and the number of replies
/// that the client was given. Where not all threads have begun within a second, the sections are
/// made one after the other, and no gate is called. The answer is closed for every schedule of the
/// threads, and has no spurious entry more than before. It takes all memory first, and fails only
/// for want of memory; the monitor is dropped then.
pub fn run_callers<R: Threads + Wait + Sync, G: Gate>(
    rt: &R,
    alloc: Global,
    free: FreeMonitor,
    gate: &G,
) -> Result<FreeMonitor, AllocError>
    ensures follows { IfOk result (Follows free) }
    ensures closed { IfOk result (λ last. IsClosed last.system last.now) }
    ensures ends { IfOk result HasEnded }
    ensures always { IfOk result HoldsAlways }
{
    let clients = free.scripts().clients().len() as u32;
    let threads = clients.max(1) as usize;
    let mut crew = Vec::with_capacity(alloc, threads)?;
    let mut back = Vec::with_capacity(alloc, threads)?;
    let (monitor, callers) = BlockingMonitor::open(alloc, free)?;
    let hall = Hall {
        monitor,
        clients,
        start: Start::new(),
    };
    gather(&hall, callers, &mut crew);
    call_in_threads(rt, &hall, gate, crew.as_mut_slice());
    dismiss(rt, &hall, crew, &mut back);
    Ok(end(hall.into_monitor(), back))
}

/// The monitor, once all calls have ended. Each caller was told that it is closed, and so it is.
#[tactic(auto, using(threads_lock::proofs::Ending::is_closed, threads_lock::proofs::Ending::has_ended))]
fn end(monitor: BlockingMonitor, callers: Vec<Caller>) -> FreeMonitor
    requires some { 0 < monitor.passes }
    requires all { vec_len callers ≡ monitor.passes }
    requires own { All (λ caller. caller.lock ≡ monitor.lock) callers.items }
    requires closed { All KnowsClosed callers.items }
    ensures follows { Follows monitor.start result }
    ensures closed { IsClosed result.system result.now }
    ensures ends { HasEnded result }
    ensures always { HoldsAlways result }
{
    let last = monitor.close(callers);
    // A reading call says what follows of a closed monitor.
    let _closed = last.closed();
    last
}

/// Each client's calls are made in a thread of its own.
fn call_in_threads<R: Threads + Wait + Sync, G: Gate>(
    rt: &R,
    hall: &Hall,
    gate: &G,
    crew: &mut [Calling],
)
    requires some { 0 < length crew.old }
    requires own { All (IsCalling hall.now) crew.old }
    ensures len { length crew.new ≡ length crew.old }
    ensures own { All (IsCalling hall.now) crew.new }
{
    let threads = crew.len();
    thread::for_each_mut(
        rt,
        crew,
        threads,
        &|_, calling: &mut Calling|
            requires { IsCalling hall.now calling.now }
            ensures { IsCalling hall.entry.now calling.exit.now }
        { call_all(rt, hall, gate, calling) },
    );
}
