//! Threads that share a monitor: each has a caller, and works between the calls of its client.

ghost use Rattle.std.specs.Prelude.{◌≡◌, ◌<◌, length};
ghost use Rattle.std.specs.List.{All};
ghost use Rattle.shares.specs.inner.Places.{IsPlace};

use machine_events::{Entry, Outcome};
use machine_explicit::FreeMonitor;
use std::alloc::{AllocError, Global};
use std::sync::Wait;
use std::sync::atomic::{AtomicU64, Ordering};
use std::thread;
use std::thread::Threads;
use threads_call::{BlockingMonitor, Caller, CommitEnd};

/// What the threads share: the monitor, how many clients it has, and how many threads work, and
/// worked at most.
#[derive(Drop)]
struct Shop {
    monitor: BlockingMonitor,
    clients: u32,
    working: AtomicU64,
    most: AtomicU64,
    ghost every: { length monitor.start.system.clients ≡ clients },
}

/// What came of the calls: how many replied, whether the monitor is closed, and how many threads
/// worked at most.
#[derive(Clone, Copy)]
pub(crate) struct Told {
    pub replies: usize,
    pub closed: bool,
    pub most: u64,
}

/// Shares a monitor among threads, one for each client.
pub(crate) fn share<R: Threads + Wait + Sync>(
    rt: &R,
    alloc: Global,
    free: FreeMonitor,
) -> Result<Told, AllocError> {
    let clients = free.scripts().clients().len() as u32;
    let (monitor, mut callers) = BlockingMonitor::open(alloc, free)?;
    let shop = Shop {
        monitor,
        clients,
        working: AtomicU64::new(0),
        most: AtomicU64::new(0),
    };
    serve_all(rt, &shop, callers.as_mut_slice());
    let most = shop.most.load(Ordering::SeqCst);
    let last = shop.monitor.close(callers);
    Ok(told_of(&last, most))
}

/// What came of the calls, as the monitor is left by them.
fn told_of(last: &FreeMonitor, most: u64) -> Told {
    Told {
        replies: replies(last.log()),
        closed: last.closed(),
        most,
    }
}

/// How many blocks replied.
fn replies(log: &[Entry]) -> usize {
    log.iter()
        .filter(|entry| matches!(entry.outcome, Outcome::Replies { .. }))
        .count()
}

/// Each client has its caller, and a thread of its own.
fn serve_all<R: Threads + Wait + Sync>(rt: &R, shop: &Shop, callers: &mut [Caller])
    requires some { 0 < length callers.old }
    requires own { All (IsPlace shop.now.monitor) callers.old }
    ensures len { length callers.new ≡ length callers.old }
    ensures own { All (λ caller. caller.lock ≡ shop.now.monitor.lock) callers.new }
{
    let threads = callers.len();
    thread::for_each_mut(
        rt,
        callers,
        threads,
        &|number, caller: &mut Caller|
            requires { IsPlace shop.now.monitor caller.now }
            ensures { caller.exit.now.lock ≡ shop.entry.now.monitor.lock }
        { serve_number(rt, shop, number, caller) },
    );
}

/// Serves the client of this number, where there is one.
fn serve_number<R: Wait>(rt: &R, shop: &Shop, number: usize, caller: &mut Caller)
    requires own { IsPlace shop.now.monitor caller.old }
    ensures own { caller.new.lock ≡ shop.now.monitor.lock }
{
    if number < shop.clients as usize {
        serve(rt, shop, caller, number as u32);
    }
}

/// Takes a permit, works, and gives it back, until the client has no call left.
fn serve<R: Wait>(rt: &R, shop: &Shop, caller: &mut Caller, client: u32)
    requires own { IsPlace shop.now.monitor caller.old }
    requires client { client < shop.now.clients }
    ensures own { IsPlace shop.now.monitor caller.new }
{
    for _ in rt.forever() {
        if !commit(rt, shop, caller, client) {
            return;
        }
        work(shop);
        if !commit(rt, shop, caller, client) {
            return;
        }
    }
    unreachable!()
}

/// Whether the client's next call replied: it blocks until it does, or the client is over.
#[tactic(auto, using(threads_call::proofs::Committing::commits_system))]
fn commit<R: Wait>(rt: &R, shop: &Shop, caller: &mut Caller, client: u32) -> bool
    requires own { IsPlace shop.now.monitor caller.old }
    requires client { client < shop.now.clients }
    ensures own { IsPlace shop.now.monitor caller.new }
{
    matches!(
        shop.monitor.commit(rt, caller, client),
        CommitEnd::Replied(_)
    )
}

/// What a thread does while it has a permit: it notes how many do so at once.
fn work(shop: &Shop) {
    let others = shop.working.fetch_add(1, Ordering::SeqCst);
    shop.most
        .fetch_max(others.saturating_add(1), Ordering::SeqCst);
    thread::yield_now();
    shop.working.fetch_sub(1, Ordering::SeqCst);
}
