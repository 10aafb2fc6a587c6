//! Several callers call for one client, each in a thread of its own. Where two of them sleep while
//! the client waits, and a section wakes it, each has to find that out: no clause says so, as calls
//! that never return meet every clause.

ghost use Rattle.std.specs.Prelude.{◌≡◌, ◌<◌, length};
ghost use Rattle.std.specs.List.{All};
ghost use Rattle.tests_of_calls.specs.inner.Places.{IsPlace};

use super::opening::opened;
use machine_explicit::FreeMonitor;
use samples::monitors::BUFFER;
use std::alloc::{AllocError, Global};
use std::process::Abort;
use std::sync::Wait;
use std::sync::atomic::{AtomicU64, Ordering};
use std::test::Fail;
use std::thread;
use std::thread::Threads;
use std::time::{Clock, Instant};
use threads_call::{BlockingMonitor, Caller, CommitEnd};

/// How often the threads of a test begin anew: a wake-up is lost in few of all orders.
const ROUNDS: u32 = 1_000;

/// For how many seconds they begin anew at most, where the machine has much else to do.
const MOST_SECONDS: u64 = 20;

/// The client that several callers call for.
const GETTER: u32 = 0;

/// The client that frees it, for which one caller calls.
const PUTTER: u32 = 1;

/// More calls than a client has.
const TO_THE_END: u32 = 64;

/// How many callers call for the getter, and how many calls each of them makes at most.
#[derive(Clone, Copy)]
struct Several {
    callers: usize,
    calls: u32,
}

/// What the threads share: the monitor, how many clients it has, who calls for whom, and how many
/// calls replied.
#[derive(Drop)]
struct Hall {
    monitor: BlockingMonitor,
    clients: u32,
    several: Several,
    replies: AtomicU64,
    ghost every: { length monitor.start.system.clients ≡ clients },
}

/// Makes so many calls for a client, where there is one of this number, until it is over or
/// stalled.
fn call_for<R: Wait>(rt: &R, hall: &Hall, caller: &mut Caller, client: u32, calls: u32)
    requires own { IsPlace hall.now.monitor caller.old }
    ensures own { IsPlace hall.now.monitor caller.new }
{
    if client >= hall.clients {
        return;
    }
    for _ in 0..calls {
        if !commit(rt, hall, caller, client) {
            return;
        }
        hall.replies.fetch_add(1, Ordering::SeqCst);
    }
}

/// Whether the client's next call replied.
#[tactic(auto, using(threads_call::proofs::Committing::commits_system))]
fn commit<R: Wait>(rt: &R, hall: &Hall, caller: &mut Caller, client: u32) -> bool
    requires own { IsPlace hall.now.monitor caller.old }
    requires client { client < hall.now.clients }
    ensures own { IsPlace hall.now.monitor caller.new }
{
    matches!(
        hall.monitor.commit(rt, caller, client),
        CommitEnd::Replied(_)
    )
}

/// The first threads call for the getter, the next one for the putter, and others for nobody.
fn call<R: Wait>(rt: &R, hall: &Hall, number: usize, caller: &mut Caller)
    requires own { IsPlace hall.now.monitor caller.old }
    ensures own { IsPlace hall.now.monitor caller.new }
{
    if number < hall.several.callers {
        call_for(rt, hall, caller, GETTER, hall.several.calls);
    } else if number == hall.several.callers {
        call_for(rt, hall, caller, PUTTER, TO_THE_END);
    }
}

/// Each caller is used in a thread of its own.
fn call_all<R: Threads + Wait + Sync>(rt: &R, hall: &Hall, callers: &mut [Caller])
    requires some { 0 < length callers.old }
    requires own { All (IsPlace hall.now.monitor) callers.old }
{
    let threads = callers.len();
    thread::for_each_mut(
        rt,
        callers,
        threads,
        &|number, caller: &mut Caller|
            requires { IsPlace hall.now.monitor caller.now }
            ensures { IsPlace hall.entry.now.monitor caller.exit.now }
        { call(rt, hall, number, caller) },
    );
}

/// How many calls reply of a monitor that callers share.
fn replies_of<R: Threads + Wait + Sync>(
    rt: &R,
    alloc: Global,
    free: FreeMonitor,
    several: Several,
) -> Result<u64, AllocError> {
    let clients = free.scripts().clients().len() as u32;
    let (monitor, mut callers) = BlockingMonitor::open(alloc, free)?;
    let hall = Hall {
        monitor,
        clients,
        several,
        replies: AtomicU64::new(0),
    };
    call_all(rt, &hall, callers.as_mut_slice());
    Ok(hall.replies.load(Ordering::SeqCst))
}

/// Demands in each round that so many calls reply of a buffer with these clients.
fn replies_are(
    rt: &(impl Threads + Wait + Sync + Abort + AllocGlobal + Clock),
    clients: &[u8],
    several: Several,
    replies: u64,
) -> Result<(), Fail> {
    let start = Instant::now(rt)?;
    for _ in 0..ROUNDS {
        if start.elapsed(rt)?.as_secs() >= MOST_SECONDS {
            return Ok(());
        }
        let free = opened(rt.alloc(), BUFFER, clients)?;
        let found = replies_of(rt, rt.alloc(), free, several)?;
        assert_eq!(rt; found, replies);
    }
    Ok(())
}

#[test]
fn two_callers_of_one_client_each_get_what_is_put(rt: HostRuntime) -> Result<(), Fail> {
    let clients = b"client A { repeat 4 { get(); } } client B { repeat 4 { put(); } } client C { }";
    let several = Several {
        callers: 2,
        calls: 2,
    };
    replies_are(&rt, clients, several, 8)
}

#[test]
fn three_callers_of_one_client_all_learn_that_it_is_over(rt: HostRuntime) -> Result<(), Fail> {
    let clients = b"client A { get(); } client B { put(); } client C { } client D { }";
    let several = Several {
        callers: 3,
        calls: TO_THE_END,
    };
    replies_are(&rt, clients, several, 2)
}
