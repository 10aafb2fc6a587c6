//! The log's length is observed while another thread is in the middle of a section.
//!
//! A section calls nothing of its caller's while it has the lock, so no gate can hold it there. It
//! is held by its own body, which has thousands of tests. The maker counts each call of `section`
//! just before it and just after it. The watcher wants 16 observes in a row within one such call,
//! each of which finds the log as long as before the call. Nobody else draws a ticket: so from the
//! step after the first count, which draws the ticket that is served, to the step that makes the
//! log longer, the maker has that ticket, and with it the lock.

ghost use Rattle.std.specs.Prelude.{◌≡◌, ◌↔◌, IsTrue, length};
ghost use Rattle.std.specs.List.{All};
ghost use Rattle.tests_of_threads.specs.inner.Places.{IsPlace};

use super::meeting::Meeting;
use super::opening::opened;
use machine_explicit::FreeMonitor;
use std::alloc::{AllocError, Global};
use std::sync::Wait;
use std::sync::atomic::{AtomicU64, Ordering};
use std::test::Fail;
use std::thread;
use std::thread::Threads;
use threads_lock::{Pass, SharedMonitor};

/// The beginning of a monitor, up to the body of its only method.
const HEAD: &[u8] = b"monitor Slow {
  int x = 0;
  bool b = true;
  method work() waituntil (true) {
";

/// The statements of the body.
const STATEMENTS: u32 = 64;

/// The tests of a statement.
const TESTS: u32 = 64;

/// The end of the monitor.
const TAIL: &[u8] = b"  }
}
";

/// One client of many calls.
const CLIENT: &[u8] = b"client A { repeat 4096 { work(); } }";

/// The most sections of the maker, as many as its client has calls.
const MOST_SECTIONS: u64 = 4096;

/// The most turns of the watcher.
const MOST_TURNS: u64 = 1_000_000_000;

/// The threads, each with a pass.
const THREADS: u32 = 2;

/// How many times the watcher observes in one call of a section.
const ENOUGH: u64 = 16;

/// What the threads share: the monitor and their meeting, how many calls of `section` began, ended
/// and made one, and how many times the watcher has observed enough.
#[derive(Drop)]
struct Watch {
    shared: SharedMonitor,
    meeting: Meeting,
    begun: AtomicU64,
    ended: AtomicU64,
    made: AtomicU64,
    enough: AtomicU64,
    done: AtomicU64,
    ghost some: { length shared.start.system.clients ≡ 1 },
}

/// The text of the monitor.
fn slow_text(alloc: Global) -> Result<Vec<u8>, AllocError> {
    let mut text = Vec::from_slice(alloc, HEAD)?;
    for _ in 0..STATEMENTS {
        text.extend_from_slice(b"    b = b")?;
        for _ in 0..TESTS {
            text.extend_from_slice(b" && x <= 0")?;
        }
        text.extend_from_slice(b";\n")?;
    }
    text.extend_from_slice(TAIL)?;
    Ok(text)
}

/// Whether there is one client.
fn has_one_client(free: &FreeMonitor) -> bool
    ensures { IsTrue result ↔ (length free.now.system.clients ≡ 1) }
{
    free.scripts().clients().len() == 1
}

/// Makes a section, between two counts. The first is the last step ahead of the call.
#[tactic(auto, using(threads_lock::proofs::Systems::section_system))]
fn make_one<R: Wait>(rt: &R, watch: &Watch, pass: &mut Pass)
    requires own { IsPlace watch.now.shared pass.old }
    ensures own { IsPlace watch.now.shared pass.new }
{
    watch.begun.fetch_add(1, Ordering::SeqCst);
    let made = watch.shared.section(rt, pass, 0);
    watch.ended.fetch_add(1, Ordering::SeqCst);
    if made.is_ok() {
        watch.made.fetch_add(1, Ordering::SeqCst);
    }
}

/// The maker: makes sections until the watcher has observed enough.
fn make_all<R: Wait>(rt: &R, watch: &Watch, pass: &mut Pass)
    requires own { IsPlace watch.now.shared pass.old }
    ensures own { IsPlace watch.now.shared pass.new }
{
    for _ in 0..MOST_SECTIONS {
        if watch.enough.load(Ordering::SeqCst) > 0 {
            return;
        }
        make_one(rt, watch, pass);
    }
}

/// How long the log is at this moment.
fn observe(watch: &Watch, pass: &mut Pass) -> u64
    requires own { IsPlace watch.now.shared pass.old }
    ensures own { IsPlace watch.now.shared pass.new }
{
    watch.shared.observe(pass)
}

/// Whether so many calls have ended, one more has begun, and this length is the log's before that
/// one's section.
fn is_within(watch: &Watch, calls: u64, count: u64) -> bool {
    count == calls
        && watch.begun.load(Ordering::SeqCst) > calls
        && watch.ended.load(Ordering::SeqCst) == calls
}

/// Observes again and again, as long as the maker is in one and the same call, which is not its
/// first, and has not counted its section yet. Whether it did so often enough.
fn observe_within(watch: &Watch, pass: &mut Pass) -> bool
    requires own { IsPlace watch.now.shared pass.old }
    ensures own { IsPlace watch.now.shared pass.new }
{
    let calls = watch.ended.load(Ordering::SeqCst);
    if calls == 0 || !is_within(watch, calls, calls) {
        return false;
    }
    for _ in 0..ENOUGH {
        let count = observe(watch, pass);
        if !is_within(watch, calls, count) {
            return false;
        }
    }
    true
}

/// The watcher: observes until it was often enough in one call, or the maker is done.
fn watch_all(watch: &Watch, pass: &mut Pass)
    requires own { IsPlace watch.now.shared pass.old }
    ensures own { IsPlace watch.now.shared pass.new }
{
    for _ in 0..MOST_TURNS {
        if watch.done.load(Ordering::SeqCst) > 0 {
            return;
        }
        if observe_within(watch, pass) {
            watch.enough.fetch_add(1, Ordering::SeqCst);
            return;
        }
    }
}

/// The first thread makes sections, and the other watches.
fn act<R: Wait>(rt: &R, watch: &Watch, number: usize, pass: &mut Pass)
    requires own { IsPlace watch.now.shared pass.old }
    ensures own { IsPlace watch.now.shared pass.new }
{
    watch.meeting.meet(u64::from(THREADS));
    if number == 0 {
        make_all(rt, watch, pass);
        watch.done.store(1, Ordering::SeqCst);
    } else {
        watch_all(watch, pass);
    }
}

/// Each pass is used in a thread of its own.
fn act_all<R: Threads + Wait + Sync>(rt: &R, watch: &Watch, passes: &mut [Pass])
    requires own { All (IsPlace watch.now.shared) passes.old }
{
    thread::for_each_mut(
        rt,
        passes,
        THREADS as usize,
        &|number, pass: &mut Pass|
            requires { IsPlace watch.now.shared pass.now }
            ensures { IsPlace watch.entry.now.shared pass.exit.now }
        { act(rt, watch, number, pass) },
    );
}

/// Two threads share the monitor: one makes sections, and the other observes.
fn run<R: Threads + Wait + Sync>(
    rt: &R,
    alloc: Global,
    free: FreeMonitor,
) -> Result<Watch, AllocError>
    requires { length free.system.clients ≡ 1 }
{
    let (shared, mut passes) = SharedMonitor::open(alloc, free, THREADS)?;
    let watch = Watch {
        shared,
        meeting: Meeting::new(),
        begun: AtomicU64::new(0),
        ended: AtomicU64::new(0),
        made: AtomicU64::new(0),
        enough: AtomicU64::new(0),
        done: AtomicU64::new(0),
    };
    act_all(rt, &watch, passes.as_mut_slice());
    Ok(watch)
}

#[test]
fn the_length_is_observed_in_the_middle_of_a_section(rt: HostRuntime) -> Result<(), Fail> {
    let text = slow_text(rt.alloc())?;
    let free = opened(rt.alloc(), text.as_slice(), CLIENT)?;
    if !has_one_client(&free) {
        return Err("a client".into());
    }
    let watch = run(&rt, rt.alloc(), free)?;
    assert!(rt; watch.meeting.was_of(2));
    assert_eq!(rt; watch.enough.load(Ordering::SeqCst), 1);
    let begun = watch.begun.load(Ordering::SeqCst);
    assert!(rt; begun > 0);
    assert_eq!(rt; watch.ended.load(Ordering::SeqCst), begun);
    assert_eq!(rt; watch.made.load(Ordering::SeqCst), begun);
    Ok(())
}
