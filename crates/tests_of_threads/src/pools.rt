//! Pools: as many workers as there may be run as many clients, and a worker that finds nothing to
//! do while the gate holds the other. How many sections workers make, that the work of each counts
//! once, and how often they look for work, no clause of the pool says.

use super::opening::opened;
use lang_base::Value;
use samples::monitors::{BUFFER, LEVEL};
use std::sync::Wait;
use std::sync::atomic::{AtomicU64, Ordering};
use std::test::Fail;
use std::thread::Threads;
use std::time::Duration;
use threads_pool::{Gate, OpenGate, run_pool};

/// The workers of the large pool.
const WORKERS: u32 = 16;

/// Thirty-two clients, each of which adds 1.
const ALL: &[u8] = b"client A { add(); } client B { add(); } client C { add(); } client D { add(); }
client E { add(); } client F { add(); } client G { add(); } client H { add(); }
client I { add(); } client J { add(); } client K { add(); } client L { add(); }
client M { add(); } client N { add(); } client O { add(); } client P { add(); }
client Q { add(); } client R { add(); } client S { add(); } client T { add(); }
client U { add(); } client V { add(); } client W { add(); } client X { add(); }
client Y { add(); } client Z { add(); } client a { add(); } client b { add(); }
client c { add(); } client d { add(); } client e { add(); } client f { add(); }
";

#[test]
fn sixteen_workers_count_each_of_thirty_two_once(rt: HostRuntime) -> Result<(), Fail> {
    let free = opened(rt.alloc(), LEVEL, ALL)?;
    let last = run_pool(&rt, rt.alloc(), free, WORKERS, &OpenGate)?;
    assert_eq!(rt; last.log().len(), 32);
    assert!(rt; last.state().values() == [Value::Int(32)].as_slice());
    Ok(())
}

/// The first client was not held yet.
const FREE: u64 = 0;

/// It is held.
const HELD: u64 = 1;

/// It was held.
const OVER: u64 = 2;

/// For how many milliseconds it is held.
const HOLD: u64 = 100;

/// More calls of the gate than a worker makes in that time which looks for work once in a
/// millisecond, and far fewer than one makes which never rests.
const MANY: u64 = 5_000;

/// A gate that holds the first client's first call for a while, and counts the calls of others till
/// then.
#[derive(Drop)]
struct Hold {
    state: AtomicU64,
    others: AtomicU64,
}

impl Hold {
    /// Holds a call, if it is the first.
    fn hold<R: Wait>(&self, rt: &R) {
        let before = self
            .state
            .compare_exchange(FREE, HELD, Ordering::SeqCst, Ordering::SeqCst);
        if before.is_ok() {
            self.state
                .park_timeout(rt, HELD as u32, Duration::from_millis(HOLD));
            self.state.store(OVER, Ordering::SeqCst);
        }
    }
}

impl Gate for Hold {
    fn before<R: Threads + Wait + Sync>(&self, rt: &R, client: u32, sections: u64) {
        let _sections = sections;
        if client == 0 {
            self.hold(rt);
        } else if self.state.load(Ordering::SeqCst) == HELD {
            self.others.fetch_add(1, Ordering::SeqCst);
        }
    }
}

#[test]
fn a_worker_naps_while_the_other_is_held(rt: HostRuntime) -> Result<(), Fail> {
    let free = opened(
        rt.alloc(),
        BUFFER,
        b"client A { put(); } client B { get(); }",
    )?;
    let gate = Hold {
        state: AtomicU64::new(FREE),
        others: AtomicU64::new(0),
    };
    let last = run_pool(&rt, rt.alloc(), free, 2, &gate)?;
    assert!(rt; last.closed());
    assert_eq!(rt; gate.state.load(Ordering::SeqCst), OVER);
    assert!(rt; gate.others.load(Ordering::SeqCst) < MANY);
    Ok(())
}
