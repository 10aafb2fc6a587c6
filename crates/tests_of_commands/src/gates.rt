//! Runs whose workers or callers pass a gate that holds some of its calls until others have come:
//! only workers that run side by side, take clients of any number, are as many as were asked for,
//! and each make sections come through.

use super::asking::{Call, answers_through, asked, begins_and_ends};
use expresso::Status;
use samples::monitors::{BUFFER, LEVEL};
use std::sync::Wait;
use std::sync::atomic::{AtomicU64, Ordering};
use std::test::Fail;
use std::thread;
use std::thread::Threads;
use threads_pool::Gate;

/// The most turns for which a call is held.
const MOST_TURNS: u64 = 10_000_000;

/// Calls that were held, those among them that were held in vain, and the most sections that a call
/// was told of.
#[derive(Drop)]
struct Holds {
    begun: AtomicU64,
    in_vain: AtomicU64,
    most_sections: AtomicU64,
}

impl Holds {
    fn new() -> Holds {
        Holds {
            begun: AtomicU64::new(0),
            in_vain: AtomicU64::new(0),
            most_sections: AtomicU64::new(0),
        }
    }

    /// A call is told of so many sections of its worker.
    fn told(&self, sections: u64) {
        self.most_sections.fetch_max(sections, Ordering::SeqCst);
    }

    /// Holds a call until the count has come to so much.
    fn until(&self, count: &AtomicU64, enough: u64) {
        self.begun.fetch_add(1, Ordering::SeqCst);
        for _ in 0..MOST_TURNS {
            if count.load(Ordering::SeqCst) >= enough {
                return;
            }
            thread::yield_now();
        }
        self.in_vain.fetch_add(1, Ordering::SeqCst);
    }

    /// So many holds began, none was in vain, and some worker told of a section.
    fn all_ended(&self, begun: u64) -> bool {
        self.begun.load(Ordering::SeqCst) == begun
            && self.in_vain.load(Ordering::SeqCst) == 0
            && self.most_sections.load(Ordering::SeqCst) > 0
    }
}

const BY_TWO: &[&str] = &["expresso", "run", "m.mon", "c.cl", "--workers", "2"];

/// A run with two workers.
fn by_two<'a>(monitor: &'a [u8], clients: &'a [u8]) -> Call<'a> {
    asked(BY_TWO, monitor, clients)
}

/// Holds each of two clients' first calls until the other's has come.
#[derive(Drop)]
struct Meeting {
    first: AtomicU64,
    second: AtomicU64,
    holds: Holds,
}

impl Meeting {
    /// A call of a client, whose first one is held until the other's has come.
    fn meet(&self, mine: &AtomicU64, other: &AtomicU64) {
        if mine.fetch_add(1, Ordering::SeqCst) == 0 {
            self.holds.until(other, 1);
        }
    }
}

impl Gate for Meeting {
    fn before<R: Threads + Wait + Sync>(&self, rt: &R, client: u32, sections: u64) {
        let _rt = rt;
        self.holds.told(sections);
        if client == 0 {
            self.meet(&self.first, &self.second);
        } else {
            self.meet(&self.second, &self.first);
        }
    }
}

#[test]
fn two_workers_run_side_by_side(rt: HostRuntime) -> Result<(), Fail> {
    let gate = Meeting {
        first: AtomicU64::new(0),
        second: AtomicU64::new(0),
        holds: Holds::new(),
    };
    let clients = b"client A { add(); } client B { add(); }";
    let end = b"\ndone\nstate count=2\n";
    begins_and_ends(&rt, by_two(LEVEL, clients), &gate, Status::Done, (b"", end))?;
    assert!(rt; gate.holds.all_ended(2));
    Ok(())
}

const BLOCK: &[&str] = &["expresso", "block", "m.mon", "c.cl"];

#[test]
fn two_callers_run_side_by_side(rt: HostRuntime) -> Result<(), Fail> {
    let gate = Meeting {
        first: AtomicU64::new(0),
        second: AtomicU64::new(0),
        holds: Holds::new(),
    };
    let clients = b"client A { add(); } client B { add(); }";
    let end = b"\ndone\nstate count=2\n";
    let call = asked(BLOCK, LEVEL, clients);
    begins_and_ends(&rt, call, &gate, Status::Done, (b"", end))?;
    assert!(rt; gate.holds.all_ended(2));
    Ok(())
}

/// Holds the second client's first call until the first client's second call has come.
#[derive(Drop)]
struct Waiting {
    first: AtomicU64,
    second: AtomicU64,
    holds: Holds,
}

impl Gate for Waiting {
    fn before<R: Threads + Wait + Sync>(&self, rt: &R, client: u32, sections: u64) {
        let _rt = rt;
        self.holds.told(sections);
        if client == 0 {
            self.first.fetch_add(1, Ordering::SeqCst);
        } else if self.second.fetch_add(1, Ordering::SeqCst) == 0 {
            self.holds.until(&self.first, 2);
        }
    }
}

#[test]
fn the_log_has_the_waits_that_threads_meet(rt: HostRuntime) -> Result<(), Fail> {
    let gate = Waiting {
        first: AtomicU64::new(0),
        second: AtomicU64::new(0),
        holds: Holds::new(),
    };
    let clients = b"client A { get(); } client B { put(); }";
    let text = b"plan Buffer
keep count >= 0
keep count >= -1
keep count <= 1
keep count <= 2
condition 1 signal: count < CAP
condition 2 signal: count > 0
block put: 2 signal
block get: 1 signal
A.1 get() waits
B.1 put() = - wakes A
A.1 get() = -
done
state count=0
";
    answers_through(&rt, by_two(BUFFER, clients), &gate, Status::Done, text)?;
    assert!(rt; gate.holds.all_ended(1));
    Ok(())
}

/// Holds the first client's first call until both others have been called.
#[derive(Drop)]
struct Others {
    first: AtomicU64,
    second: AtomicU64,
    third: AtomicU64,
    others: AtomicU64,
    holds: Holds,
}

impl Others {
    /// A call of one of the others, of whom so many were called.
    fn called(&self, before: u64) {
        if before == 0 {
            self.others.fetch_add(1, Ordering::SeqCst);
        }
    }
}

impl Gate for Others {
    fn before<R: Threads + Wait + Sync>(&self, rt: &R, client: u32, sections: u64) {
        let _rt = rt;
        self.holds.told(sections);
        match client {
            0 => {
                if self.first.fetch_add(1, Ordering::SeqCst) == 0 {
                    self.holds.until(&self.others, 2);
                }
            }
            1 => self.called(self.second.fetch_add(1, Ordering::SeqCst)),
            _ => self.called(self.third.fetch_add(1, Ordering::SeqCst)),
        }
    }
}

#[test]
fn clients_are_not_shared_out_by_their_numbers(rt: HostRuntime) -> Result<(), Fail> {
    let gate = Others {
        first: AtomicU64::new(0),
        second: AtomicU64::new(0),
        third: AtomicU64::new(0),
        others: AtomicU64::new(0),
        holds: Holds::new(),
    };
    let clients = b"client A { add(); } client B { add(); } client C { add(); }";
    let end = b"\ndone\nstate count=3\n";
    begins_and_ends(&rt, by_two(LEVEL, clients), &gate, Status::Done, (b"", end))?;
    assert!(rt; gate.holds.all_ended(1));
    Ok(())
}

/// Holds each worker's call after its first section until both have come so far.
#[derive(Drop)]
struct Makers {
    after_one: AtomicU64,
    holds: Holds,
}

impl Gate for Makers {
    fn before<R: Threads + Wait + Sync>(&self, rt: &R, client: u32, sections: u64) {
        let _rt = rt;
        let _client = client;
        self.holds.told(sections);
        if sections == 1 {
            self.after_one.fetch_add(1, Ordering::SeqCst);
            self.holds.until(&self.after_one, 2);
        }
    }
}

#[test]
fn both_of_two_workers_make_sections(rt: HostRuntime) -> Result<(), Fail> {
    let gate = Makers {
        after_one: AtomicU64::new(0),
        holds: Holds::new(),
    };
    let clients =
        b"client A { add(); add(); } client B { add(); add(); } client C { add(); add(); }";
    let end = b"\ndone\nstate count=6\n";
    begins_and_ends(&rt, by_two(LEVEL, clients), &gate, Status::Done, (b"", end))?;
    assert!(rt; gate.holds.begun.load(Ordering::SeqCst) >= 2);
    assert_eq!(rt; gate.holds.in_vain.load(Ordering::SeqCst), 0);
    Ok(())
}

/// Keeps the number of sections that the last call was told, and counts calls that were told
/// another than that or one more.
#[derive(Drop)]
struct Counting {
    last: AtomicU64,
    wrong: AtomicU64,
}

impl Gate for Counting {
    fn before<R: Threads + Wait + Sync>(&self, rt: &R, client: u32, sections: u64) {
        let _rt = rt;
        let _client = client;
        let last = self.last.swap(sections, Ordering::SeqCst);
        if sections != last && sections != last.saturating_add(1) {
            self.wrong.fetch_add(1, Ordering::SeqCst);
        }
    }
}

#[test]
fn one_worker_tells_how_many_sections_it_has_made(rt: HostRuntime) -> Result<(), Fail> {
    let gate = Counting {
        last: AtomicU64::new(0),
        wrong: AtomicU64::new(0),
    };
    let words = ["expresso", "run", "m.mon", "c.cl", "--workers", "1"];
    let clients = b"client A { add(); } client B { add(); add(); }";
    let alone = asked(words.as_slice(), LEVEL, clients);
    let end = b"\ndone\nstate count=3\n";
    begins_and_ends(&rt, alone, &gate, Status::Done, (b"", end))?;
    assert_eq!(rt; gate.last.load(Ordering::SeqCst), 3);
    assert_eq!(rt; gate.wrong.load(Ordering::SeqCst), 0);
    Ok(())
}

/// Holds each worker's call ahead of its first section until 16 such calls have begun, and each
/// worker's call after its first section until each worker has made one. Counts all calls.
#[derive(Drop)]
struct Crowd {
    calls: AtomicU64,
    starting: AtomicU64,
    after_one: AtomicU64,
    holds: Holds,
}

/// The workers of a crowd.
const CROWD: u64 = 16;

impl Gate for Crowd {
    fn before<R: Threads + Wait + Sync>(&self, rt: &R, client: u32, sections: u64) {
        let _rt = rt;
        let _client = client;
        self.calls.fetch_add(1, Ordering::SeqCst);
        if sections == 0 {
            self.starting.fetch_add(1, Ordering::SeqCst);
            self.holds.until(&self.starting, CROWD);
        } else if sections == 1 {
            self.after_one.fetch_add(1, Ordering::SeqCst);
            self.holds.until(&self.after_one, CROWD);
        }
    }
}

#[test]
fn sixteen_workers_run_the_large_input(rt: HostRuntime) -> Result<(), Fail> {
    let gate = Crowd {
        calls: AtomicU64::new(0),
        starting: AtomicU64::new(0),
        after_one: AtomicU64::new(0),
        holds: Holds::new(),
    };
    let words = ["expresso", "stress", "3", "--workers", "16"];
    let stress = asked(words.as_slice(), b"", b"");
    let summary = b"calls 16384\ndone\nstate count=0\n";
    answers_through(&rt, stress, &gate, Status::Done, summary)?;
    assert!(rt; gate.holds.begun.load(Ordering::SeqCst) >= 2 * CROWD);
    assert_eq!(rt; gate.holds.in_vain.load(Ordering::SeqCst), 0);
    assert!(rt; gate.calls.load(Ordering::SeqCst) >= 16_384);
    Ok(())
}
