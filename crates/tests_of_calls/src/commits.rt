//! How the calls of one caller end, one after the other.

ghost use Rattle.std.specs.Prelude.{◌≡◌, ◌<◌, length};

use super::opening::opened;
use machine_events::{Entry, Outcome};
use machine_explicit::FreeMonitor;
use machine_implicit::Reply;
use samples::monitors::{BUFFER, TWICE};
use std::alloc::Global;
use std::process::Abort;
use std::sync::Wait;
use std::test::Fail;
use threads_call::{BlockingMonitor, Caller, CommitEnd};
use threads_lock::Receipt;

/// The first client.
const A: u32 = 0;

/// The second client.
const B: u32 = 1;

/// How many clients there are.
fn clients_of(free: &FreeMonitor) -> u32
    ensures { result ≡ length free.now.system.clients }
{
    free.scripts().clients().len() as u32
}

/// A monitor, a caller of it, and how many clients it has.
#[derive(Drop)]
struct Calling {
    monitor: BlockingMonitor,
    caller: Caller,
    clients: u32,
    ghost own: { caller.lock ≡ monitor.lock },
    ghost counted: { clients ≡ length caller.known.front.system.clients },
}

impl Calling {
    /// The monitor of a text at the start, with the clients of another, under the plan that wakes
    /// everyone.
    fn of(alloc: Global, monitor: &[u8], clients: &[u8]) -> Result<Calling, Fail> {
        let free = opened(alloc, monitor, clients)?;
        let clients = clients_of(&free);
        let (monitor, mut callers) = BlockingMonitor::open(alloc, free)?;
        let Some(caller) = callers.pop() else {
            return Err("a caller".into());
        };
        Ok(Calling {
            monitor,
            caller,
            clients,
        })
    }

    /// How the next call ends, where there is a client of this number. Tickets are left out.
    #[tactic(auto, using(threads_call::proofs::Committing::commits_system))]
    fn commit<R: Wait>(&mut self, rt: &R, client: u32) -> Option<CommitEnd> {
        if client < self.clients {
            Some(at_no_ticket(self.monitor.commit(rt, &mut self.caller, client)))
        } else {
            None
        }
    }

    /// The place from 0 of the first call that does not end so.
    fn first_wrong<R: Wait>(&mut self, rt: &R, calls: &[(u32, CommitEnd)]) -> Option<usize> {
        for (place, (client, end)) in calls.iter().enumerate() {
            if self.commit(rt, *client) != Some(*end) {
                return Some(place);
            }
        }
        None
    }
}

/// The same end, as if the section had had ticket 0.
fn at_no_ticket(end: CommitEnd) -> CommitEnd {
    match end {
        CommitEnd::Replied(
            Receipt {
                place,
                entry,
                ticket: _,
            },
        ) => CommitEnd::Replied(Receipt {
            place,
            entry,
            ticket: 0,
        }),
        other => other,
    }
}

/// A client's block that replied, and woke nobody.
fn replied(place: u64, client: u32, call: u32, block: u32, reply: Reply) -> CommitEnd {
    CommitEnd::Replied(Receipt {
        place,
        entry: Entry {
            client,
            call,
            block,
            outcome: Outcome::Replies { reply, woken: 0 },
        },
        ticket: 0,
    })
}

/// Demands that calls of these clients, one after the other, end so.
fn end_so(
    rt: &(impl Abort + Wait + AllocGlobal),
    monitor: &[u8],
    clients: &[u8],
    calls: &[(u32, CommitEnd)],
) -> Result<(), Fail> {
    let mut calling = Calling::of(rt.alloc(), monitor, clients)?;
    let wrong = calling.first_wrong(rt, calls);
    assert_eq!(rt; wrong, None);
    Ok(())
}

#[test]
fn a_client_is_over_after_its_calls(rt: HostRuntime) -> Result<(), Fail> {
    let calls = [
        (A, replied(0, A, 1, 1, Reply::Unit)),
        (A, replied(1, A, 2, 1, Reply::Unit)),
        (A, CommitEnd::Over { entries: 2 }),
        (A, CommitEnd::Over { entries: 2 }),
        (A, CommitEnd::Over { entries: 2 }),
    ];
    end_so(&rt, BUFFER, b"client A { put(); get(); }", &calls)
}

#[test]
fn a_client_that_nobody_frees_is_stalled(rt: HostRuntime) -> Result<(), Fail> {
    let calls = [
        (A, CommitEnd::Stalled { entries: 1 }),
        (A, CommitEnd::Stalled { entries: 1 }),
    ];
    end_so(&rt, BUFFER, b"client A { get(); }", &calls)
}

#[test]
fn a_call_that_tries_is_refused_in_place_of_waiting(rt: HostRuntime) -> Result<(), Fail> {
    let calls = [
        (A, replied(0, A, 1, 1, Reply::Refused)),
        (A, replied(1, A, 2, 1, Reply::Unit)),
        (A, replied(2, A, 3, 1, Reply::Refused)),
        (A, replied(3, A, 4, 1, Reply::Unit)),
        (A, CommitEnd::Over { entries: 4 }),
    ];
    let clients = b"client A { try get(); put(); try put(); get(); }";
    end_so(&rt, BUFFER, clients, &calls)
}

#[test]
fn each_block_of_a_method_ends_a_call(rt: HostRuntime) -> Result<(), Fail> {
    let calls = [
        (A, replied(0, A, 1, 1, Reply::Unit)),
        (B, replied(1, B, 1, 1, Reply::Unit)),
        (A, replied(2, A, 1, 2, Reply::Int(0))),
        (B, CommitEnd::Stalled { entries: 4 }),
        (A, CommitEnd::Over { entries: 4 }),
        (B, CommitEnd::Stalled { entries: 4 }),
    ];
    end_so(
        &rt,
        TWICE,
        b"client A { pair(); } client B { pair(); }",
        &calls,
    )
}

#[test]
fn without_clients_there_is_one_caller(rt: HostRuntime) -> Result<(), Fail> {
    let free = opened(rt.alloc(), BUFFER, b"")?;
    let (monitor, callers) = BlockingMonitor::open(rt.alloc(), free)?;
    assert_eq!(rt; callers.len(), 1);
    let last = monitor.close(callers);
    assert!(rt; last.closed());
    Ok(())
}
