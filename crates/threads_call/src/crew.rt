//! Clients are given their callers, and give them back.

ghost use Rattle.std.specs.Prelude.{◌≡◌, ◌<◌, ◌≤◌, [], IsTrue, length, vec_capacity, vec_len};
ghost use Rattle.std.specs.List.{All};
ghost use Rattle.threads_lock.specs.Closing.{KnowsClosed};
ghost use Rattle.threads_call.specs.inner.Callings.{IsCalling, IsPlace};

use super::blocking::Caller;
use super::commit_end::CommitEnd;
use super::hall::Hall;
use std::sync::Wait;
use std::thread::Threads;
use threads_lock::Gate;

/// A client whose calls are made: its caller, and how many replies the caller was given.
#[derive(Drop)]
pub struct Calling {
    client: u32,
    pub caller: Caller,
    replies: u64,
}

impl Calling {
    /// A client that is given its caller.
    fn new(hall: &Hall, client: u32, caller: Caller) -> Calling
        requires own { IsPlace hall.now.monitor caller }
        ensures own { IsCalling hall.now result }
    {
        let _hall = hall;
        Calling {
            client,
            caller,
            replies: 0,
        }
    }

    /// Its caller.
    fn into_caller(self, hall: &Hall) -> Caller
        requires own { IsCalling hall.now self }
        ensures own { IsPlace hall.now.monitor result }
    {
        let _hall = hall;
        let Calling {
            client: _,
            caller,
            replies: _,
        } = self;
        caller
    }
}

/// A client for each caller, in file order.
pub fn gather(hall: &Hall, callers: Vec<Caller>, crew: &mut Vec<Calling>)
    requires callers { All (IsPlace hall.now.monitor) callers.items }
    requires room { (crew.old.items ≡ []) × (vec_len callers ≤ vec_capacity crew.old) }
    ensures len { vec_len crew.new ≡ vec_len callers }
    ensures own { All (IsCalling hall.now) crew.new.items }
{
    let mut client = 0u32;
    for caller in callers {
        crew.push_reserved(Calling::new(hall, client, caller));
        client = client.saturating_add(1);
    }
}

/// The callers, once all calls have ended. Each makes the sections that are left, and knows that
/// the monitor is closed.
pub fn dismiss<R: Wait>(rt: &R, hall: &Hall, crew: Vec<Calling>, back: &mut Vec<Caller>)
    requires own { All (IsCalling hall.now) crew.items }
    requires room { (back.old.items ≡ []) × (vec_len crew ≤ vec_capacity back.old) }
    ensures len { vec_len back.new ≡ vec_len crew }
    ensures own { All (λ caller. caller.lock ≡ hall.now.monitor.lock) back.new.items }
    ensures closed { All KnowsClosed back.new.items }
{
    for calling in crew {
        back.push_reserved(finished(rt, hall, calling));
    }
}

/// The caller of a client, once it knows that the monitor is closed.
fn finished<R: Wait>(rt: &R, hall: &Hall, calling: Calling) -> Caller
    requires own { IsCalling hall.now calling }
    ensures own { result.lock ≡ hall.now.monitor.lock }
    ensures closed { KnowsClosed result }
{
    let mut caller = calling.into_caller(hall);
    finish(rt, hall, &mut caller);
    caller
}

/// Makes the sections that are left, until the monitor is closed.
fn finish<R: Wait>(rt: &R, hall: &Hall, caller: &mut Caller)
    requires own { IsPlace hall.now.monitor caller.old }
    ensures own { caller.new.lock ≡ hall.now.monitor.lock }
    ensures closed { KnowsClosed caller.new }
{
    for _ in rt.forever() {
        if is_closed(rt, hall, caller) {
            return;
        }
        make_sections(rt, hall, caller);
    }
    unreachable!()
}

/// Whether the monitor is closed.
#[tactic(auto, using(threads_lock::proofs::Systems::look_system))]
fn is_closed<R: Wait>(rt: &R, hall: &Hall, caller: &mut Caller) -> bool
    requires own { IsPlace hall.now.monitor caller.old }
    ensures own { IsPlace hall.now.monitor caller.new }
    ensures closed { IsTrue result → KnowsClosed caller.new }
{
    hall.monitor.shared().is_closed(rt, caller)
}

/// Makes a section of each client that doesn't rest.
fn make_sections<R: Wait>(rt: &R, hall: &Hall, caller: &mut Caller)
    requires own { IsPlace hall.now.monitor caller.old }
    ensures own { IsPlace hall.now.monitor caller.new }
{
    for client in 0..hall.clients {
        make_section(rt, hall, caller, client);
    }
}

/// Makes a section of a client, unless it rests.
#[tactic(auto, using(threads_lock::proofs::Systems::section_system))]
fn make_section<R: Wait>(rt: &R, hall: &Hall, caller: &mut Caller, client: u32)
    requires own { IsPlace hall.now.monitor caller.old }
    requires client { client < hall.now.clients }
    ensures own { IsPlace hall.now.monitor caller.new }
{
    let _made = hall.monitor.shared().section(rt, caller, client);
}

/// Makes the calls of a client until it is over or stalled, once all callers have come. The gate is
/// called ahead of each.
pub fn call_all<R: Threads + Wait + Sync, G: Gate>(
    rt: &R,
    hall: &Hall,
    gate: &G,
    calling: &mut Calling,
)
    requires own { IsCalling hall.now calling.old }
    ensures own { IsCalling hall.now calling.new }
{
    let client = calling.client;
    // A monitor without clients has one caller, which makes no call.
    if client >= hall.clients {
        return;
    }
    if !hall.start.come(rt, u64::from(hall.clients)) {
        return;
    }
    for _ in rt.forever() {
        gate.before(rt, client, calling.replies);
        if !commit(rt, hall, &mut calling.caller, client) {
            return;
        }
        calling.replies = calling.replies.saturating_add(1);
    }
    unreachable!()
}

/// Whether a client's call replied.
#[tactic(auto, using(crate::proofs::Committing::commits_system))]
fn commit<R: Wait>(rt: &R, hall: &Hall, caller: &mut Caller, client: u32) -> bool
    requires own { IsPlace hall.now.monitor caller.old }
    requires client { client < hall.now.clients }
    ensures own { IsPlace hall.now.monitor caller.new }
{
    replied(hall.monitor.commit(rt, caller, client))
}

/// Whether a call ended with a reply.
fn replied(end: CommitEnd) -> bool {
    match end {
        CommitEnd::Replied(_) => true,
        _ => false,
    }
}
