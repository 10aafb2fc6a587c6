//! A worker, and what it does at its turns. Where it is alone it goes round the clients itself;
//! else it takes their tickets from the ready queue.

ghost use Rattle.std.specs.Prelude.{◌≡◌, ◌<◌, IfSome, IsTrue};
ghost use Rattle.threads_queue.specs.Tickets.{new_pass};
ghost use Rattle.threads_pool.specs.inner.Workers.{HasFinished, IsPlace, IsWorker, KnowsClosed};

use super::pace::Pace;
use super::roster::Duty;
use super::shop::Shop;
use crossbeam_utils::Backoff;
use std::sync::Wait;
use std::thread::Threads;
use threads_lock::{Gate, Pass};
use threads_queue::QueuePass;

/// A worker: its passes, how many sections it has made, and the client that it tries next where it
/// works alone.
#[derive(Drop)]
pub struct Worker {
    pub place: Pass,
    pub tickets: QueuePass,
    pub sections: u64,
    pub next: u32,
}

impl Worker {
    /// A worker that is given its passes.
    #[tactic(auto, using(crate::proofs::Hiring::hired))]
    pub fn hired(shop: &Shop, place: Pass, tickets: QueuePass) -> Worker
        requires place { IsPlace shop.now place }
        requires tickets { tickets ≡ new_pass shop.now.queue }
        ensures own { IsWorker shop.now result }
    {
        let _shop = shop;
        Worker {
            place,
            tickets,
            sections: 0,
            next: 0,
        }
    }

    /// Its pass of the shared monitor, once it has ended.
    #[tactic(auto, using(crate::proofs::Hiring::has_place, crate::proofs::Hiring::knew))]
    pub fn into_place(self, shop: &Shop) -> Pass
        requires own { HasFinished shop.now self }
        ensures own { result.lock ≡ shop.now.monitor.lock }
        ensures closed { KnowsClosed result }
    {
        let _shop = shop;
        let Worker {
            place,
            tickets: _,
            sections: _,
            next: _,
        } = self;
        place
    }
}

/// Makes sections while it leads, and stands by while another does, until it is told that the
/// monitor is closed. Nothing else ends it.
#[tactic(auto, using(crate::proofs::Hiring::finished))]
pub fn work<R: Threads + Wait + Sync, G: Gate>(rt: &R, shop: &Shop, gate: &G, worker: &mut Worker)
    requires own { IsWorker shop.now worker.old }
    ensures finished { HasFinished shop.now worker.new }
{
    let number = shop.roster.begin();
    for _ in rt.forever() {
        if serve(rt, shop, gate, worker, number) {
            return;
        }
    }
    unreachable!()
}

/// Does what is on the worker of a number, and says whether it was told that the monitor is closed.
fn serve<R: Threads + Wait + Sync, G: Gate>(
    rt: &R,
    shop: &Shop,
    gate: &G,
    worker: &mut Worker,
    number: u64,
) -> bool
    requires own { IsWorker shop.now worker.old }
    ensures own { IsWorker shop.now worker.new }
    ensures closed { IsTrue result → KnowsClosed worker.new.place }
{
    match shop.roster.duty(number) {
        Duty::Leads => lead(rt, shop, gate, worker, number),
        Duty::StandsBy => {
            stand_by(rt, shop, &mut worker.place, number);
            false
        }
        Duty::Ends => ends(rt, shop, &mut worker.place),
    }
}

/// Makes sections as long as the worker leads, and says whether it was told that the monitor is
/// closed.
fn lead<R: Threads + Wait + Sync, G: Gate>(
    rt: &R,
    shop: &Shop,
    gate: &G,
    worker: &mut Worker,
    number: u64,
) -> bool
    requires own { IsWorker shop.now worker.old }
    ensures own { IsWorker shop.now worker.new }
    ensures closed { IsTrue result → KnowsClosed worker.new.place }
{
    let backoff = Backoff::new();
    let mut pace = Pace::new();
    for _ in rt.forever() {
        if !shop.roster.leads(number) {
            return false;
        }
        let made = next_turn(rt, shop, gate, worker, pace.most());
        if made {
            backoff.reset();
        }
        pace.note(made, shop.clients);
        if pace.is_round(shop.clients) {
            if ends(rt, shop, &mut worker.place) {
                shop.roster.end();
                return true;
            }
            pause(rt, shop, &backoff);
        }
    }
    unreachable!()
}

/// A worker that went round all clients in vain waits: for moments at first, and then it naps.
fn pause<R: Wait>(rt: &R, shop: &Shop, backoff: &Backoff) {
    if backoff.is_completed() {
        shop.roster.nap(rt);
    } else {
        backoff.snooze();
    }
}

/// A worker that doesn't lead watches until the log stands still, and leads then; or it sleeps
/// where another watches.
fn stand_by<R: Wait>(rt: &R, shop: &Shop, place: &mut Pass, number: u64)
    requires own { IsPlace shop.now place.old }
    ensures own { IsPlace shop.now place.new }
{
    if !shop.roster.watches(rt) {
        return;
    }
    let mut before = entries(shop, place);
    for _ in rt.forever() {
        shop.roster.nap(rt);
        let now = entries(shop, place);
        if now == before || shop.roster.is_over() {
            shop.roster.take_over(number);
            return;
        }
        before = now;
    }
    unreachable!()
}

/// How long the log is.
#[tactic(auto, using(crate::proofs::Hiring::observed_system))]
fn entries(shop: &Shop, place: &mut Pass) -> u64
    requires own { IsPlace shop.now place.old }
    ensures own { IsPlace shop.now place.new }
{
    shop.monitor.observe(place)
}

/// Tries sections of the next client, the one whose ticket is the queue's first, and says whether
/// one was made. A worker that is alone goes round the clients without the queue, one section at a
/// time, since nobody else has a ticket.
fn next_turn<R: Threads + Wait + Sync, G: Gate>(
    rt: &R,
    shop: &Shop,
    gate: &G,
    worker: &mut Worker,
    most: u32,
) -> bool
    requires own { IsWorker shop.now worker.old }
    ensures own { IsWorker shop.now worker.new }
{
    if !shop.roster.is_alone() {
        return take_turn(rt, shop, gate, worker, most);
    }
    let Some(client) = next_of(&mut worker.next, shop.clients) else {
        return false;
    };
    gate.before(rt, client, worker.sections);
    let made = try_client(rt, shop, &mut worker.place, client);
    if made {
        worker.sections = worker.sections.saturating_add(1);
    }
    made
}

/// The client whose turn it is, of so many that go round; then it is the next one's.
fn next_of(next: &mut u32, clients: u32) -> Option<u32>
    ensures { IfSome result (λ client. client < clients) }
{
    let client = if *next < clients { *next } else { 0 };
    if client >= clients {
        return None;
    }
    *next = client + 1;
    Some(client)
}

/// Takes a ticket, tries sections of its client, and puts it back.
#[tactic(auto, using(threads_queue::proofs::Sums::contains_first, threads_queue::proofs::Sums::without_first))]
fn take_turn<R: Threads + Wait + Sync, G: Gate>(
    rt: &R,
    shop: &Shop,
    gate: &G,
    worker: &mut Worker,
    most: u32,
) -> bool
    requires own { IsWorker shop.now worker.old }
    ensures own { IsWorker shop.now worker.new }
{
    let Some(ticket) = shop.queue.take(rt, &mut worker.tickets) else {
        return false;
    };
    let client = ticket.client();
    let before = worker.sections;
    for_client(
        rt,
        shop,
        gate,
        &mut worker.place,
        &mut worker.sections,
        client,
        most,
    );
    shop.queue.put(rt, &mut worker.tickets, ticket);
    worker.sections > before
}

/// Makes at most so many sections of a client whose ticket the worker has, one after the other,
/// until the client rests, and counts them.
fn for_client<R: Threads + Wait + Sync, G: Gate>(
    rt: &R,
    shop: &Shop,
    gate: &G,
    place: &mut Pass,
    sections: &mut u64,
    client: u32,
    most: u32,
)
    requires own { IsPlace shop.now place.old }
    requires client { client < shop.now.clients }
    ensures own { IsPlace shop.now place.new }
{
    for _ in 0..most {
        gate.before(rt, client, *sections);
        if !try_client(rt, shop, place, client) {
            return;
        }
        *sections = sections.saturating_add(1);
    }
}

/// Tries a client whose ticket the worker has, unless the client rests.
fn try_client<R: Wait>(rt: &R, shop: &Shop, place: &mut Pass, client: u32) -> bool
    requires own { IsPlace shop.now place.old }
    requires client { client < shop.now.clients }
    ensures own { IsPlace shop.now place.new }
{
    if shop.hints.rests(client) {
        return false;
    }
    try_section(rt, shop, place, client)
}

/// Makes a section of a client whose ticket the worker has.
#[tactic(auto, using(threads_lock::proofs::Systems::section_system))]
fn try_section<R: Wait>(rt: &R, shop: &Shop, place: &mut Pass, client: u32) -> bool
    requires own { IsPlace shop.now place.old }
    requires client { client < shop.now.clients }
    ensures own { IsPlace shop.now place.new }
{
    match shop.monitor.section(rt, place, client) {
        Ok(receipt) => {
            shop.hints.note(&receipt);
            true
        }
        Err(fault) => {
            shop.hints.rest(client, fault.entries);
            false
        }
    }
}

/// Whether the monitor is closed.
#[tactic(auto, using(threads_lock::proofs::Systems::look_system))]
fn ends<R: Wait>(rt: &R, shop: &Shop, place: &mut Pass) -> bool
    requires own { IsPlace shop.now place.old }
    ensures own { IsPlace shop.now place.new }
    ensures closed { IsTrue result → KnowsClosed place.new }
{
    shop.monitor.is_closed(rt, place)
}
