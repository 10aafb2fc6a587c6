//! The queue of tickets.

ghost use Rattle.std.specs.Prelude.{◌≡◌, ◌<◌, ◌≤◌, ◌++◌, [], ℕ, List, IfOk, Contains, vec_capacity};
ghost use Rattle.std.specs.Prelude.{vec_len};
ghost use Rattle.std.specs.List.{All, range_with_len};
ghost use Rattle.crossbeam_queue.specs.Passes.{view, IsPassOf, IsSamePass, ruled_capacity};
ghost use Rattle.lang_base.specs.Limits.{CLIENTS};
ghost use Rattle.threads_queue.specs.Tickets.{IsEachOnce, IsQueued, Takes};
ghost use Rattle.threads_queue.specs.Tickets.{new_pass, put_back, tickets_of};
ghost use Rattle.threads_queue.specs.inner.Gathered.{Gathered, pass_of};
ghost use Rattle.threads_queue.specs.inner.Moves.{begun};
ghost use Rattle.threads_queue.specs.Hands.{unset};

use super::line;
use super::pass::QueuePass;
use super::rule::{Place, Tickets};
use super::ticket::Ticket;
use std::alloc::{AllocError, Global};
use std::marker::{Brand, Model};
use std::sync::Wait;

/// The most passes of a queue. The fewest is 1.
pub const MOST_PASSES: u32 = 32;

/// The tickets that no pass has. Contracts see which queue it is, and for how many clients and
/// passes it was opened.
#[derive(Drop)]
pub struct ReadyQueue {
    line: Tickets,
    clients: u32,
    passes: u32,
}

impl Model for ReadyQueue {
    ghost use Rattle.std.specs.Prelude.{◌<◌, ◌≤◌};
    ghost use Rattle.crossbeam_queue.specs.Passes.{ruled_capacity};
    ghost use Rattle.threads_queue.specs.Tickets.{QueueView};

    ghost Value = { QueueView };

    ghost view = { λ q. record {
      id = q.line.table.shared.table_id;
      clients = q.clients;
      passes = q.passes;
    } };

    ghost invariant = { λ q. (q.clients ≤ ruled_capacity q.line) × (0 < q.passes) };
}

impl ReadyQueue {
    /// A queue with one ticket for each of so many clients, at most 32, and so many passes that
    /// have none, from 1 to 32. It takes all memory that the queue will need, and fails only for
    /// want of memory.
    pub fn open(
        alloc: Global,
        clients: u32,
        passes: u32,
    ) -> Result<(ReadyQueue, Vec<QueuePass>), AllocError>
        requires clients { clients ≤ CLIENTS }
        requires some_pass { 1 ≤ passes }
        requires passes { passes ≤ MOST_PASSES }
        ensures queue { IfOk result
            (λ made. (made.0.clients ≡ clients) × (made.0.passes ≡ passes)) }
        ensures passes { IfOk result (λ made. vec_len made.1 ≡ passes) }
        ensures new { IfOk result (λ made. All (λ pass. pass ≡ new_pass made.0) made.1.items) }
    {
        let mut list = Vec::with_capacity(alloc, passes as usize)?;
        let (line, mut place) = Tickets::ruled(alloc, clients.max(1) as usize)?;
        begin_with(&line, &mut place, clients, passes);
        fill(&line, &mut place, clients)?;
        deal(&line, place, clients, passes, &mut list);
        let queue = ReadyQueue {
            line,
            clients,
            passes,
        };
        Ok((queue, list))
    }

    /// Takes a ticket for a pass of this queue. `None` comes only where a pop of this call found
    /// the queue empty, which the pass counts. It takes no memory.
    pub fn take<R: Wait>(&self, rt: &R, pass: &mut QueuePass) -> Option<Ticket>
        requires own { pass.old.queue ≡ self.now }
        ensures taken { Takes pass.old pass.new result }
    {
        line::take(rt, &self.line, &mut pass.place)
    }

    /// Puts a ticket of a pass of this queue back, behind those that the queue has: there is always
    /// room. At the moment when it is put back the queue has it again. It takes no memory.
    pub fn put<R: Wait>(&self, rt: &R, pass: &mut QueuePass, ticket: Ticket)
        requires own { pass.old.queue ≡ self.now }
        requires has { Contains pass.old.tickets ticket }
        ensures put { pass.new ≡ put_back ticket pass.old }
        ensures queued { IsQueued ticket pass.new }
    {
        line::put(rt, &self.line, &mut pass.place, ticket);
    }

    /// Ends the queue, once all passes are back: the tickets in the queue and in the passes are
    /// then the numbers below `clients`, each once. It takes no memory.
    pub fn close(self, mut passes: Vec<QueuePass>)
        requires all { vec_len passes ≡ self.passes }
        requires own { All (λ pass. pass.queue ≡ self) passes.items }
        ensures once { (queued : List ℕ)
            × IsEachOnce self.clients (queued ++ tickets_of passes.items) }
    {
        let last = passes.pop().unwrap();
        let mut place = last.into_place();
        gather(&self.line, &mut place, passes);
        line::learn(&self.line, &mut place);
    }
}

/// Makes the tickets, for so many clients and passes.
fn begin_with(line: &Tickets, place: &mut Place, clients: u32, passes: u32)
    requires own { IsPassOf line.now place.old }
    requires new { view place.old ≡ unset }
    requires some_pass { 1 ≤ passes }
    ensures own { IsPassOf line.now place.new }
    ensures begun { view place.new ≡ begun clients passes }
{
    line::begin::<Brand>(line, place, clients, passes);
}

/// Puts all tickets into the queue, which no other thread has yet: so each first try succeeds.
fn fill(line: &Tickets, place: &mut Place, clients: u32) -> Result<(), AllocError>
    requires own { IsPassOf line.now place.old }
    requires live { 0 < (view place.old).parts }
    requires tickets { (view place.old).tickets ≡ range_with_len 0 clients }
    ensures own { IsPassOf line.now place.new }
    ensures empty { IfOk result
        (λ _. view place.new ≡ record (view place.old) { tickets = [] }) }
{
    for client in 0..clients {
        line::try_put(line, place, Ticket::of(client))?;
    }
    Ok(())
}

/// Cuts a place that has all parts into passes of one part each.
fn deal(line: &Tickets, mut whole: Place, clients: u32, passes: u32, list: &mut Vec<QueuePass>)
    requires some { 1 ≤ passes }
    requires own { IsPassOf line.now whole }
    requires whole { view whole ≡ record (begun clients passes) { tickets = [] } }
    requires room { (list.old.items ≡ []) × (passes ≤ vec_capacity list.old) }
    ensures len { vec_len list.new ≡ passes }
    ensures new { All (λ pass. pass ≡ pass_of whole.table_id
        (record (begun clients passes) { parts = 1; tickets = [] })) list.new.items }
{
    for _ in 1..passes {
        let place = line::cut(line, &mut whole);
        list.push_reserved(QueuePass::of(place, clients));
    }
    list.push_reserved(QueuePass::of(whole, clients));
}

/// A place takes in all passes.
fn gather(line: &Tickets, place: &mut Place, passes: Vec<QueuePass>)
    requires own { IsPassOf line.now place.old }
    requires its { All (λ pass. pass.queue.id ≡ place.old.table_id) passes.items }
    requires live { 0 < (view place.old).parts }
    ensures own { IsPassOf line.now place.new }
    ensures gathered { Gathered (view place.old) (view place.new) passes.items }
{
    for pass in passes {
        line::take_in(line, place, pass.into_place());
    }
}
