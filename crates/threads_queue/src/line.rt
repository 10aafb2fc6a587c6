//! The steps at the queue.

ghost use Rattle.std.specs.Prelude.{◌≡◌, ◌<◌, ◌≤◌, [], ℕ, List, IfOk, MatchOption, Contains};
ghost use Rattle.crossbeam_queue.specs.Fifo.{Held};
ghost use Rattle.crossbeam_queue.specs.Passes.{view, IsPassOf, IsSamePass, ruled_capacity};
ghost use Rattle.threads_queue.specs.inner.Moves.{AreAll, Stands, StandsLast, begun, found_empty};
ghost use Rattle.threads_queue.specs.inner.Moves.{one_less, one_part, together};
ghost use Rattle.threads_queue.specs.inner.Moves.{with_ticket, without_ticket};
ghost use Rattle.threads_queue.specs.Hands.{unset};

use super::rule::{Begin, CountEmpty, OnePart, Place, Put, Take, Terms, Tickets, Whole};
use super::ticket::Ticket;
use std::alloc::AllocError;
use std::sync::Wait;

/// Takes a ticket. `None` comes only where the queue was empty at one moment of the call, and is
/// counted.
pub fn take<R: Wait>(rt: &R, line: &Tickets, place: &mut Place) -> Option<Ticket>
    requires own { IsPassOf line.now place.old }
    requires live { 0 < (view place.old).parts }
    ensures own { IsSamePass place.old place.new }
    ensures taken { MatchOption result
        (Held 0 (Stands (view place.old)) × (view place.new ≡ found_empty (view place.old)))
        (λ ticket. (ticket < (view place.old).clients)
        × (view place.new ≡ with_ticket ticket (view place.old))) }
{
    match line.pop_as::<Take, R>(rt, place) {
        Some(ticket) => Some(ticket),
        None => {
            count_empty(line, place);
            None
        }
    }
}

/// Counts a pop that found the queue empty.
fn count_empty(line: &Tickets, place: &mut Place)
    requires own { IsPassOf line.now place.old }
    requires live { 0 < (view place.old).parts }
    requires empty { Held 0 (Stands (view place.old)) }
    ensures own { IsSamePass place.old place.new }
    ensures counted { view place.new ≡ found_empty (view place.old) }
{
    let _spent = line.another::<CountEmpty>(place);
}

/// Puts a ticket back, behind those in the queue. There is always room.
pub fn put<R: Wait>(rt: &R, line: &Tickets, place: &mut Place, ticket: Ticket)
    requires own { IsPassOf line.now place.old }
    requires live { 0 < (view place.old).parts }
    requires room { (view place.old).clients ≤ ruled_capacity line.now }
    requires has { Contains (view place.old).tickets ticket }
    ensures own { IsSamePass place.old place.new }
    ensures put { view place.new ≡ without_ticket ticket (view place.old) }
    ensures queued { StandsLast ticket (view place.new) }
{
    match line.push_as::<Put, R>(rt, place, ticket) {
        Ok(()) => {}
        Err(_) => unreachable!(),
    }
}

/// Puts a ticket into a queue that no other thread has: so the first try succeeds.
pub fn try_put(line: &Tickets, place: &mut Place, ticket: Ticket) -> Result<(), AllocError>
    requires own { IsPassOf line.now place.old }
    requires live { 0 < (view place.old).parts }
    requires has { Contains (view place.old).tickets ticket }
    ensures own { IsSamePass place.old place.new }
    ensures put { IfOk result (λ _. view place.new ≡ without_ticket ticket (view place.old)) }
{
    match line.try_push_as::<Put>(place, ticket) {
        Ok(()) => Ok(()),
        Err(_) => Err(AllocError),
    }
}

/// Makes the tickets, before there is a second pass.
pub fn begin<K: Terms>(line: &Tickets, place: &mut Place, clients: u32, passes: u32)
    requires own { IsPassOf line.now place.old }
    requires new { view place.old ≡ unset }
    requires picked { (K.clients ≡ clients) × (K.passes ≡ passes) }
    requires some_pass { 0 < passes }
    ensures own { IsSamePass place.old place.new }
    ensures begun { view place.new ≡ begun clients passes }
{
    let _counts = (clients, passes);
    let _spent = line.another::<Begin<K>>(place);
}

/// A new place has one part of this one's.
pub fn cut(line: &Tickets, place: &mut Place) -> Place
    requires own { IsPassOf line.now place.old }
    requires two { 1 < (view place.old).parts }
    ensures own { IsSamePass place.old place.new }
    ensures left { view place.new ≡ one_less (view place.old) }
    ensures its { IsPassOf line.now result }
    ensures given { view result ≡ one_part (view place.old) }
{
    line.another::<OnePart>(place)
}

/// A place takes in another, with its parts and its tickets.
pub fn take_in(line: &Tickets, place: &mut Place, other: Place)
    requires own { IsPassOf line.now place.old }
    requires its { IsPassOf line.now other }
    requires live { 0 < (view place.old).parts }
    ensures own { IsSamePass place.old place.new }
    ensures taken { view place.new ≡ together (view place.old) (view other) }
{
    line.absorb::<OnePart>(place, other);
}

/// Whoever has all parts learns that the queue has the tickets that it has not.
pub fn learn(line: &Tickets, place: &mut Place)
    requires own { IsPassOf line.now place.old }
    requires all { (view place.old).parts ≡ (view place.old).passes }
    requires live { 0 < (view place.old).parts }
    ensures all { (queued : List ℕ) × AreAll (view place.old) queued }
{
    line.learn_as::<Whole>(place);
}
