//! Who waits on each condition, in the order in which they began to wait.

ghost use Rattle.std.specs.Prelude.{◌≡◌, ◌<◌, ◌≤◌, ◌∷◌, ◌++◌, [], All, Contains, IfOk, Some, drop};
ghost use Rattle.std.specs.Prelude.{length, replicate};
ghost use Rattle.std.specs.Prelude.{slice_get, slice_set, take};
ghost use Rattle.circular_buffer.specs.Buffer.{buffer};
ghost use Rattle.lang_base.specs.Limits.{CLIENTS};
ghost use Rattle.machine_explicit.specs.inner.Rings.{line_of, without};
ghost use Rattle.machine_explicit.specs.inner.Waiting.{AreBits};

use super::clients::Clients;
use circular_buffer::HeapCircularBuffer;
use lang_base::limits::CLIENTS;
use std::alloc::{AllocError, Global};
use std::marker::Model;

/// A ring of waiting clients for each condition by its number, with room for every client. A call
/// at a number with no ring finds an empty one.
#[derive(Drop)]
pub struct Rings {
    rings: Vec<HeapCircularBuffer<u32>>,
}

impl Model for Rings {
    ghost use Rattle.std.specs.Prelude.{◌≡◌, ℕ, List, All, map};
    ghost use Rattle.lang_base.specs.Limits.{CLIENTS};

    ghost Value = { List (List ℕ) };

    ghost view = { λ r. map (λ ring. ring.items) r.rings.items };

    ghost invariant = { λ r. All (λ ring. ring.capacity ≡ CLIENTS) r.rings.items };
}

impl Rings {
    /// So many empty rings. It fails only for want of memory.
    pub fn open(alloc: Global, count: usize) -> Result<Rings, AllocError>
        ensures { IfOk result (λ rings. rings ≡ replicate count []) }
    {
        let mut rings = Vec::with_capacity(alloc, count)?;
        for _ring in 0..count {
            rings.push(HeapCircularBuffer::with_capacity(alloc, CLIENTS)?)?;
        }
        Ok(Rings { rings })
    }

    /// The client that has waited longest on a condition.
    pub fn first(&self, condition: u32) -> Option<u32>
        ensures { result ≡ slice_get (line_of self.now condition) 0 }
    {
        if condition as usize >= self.rings.len() {
            return None;
        }
        self.rings[condition as usize].front().copied()
    }

    /// The clients that wait on a condition.
    pub fn clients(&self, condition: u32) -> Clients
        requires { All (λ client. client < CLIENTS) (line_of self.now condition) }
        ensures { AreBits (λ client. Contains (line_of self.now condition) client) result.bits }
    {
        if condition as usize >= self.rings.len() {
            return Clients::none();
        }
        ring_clients(&self.rings[condition as usize])
    }

    /// A client begins to wait on a condition: it is the last of its ring.
    pub fn push(&mut self, condition: u32, client: u32)
        requires within { condition < length self.old }
        requires room { length (line_of self.old condition) < CLIENTS }
        ensures { self.new ≡ slice_set self.old condition
            (line_of self.old condition ++ client ∷ []) }
    {
        self.rings[condition as usize].push_back(client);
    }

    /// The client that has waited longest on a condition waits no more.
    pub fn pop(&mut self, condition: u32)
        ensures { self.new ≡ slice_set self.old condition (drop 1 (line_of self.old condition)) }
    {
        if condition as usize >= self.rings.len() {
            return;
        }
        let _first = self.rings[condition as usize].pop_front();
    }

    /// A client waits no more on a condition.
    pub fn remove(&mut self, condition: u32, client: u32)
        ensures { self.new ≡ slice_set self.old condition
            (without client (line_of self.old condition)) }
    {
        if condition as usize >= self.rings.len() {
            return;
        }
        take_out(&mut self.rings[condition as usize], client);
    }

    /// No client waits on a condition any more.
    pub fn clear(&mut self, condition: u32)
        ensures { self.new ≡ slice_set self.old condition [] }
    {
        if condition as usize >= self.rings.len() {
            return;
        }
        self.rings[condition as usize].clear();
    }
}

/// The clients of a ring.
fn ring_clients(ring: &HeapCircularBuffer<u32>) -> Clients
    requires { All (λ client. client < CLIENTS) ring.now.items }
    ensures { AreBits (λ client. Contains ring.now.items client) result.bits }
{
    let mut clients = Clients::none();
    for place in 0..ring.len() {
        let one = client_at(ring, place);
        clients = clients.with(one);
    }
    clients
}

/// The client at a place of a ring.
fn client_at(ring: &HeapCircularBuffer<u32>, place: usize) -> Clients
    requires few { All (λ client. client < CLIENTS) ring.now.items }
    requires within { place < length ring.now.items }
    ensures { AreBits (λ client. slice_get ring.now.items place ≡ Some client) result.bits }
{
    match ring.get(place) {
        Some(client) => Clients::one(*client),
        None => Clients::none(),
    }
}

/// Takes a client out of a ring, which is gone round once.
fn take_out(ring: &mut HeapCircularBuffer<u32>, client: u32)
    ensures { ring.new ≡ buffer (without client ring.old.items) ring.old.capacity }
{
    for _turn in 0..ring.len() {
        turn(ring, client);
    }
}

/// Puts the first of a ring at its end, or takes it out where it is this client.
fn turn(ring: &mut HeapCircularBuffer<u32>, client: u32)
    requires { length ring.old.items ≤ ring.old.capacity }
    ensures { ring.new ≡ buffer (drop 1 ring.old.items
        ++ without client (take 1 ring.old.items)) ring.old.capacity }
{
    if let Some(other) = ring.pop_front() {
        if other != client {
            ring.push_back(other);
        }
    }
}
