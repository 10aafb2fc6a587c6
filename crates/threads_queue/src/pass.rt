//! The right to use a queue of tickets.

ghost use Rattle.std.specs.Prelude.{◌≡◌, []};
ghost use Rattle.crossbeam_queue.specs.Passes.{view};
ghost use Rattle.threads_queue.specs.inner.Gathered.{pass_of};

use super::rule::Place;
use std::marker::Model;

/// The right to use a queue of tickets, for one thread at a time. Contracts see of which queue it
/// is, the tickets that it has, and how many of its pops found the queue empty.
#[derive(Drop)]
pub struct QueuePass {
    pub(crate) place: Place,
    pub(crate) clients: u32,
}

impl Model for QueuePass {
    ghost use Rattle.std.specs.Prelude.{◌≡◌, []};
    ghost use Rattle.threads_queue.specs.Tickets.{QueuePassView};
    ghost use Rattle.threads_queue.specs.inner.Gathered.{pass_view};

    ghost Value = { QueuePassView };

    ghost view = { λ p. pass_view p.place };

    ghost invariant = { λ p.
        (p.place.me.1 ≡ []) × (p.place.me.0.client.parts ≡ 1)
        × (p.clients ≡ p.place.me.0.client.clients) };
}

impl QueuePass {
    /// The pass of a place that has one part of the right to close.
    pub(crate) fn of(place: Place, clients: u32) -> QueuePass
        requires empty { place.me.1 ≡ [] }
        requires one_part { (view place).parts ≡ 1 }
        requires clients { clients ≡ (view place).clients }
        ensures { result ≡ pass_of place.table_id (view place) }
    {
        QueuePass { place, clients }
    }

    /// Its place.
    pub(crate) fn into_place(self) -> Place
        ensures pass { self ≡ pass_of result.table_id (view result) }
        ensures empty { result.me.1 ≡ [] }
        ensures one_part { (view result).parts ≡ 1 }
    {
        let QueuePass { place, clients: _ } = self;
        place
    }

    /// For how many clients its queue has tickets.
    pub fn clients(&self) -> u32
        ensures clients { result ≡ self.now.queue.clients }
    {
        self.clients
    }
}
