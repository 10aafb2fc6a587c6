//! The rule of the queue, and what each step tells whoever makes it.

ghost use Rattle.std.specs.Prelude.{ℕ};

use crate::hand::Hand;
use crate::ticket::Ticket;
use crossbeam_queue::protocol::{Join, Lesson, Outcome, Protocol, Split};
use crossbeam_queue::{Pass, RuledArrayQueue};
use std::marker::{Brand, PhantomData};

/// What holds between any two steps.
pub struct EachOnce;

impl Protocol<Ticket, Hand> for EachOnce {
    ghost use Rattle.threads_queue.specs.Hands.{EachHasOneHolder, unset};

    ghost holds = { EachHasOneHolder };

    ghost first = { unset };
}

/// A ticket is taken; or the queue is seen empty.
pub struct Take;

impl Outcome<Ticket, Hand> for Take {
    ghost use Rattle.threads_queue.specs.inner.Moves.{Took};

    ghost then = { Took };
}

impl Lesson<Ticket, Hand> for Take {
    ghost use Rattle.threads_queue.specs.inner.Moves.{Stands};

    ghost fact = { Stands };
}

/// A ticket is put back. There is always room.
pub struct Put;

impl Outcome<Ticket, Hand> for Put {
    ghost use Rattle.threads_queue.specs.inner.Moves.{Gave};

    ghost then = { Gave };
}

impl Lesson<Ticket, Hand> for Put {
    ghost use Rattle.threads_queue.specs.inner.Moves.{Fit};

    ghost fact = { Fit };
}

/// For how many clients and passes a queue is opened. Each call of a program picks it.
pub trait Terms {
    ghost clients: { ℕ };

    ghost passes: { ℕ };
}

impl Terms for Brand {
    ghost clients = { 0 };

    ghost passes = { 1 };
}

/// The tickets are made.
pub struct Begin<K> {
    of: PhantomData<K>,
}

impl<K: Terms> Split<Hand> for Begin<K> {
    ghost use Rattle.threads_queue.specs.Hands.{spent};
    ghost use Rattle.threads_queue.specs.inner.Moves.{begun};

    ghost left = { λ _. begun K.clients K.passes };

    ghost right = { λ _. spent };
}

/// One part of the right to close goes to a new pass, or comes back.
pub struct OnePart;

impl Split<Hand> for OnePart {
    ghost use Rattle.threads_queue.specs.inner.Moves.{one_less, one_part};

    ghost left = { one_less };

    ghost right = { one_part };
}

impl Join<Hand> for OnePart {
    ghost use Rattle.threads_queue.specs.Hands.{spent};
    ghost use Rattle.threads_queue.specs.inner.Moves.{together};

    ghost both = { together };

    ghost spent = { spent };
}

/// A pop that found the queue empty is counted.
pub struct CountEmpty;

impl Split<Hand> for CountEmpty {
    ghost use Rattle.threads_queue.specs.Hands.{spent};
    ghost use Rattle.threads_queue.specs.inner.Moves.{found_empty};

    ghost left = { found_empty };

    ghost right = { λ _. spent };
}

/// Whoever has all parts learns where all tickets are.
pub struct Whole;

impl Lesson<Ticket, Hand> for Whole {
    ghost use Rattle.threads_queue.specs.inner.Moves.{AreAll};

    ghost fact = { AreAll };
}

/// The queue of the tickets, under the rule.
pub type Tickets = RuledArrayQueue<Ticket, Hand, EachOnce>;

/// A place at the queue.
pub type Place = Pass<Ticket, Hand>;
