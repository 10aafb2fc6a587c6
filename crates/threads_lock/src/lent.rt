//! Seats that are lent: whoever waits lets who has the monitor do what it wishes, with the seat
//! that waits.

ghost use Rattle.std.specs.Prelude.{◌≡◌, None};

use super::found::{Look, Stand};
use super::receipt::Receipt;
use super::rule::Seat;
use machine_explicit::NotReady;
use threads_desk::{Cell, Desk, Errand, Mail, Task};

/// What a seat wants of its turn. Clients go by their numbers.
#[derive(Clone, Copy)]
pub enum Wish {
    /// A section of this client.
    Section(u32),
    /// How this client stands.
    Standing(u32),
    /// Whether the monitor is closed.
    Closed,
}

/// What came of a wish: the variant has the name of the wish's.
#[derive(Drop)]
pub enum Answer {
    Section(Result<Receipt, NotReady>),
    Standing(Stand),
    Closed(Look),
}

/// A seat that waits for its ticket, and what it wants then.
#[derive(Drop)]
pub struct Lent {
    pub seat: Seat,
    pub wish: Wish,
    pub ticket: u64,
}

/// The seat, and what came of its wish; or nothing, where its ticket isn't served yet.
#[derive(Drop)]
pub struct Returned {
    pub seat: Seat,
    pub answer: Option<Answer>,
}

impl Lent {
    /// The seat, with which nothing was done.
    pub fn unused(self) -> Returned
        ensures { (result.seat ≡ self.seat) × (result.answer ≡ None) }
    {
        Returned {
            seat: self.seat,
            answer: None,
        }
    }
}

/// What may be lent at a lock, and how it is given back. A seat of the lock stands for it.
pub struct Lending;

impl Errand<Lent, Returned, Seat> for Lending {
    ghost use Rattle.threads_lock.specs.inner.Lending.{IsLent, IsReturned};

    ghost asks = { IsLent };

    ghost tells = { IsReturned };
}

/// The letters of those who wait.
pub type Letters = Desk<Lent, Returned, Seat, Lending>;

/// A cell for letters.
pub type Place = Cell<Lent, Returned, Seat, Lending>;

/// The right to have a seat back.
pub type Letter = Mail<Lent, Returned, Seat>;

/// A seat that is to be given back.
pub type Debt = Task<Lent, Returned, Seat>;
