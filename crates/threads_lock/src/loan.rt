//! Passes that are lent: a caller that is to sleep leaves its idle seat in a berth, and whoever
//! wakes its client makes the client's section with it.

use super::receipt::Receipt;
use super::rule::Seat;
use machine_explicit::NotReady;
use std::sync::Wait;
use threads_desk::{Cell, Done, Errand, Free, Mail, Miss, Task};

/// A place for the pass of one caller at a time that sleeps.
#[derive(Drop)]
pub struct Berth {
    pub(crate) cell: Bed,
}

/// An idle seat, and the client of which a section is wanted.
#[derive(Drop)]
pub struct Loan {
    pub(crate) seat: Seat,
    pub(crate) client: u32,
}

/// The seat, and what came of the section.
#[derive(Drop)]
pub struct Repaid {
    pub(crate) seat: Seat,
    pub(crate) made: Result<Receipt, NotReady>,
}

/// It shows why nobody used a pass that was to be lent.
#[derive(Drop)]
pub enum Kept {
    /// The berth was not free.
    Busy(Vacancy),
    /// It was taken back from the berth.
    Back(Free<Loan, Repaid, Seat>),
}

/// What came of a pass that was lent for a section of a client.
#[derive(Drop)]
pub enum LoanEnd {
    /// Someone made the section.
    Made(Receipt),
    /// Someone tried, and the client rests.
    Rested(NotReady),
    /// Nobody used the pass.
    Kept(Kept),
}

/// How a seat comes back that was lent.
#[derive(Drop)]
pub enum Back {
    Repaid(Repaid),
    Unused(Loan, Kept),
}

/// What may be lent by a berth, and how it is given back. A seat of the lock stands for it.
pub struct Loans;

impl Errand<Loan, Repaid, Seat> for Loans {
    ghost use Rattle.threads_lock.specs.inner.Renting.{IsLoan, IsRepaid};

    ghost asks = { IsLoan };

    ghost tells = { IsRepaid };
}

/// The cell of a berth.
pub type Bed = Cell<Loan, Repaid, Seat, Loans>;

/// The right to have a seat back from a berth.
pub type Claim = Mail<Loan, Repaid, Seat>;

/// A seat that was found in a berth, and is to be given back.
pub type Duty = Task<Loan, Repaid, Seat>;

/// It shows that a seat was given back by a berth, with what came of its section.
pub type Repayment = Done<Loan, Repaid, Seat>;

/// It shows that a berth was found otherwise than it was wanted.
pub type Vacancy = Miss<Loan, Repaid, Seat>;

/// What a caller does while its pass is lent.
pub trait Rest {
    /// Sleeps until it is woken. It may also return for no reason.
    fn rest<R: Wait>(&self, rt: &R);
}
