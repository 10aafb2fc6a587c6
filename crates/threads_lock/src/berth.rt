//! How a pass is lent by a berth, and how a section is made with one that lies there.
//!
//! The pass has no ticket while it lies in a berth: whoever finds it there draws one for it, and so
//! the section is one as any other. Who lent it looks again once it has rested; a pass that nobody
//! took it takes back, and one that was taken it has back in a moment.

ghost use Rattle.std.specs.Prelude.{◌≡◌, ◌<◌, IfOk, MatchResult, length};
ghost use Rattle.threads_desk.specs.declared.rule.TheConstants.{ASKED};
ghost use Rattle.threads_desk.specs.Letters.{IsMailOf, IsMissOf, IsTaskOf, about_of};
ghost use Rattle.threads_lock.specs.declared.lent.Wish.TheVariants.{Section};
ghost use Rattle.threads_lock.specs.declared.loan.Berth.{Berth};
ghost use Rattle.threads_lock.specs.declared.loan.Loan.{Loan};
ghost use Rattle.threads_lock.specs.Loans.{IsServed, Lends, lock_of};
ghost use Rattle.threads_lock.specs.Passes.{IsKnown};
ghost use Rattle.threads_lock.specs.inner.Lending.{IsMadeFor, section};
ghost use Rattle.threads_lock.specs.inner.Queueing.{IsIdle};
ghost use Rattle.threads_lock.specs.inner.Renting.{IsBackOf, IsHome, IsLoan, MayVisit, end_of};

use super::loan::{
    Back, Berth, Claim, Duty, Kept, Loan, LoanEnd, Repaid, Repayment, Rest, Vacancy,
};
use super::lock::Lock;
use super::receipt::Receipt;
use super::rule::Seat;
use machine_explicit::NotReady;
use std::alloc::{AllocError, Global};
use std::mem;
use std::sync::Wait;
use std::time::Duration;
use threads_desk::Cell;

/// How long who lent a seat sleeps at a time while that is used, in microseconds.
const NAP: u64 = 100;

impl Lock {
    /// A berth for seats of this lock.
    pub fn berth(&self, alloc: Global) -> Result<Berth, AllocError>
        ensures lock { IfOk result (λ berth. lock_of berth ≡ self.now.board.shared.table_id) }
    {
        let seat = self.spare();
        let cell = Cell::open(alloc, &seat)?;
        Ok(Berth { cell })
    }

    /// Makes a section with a seat that is lent.
    fn visit_for<R: Wait>(&self, rt: &R, loan: Loan) -> Repaid
        requires own { loan.seat.table_id ≡ self.now.board.shared.table_id }
        requires may { MayVisit loan }
        ensures own { result.seat.table_id ≡ loan.seat.table_id }
        ensures made { IsMadeFor (Section loan.client) loan.seat.me result.seat.me
            (section result.made) }
    {
        let Loan { mut seat, client } = loan;
        let made = self.visit(rt, &mut seat, client);
        Repaid { seat, made }
    }

    /// Makes a section with a seat that was found in a berth, and gives it back.
    fn repay<R: Wait>(
        &self,
        rt: &R,
        berth: &Berth,
        loan: Loan,
        duty: Duty,
    ) -> (Result<Receipt, NotReady>, Repayment)
        requires own { lock_of berth.now ≡ self.now.board.shared.table_id }
        requires loan { IsLoan (about_of berth.now.cell) loan }
        requires duty { IsTaskOf berth.now.cell duty loan }
        ensures served { IsServed berth.now result.0 result.1 }
    {
        let repaid = self.visit_for(rt, loan);
        let made = repaid.made;
        let done = berth.cell.answer(duty, repaid);
        (made, done)
    }

    /// Makes the section for which a seat lies in the berth, if one does.
    pub fn section_for<R: Wait>(
        &self,
        rt: &R,
        berth: &Berth,
    ) -> Result<(Result<Receipt, NotReady>, Repayment), Vacancy>
        requires own { lock_of berth.now ≡ self.now.board.shared.table_id }
        ensures served { MatchResult result
            (λ had. IsServed berth.now had.0 had.1)
            (λ none. IsMissOf berth.now.cell ASKED none) }
    {
        match berth.cell.take() {
            Ok((loan, duty)) => Ok(self.repay(rt, berth, loan, duty)),
            Err(none) => Err(none),
        }
    }

    /// Lends an idle seat for a section of the client, while its caller rests.
    pub fn lend_idle<R: Wait, N: Rest>(
        &self,
        rt: &R,
        seat: &mut Seat,
        client: u32,
        berth: &Berth,
        rest: &N,
    ) -> LoanEnd
        requires own { seat.old.table_id ≡ self.now.board.shared.table_id }
        requires berth { lock_of berth.now ≡ self.now.board.shared.table_id }
        requires idle { IsIdle seat.old.me }
        requires live { 0 < seat.old.me.0.parts }
        requires known { IsKnown seat.old.me.0.known }
        requires client { client < length seat.old.me.0.known.front.system.clients }
        ensures own { seat.new.table_id ≡ seat.old.table_id }
        ensures idle { IsIdle seat.new.me }
        ensures parts { seat.new.me.0.parts ≡ seat.old.me.0.parts }
        ensures lends { Lends berth.now client seat.old.me.0.known seat.new.me.0.known result }
        ensures known { IsKnown seat.new.me.0.known }
    {
        let spare = self.spare();
        let own = mem::replace(seat, spare);
        let back = lodge(rt, berth, Loan { seat: own, client }, rest);
        let (home, end) = come_home(back);
        *seat = home;
        end
    }
}

/// The seat that comes back, and what came of it.
fn come_home(back: Back) -> (Seat, LoanEnd)
    ensures home { (berth : Berth) (loan : Loan) → MayVisit loan → IsBackOf berth loan back
        → IsHome berth loan result.0 result.1 }
{
    match back {
        Back::Repaid(repaid) => (repaid.seat, end_of(repaid.made)),
        Back::Unused(loan, kept) => (loan.seat, LoanEnd::Kept(kept)),
    }
}

/// What came of a section that was tried.
fn end_of(made: Result<Receipt, NotReady>) -> LoanEnd
    ensures { result ≡ end_of made }
{
    match made {
        Ok(receipt) => LoanEnd::Made(receipt),
        Err(fault) => LoanEnd::Rested(fault),
    }
}

/// Leaves a seat in the berth, rests, and has it back.
fn lodge<R: Wait, N: Rest>(rt: &R, berth: &Berth, loan: Loan, rest: &N) -> Back
    requires loan { IsLoan (about_of berth.now.cell) loan }
    ensures back { IsBackOf berth.now loan result }
{
    match berth.cell.post(loan) {
        Ok(claim) => {
            rest.rest(rt);
            have_back(rt, berth, claim)
        }
        Err((back, busy)) => {
            rest.rest(rt);
            Back::Unused(back, Kept::Busy(busy))
        }
    }
}

/// Has a seat back from the berth: with what came of its section, or unused where nobody took it.
fn have_back<R: Wait>(rt: &R, berth: &Berth, claim: Claim) -> Back
    requires claim { (loan : Loan) × IsMailOf berth.now.cell claim loan }
    ensures back { (loan : Loan) → IsMailOf berth.now.cell claim loan
        → IsBackOf berth.now loan result }
{
    let mut kept = claim;
    for _ in rt.forever() {
        kept = match ask_back(berth, kept) {
            Ok(back) => return back,
            Err(claim) => claim,
        };
        berth.cell.rest(rt, Duration::from_micros(NAP));
    }
    unreachable!()
}

/// Has a seat back, unless someone is using it.
fn ask_back(berth: &Berth, claim: Claim) -> Result<Back, Claim>
    requires claim { (loan : Loan) × IsMailOf berth.now.cell claim loan }
    ensures asked { (loan : Loan) → IsMailOf berth.now.cell claim loan
        → MatchResult result
        (λ back. IsBackOf berth.now loan back)
        (λ still. IsMailOf berth.now.cell still loan) }
{
    let kept = match berth.cell.collect(claim) {
        Ok((repaid, _free)) => return Ok(Back::Repaid(repaid)),
        Err(kept) => kept,
    };
    match berth.cell.withdraw(kept) {
        Ok((loan, free)) => Ok(Back::Unused(loan, Kept::Back(free))),
        Err(still) => Err(still),
    }
}
