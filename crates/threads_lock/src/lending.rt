//! How what those who wait wish for is done by whoever has the monitor.
//!
//! A waiting seat is lent by a letter in the cell of its ticket, for a section or for a look.
//! Whoever has had its own wish goes through the letters that it finds for the next tickets, and
//! does what each wishes with the seat that waits for it: so wishes are still had in the order of
//! tickets, and each seat knows its own. A letter that lies there for another ticket comes back
//! with nothing done. No wake-up rests on letters: who lent its seat looks again after a while.

ghost use Rattle.std.specs.Prelude.{◌≡◌, ◌<◌, MatchResult};
ghost use Rattle.threads_desk.specs.Letters.{IsMailOf, IsTaskOf, about_of};
ghost use Rattle.threads_lock.specs.declared.lent.Lent.{Lent};
ghost use Rattle.threads_lock.specs.declared.lent.Wish.TheVariants.{Section, Standing, Closed};
ghost use Rattle.threads_lock.specs.declared.view.Knowledge.{Knowledge};
ghost use Rattle.threads_lock.specs.Passes.{IsKnown, Looks};
ghost use Rattle.threads_lock.specs.inner.Lending.{ComesBack, IsAnswerTo, IsLent, IsMadeFor};
ghost use Rattle.threads_lock.specs.inner.Lending.{IsReturned, MayLend, MayWish};
ghost use Rattle.threads_lock.specs.inner.Lending.{closed, section, standing};
ghost use Rattle.threads_lock.specs.inner.Queueing.{IsIdle};
ghost use Rattle.threads_lock.specs.inner.Turns.{HasMonitor, IsHolding};

use super::found::{Look, Stand};
use super::lent::{Answer, Debt, Lent, Letter, Place, Returned, Wish};
use super::lock::Lock;
use super::receipt::Receipt;
use super::rule::{SERVING, Seat, Spare};
use machine_explicit::NotReady;
use std::sync::Wait;
use std::time::Duration;
use std::{hint, mem};

/// How many letters whoever had the monitor answers, before it goes on with its own affairs.
const MOST_ANSWERED: u64 = 256;

/// How many pauses a seat makes that is lent, before it sleeps.
const PAUSES: u64 = 4;

/// How long it sleeps at a time, in microseconds.
const NAP: u64 = 100;

impl Lock {
    /// Does what is wished with the monitor that the seat has.
    fn grant(&self, seat: &mut Seat, wish: Wish, ticket: u64) -> Answer
        requires own { seat.old.table_id ≡ self.now.board.shared.table_id }
        requires turn { IsHolding ticket seat.old.me }
        requires known { IsKnown seat.old.me.0.known }
        requires client { MayWish wish seat.old.me.0.known.front.system }
        ensures own { seat.new.table_id ≡ seat.old.table_id }
        ensures turn { HasMonitor seat.new.me }
        ensures parts { seat.new.me.0.parts ≡ seat.old.me.0.parts }
        ensures told { (before : Knowledge) → Looks before seat.old.me.0.known
            → IsAnswerTo wish before seat.new.me.0.known result }
        ensures known { IsKnown seat.new.me.0.known }
    {
        match wish {
            Wish::Section(client) => Answer::Section(self.make(seat, client, ticket)),
            Wish::Standing(client) => Answer::Standing(self.stand_now(seat, client)),
            Wish::Closed => Answer::Closed(self.look_now(seat)),
        }
    }

    /// Does what is wished with the monitor that the seat has, and then it has no ticket.
    fn finish(&self, seat: &mut Seat, wish: Wish, ticket: u64) -> Answer
        requires own { seat.old.table_id ≡ self.now.board.shared.table_id }
        requires turn { IsHolding ticket seat.old.me }
        requires known { IsKnown seat.old.me.0.known }
        requires client { MayWish wish seat.old.me.0.known.front.system }
        ensures own { seat.new.table_id ≡ seat.old.table_id }
        ensures idle { IsIdle seat.new.me }
        ensures parts { seat.new.me.0.parts ≡ seat.old.me.0.parts }
        ensures told { (before : Knowledge) → Looks before seat.old.me.0.known
            → IsAnswerTo wish before seat.new.me.0.known result }
        ensures known { IsKnown seat.new.me.0.known }
    {
        let answer = self.grant(seat, wish, ticket);
        self.unlock(seat);
        answer
    }

    /// Does what a seat that waits wishes, if its ticket is served.
    fn try_for(&self, seat: &mut Seat, wish: Wish, ticket: u64) -> Option<Answer>
        requires own { seat.old.table_id ≡ self.now.board.shared.table_id }
        requires lent { MayLend wish ticket seat.old.me }
        ensures own { seat.new.table_id ≡ seat.old.table_id }
        ensures comes { ComesBack wish seat.old.me seat.new.me result }
    {
        let distance = self.call(seat, ticket);
        if distance != 0 {
            return None;
        }
        Some(self.finish(seat, wish, ticket))
    }

    /// Does what a seat wishes that is lent, if its ticket is served.
    fn make_for(&self, lent: Lent) -> Returned
        requires lent { IsLent self.now.letters.about.value lent }
        ensures returned { IsReturned self.now.letters.about.value lent result }
    {
        let Lent {
            mut seat,
            wish,
            ticket,
        } = lent;
        let answer = self.try_for(&mut seat, wish, ticket);
        Returned { seat, answer }
    }

    /// Does what the letter wishes that is posted in the cell of this ticket, if there is one and
    /// the ticket of the letter is served; and says whether it did.
    fn answer(&self, ticket: u64) -> bool {
        let cell = self.letters.cell(ticket);
        match cell.take() {
            Ok((lent, debt)) => self.reply(cell, lent, debt),
            Err(_none) => false,
        }
    }

    /// Gives a seat back, with what it wished if its ticket is served; and says whether it is.
    fn reply(&self, cell: &Place, lent: Lent, debt: Debt) -> bool
        requires about { about_of cell.now ≡ self.now.letters.about.value }
        requires lent { IsLent (about_of cell.now) lent }
        requires debt { IsTaskOf cell.now debt lent }
    {
        let returned = self.make_for(lent);
        let made = returned.answer.is_some();
        let _done = cell.answer(debt, returned);
        made
    }

    /// Answers the letters that are posted for the tickets from this one on, which is drawn. After
    /// many it wakes who is next instead.
    fn serve(&self, first: u64) {
        let mut ticket = first;
        for _ in 0..MOST_ANSWERED {
            if !self.answer(ticket) {
                return;
            }
            ticket = ticket.wrapping_add(1);
        }
        self.letters.cell(ticket).wake();
    }

    /// Gives the monitor back, which the seat has by this ticket, and answers the letters for the
    /// tickets after it.
    pub fn pass_on(&self, seat: &mut Seat, ticket: u64)
        requires own { seat.old.table_id ≡ self.now.board.shared.table_id }
        requires turn { HasMonitor seat.old.me }
        ensures own { seat.new.table_id ≡ seat.old.table_id }
        ensures idle { IsIdle seat.new.me }
        ensures parts { seat.new.me.0.parts ≡ seat.old.me.0.parts }
        ensures known { seat.new.me.0.known ≡ seat.old.me.0.known }
    {
        if self.unlock(seat) {
            self.serve(ticket.wrapping_add(1));
        }
    }

    /// Waits with the seat, does what it wishes, and then answers the letters for the tickets after
    /// it.
    fn hold_late<R: Wait>(&self, rt: &R, seat: &mut Seat, wish: Wish, ticket: u64) -> Answer
        requires own { seat.old.table_id ≡ self.now.board.shared.table_id }
        requires lent { MayLend wish ticket seat.old.me }
        ensures own { seat.new.table_id ≡ seat.old.table_id }
        ensures made { IsMadeFor wish seat.old.me seat.new.me result }
    {
        self.wait(rt, seat, ticket);
        let answer = self.grant(seat, wish, ticket);
        self.pass_on(seat, ticket);
        answer
    }

    /// A seat that stands for one that is lent.
    pub fn spare(&self) -> Seat
        ensures own { result.table_id ≡ self.now.board.shared.table_id }
    {
        let (_served, seat) = self.board.shared.load_new_seat::<Spare>(SERVING);
        seat
    }

    /// Looks for the answer to a letter, and takes the letter back where its ticket is served.
    fn look_in(&self, cell: &Place, letter: Letter, ticket: u64) -> Result<Returned, Letter>
        requires mail { (lent : Lent) × IsMailOf cell.now letter lent }
        ensures looked { (lent : Lent) → IsMailOf cell.now letter lent
            → MatchResult result
            (λ returned. IsReturned (about_of cell.now) lent returned)
            (λ back. IsMailOf cell.now back lent) }
    {
        let kept = match cell.collect(letter) {
            Ok((returned, _free)) => return Ok(returned),
            Err(kept) => kept,
        };
        if self.board.shared.peek(SERVING) != ticket {
            return Err(kept);
        }
        match cell.withdraw(kept) {
            Ok((lent, _free)) => Ok(lent.unused()),
            Err(back) => Err(back),
        }
    }

    /// Waits until the letter is answered. The seat comes back unused where its ticket is served
    /// before anybody takes it.
    fn stay<R: Wait>(&self, rt: &R, cell: &Place, letter: Letter, ticket: u64) -> Returned
        requires mail { (lent : Lent) × IsMailOf cell.now letter lent }
        ensures returned { (lent : Lent) → IsMailOf cell.now letter lent
            → IsReturned (about_of cell.now) lent result }
    {
        let mut mail = letter;
        let mut pauses = 0;
        for _ in rt.forever() {
            mail = match self.look_in(cell, mail, ticket) {
                Ok(returned) => return returned,
                Err(back) => back,
            };
            if pauses < PAUSES {
                pauses += 1;
                hint::spin_loop();
            } else {
                cell.rest(rt, Duration::from_micros(NAP));
            }
        }
        unreachable!()
    }

    /// Posts a letter with the seat, and waits until it is answered. The seat comes back unused
    /// where the cell is taken, or its ticket is served before anybody takes the letter.
    fn ask<R: Wait>(&self, rt: &R, lent: Lent) -> Returned
        requires lent { IsLent self.now.letters.about.value lent }
        ensures returned { IsReturned self.now.letters.about.value lent result }
    {
        let ticket = lent.ticket;
        let cell = self.letters.cell(ticket);
        match cell.post(lent) {
            Ok(mail) => self.stay(rt, cell, mail, ticket),
            Err((back, _busy)) => back.unused(),
        }
    }

    /// Lends a seat until its wish is done; or does it, where nobody else does.
    fn settle<R: Wait>(&self, rt: &R, lent: Lent) -> (Seat, Answer)
        requires lent { IsLent self.now.letters.about.value lent }
        ensures own { result.0.table_id ≡ lent.seat.table_id }
        ensures made { IsMadeFor lent.wish lent.seat.me result.0.me result.1 }
    {
        let wish = lent.wish;
        let ticket = lent.ticket;
        let Returned { mut seat, answer } = self.ask(rt, lent);
        match answer {
            Some(answer) => (seat, answer),
            None => {
                let answer = self.hold_late(rt, &mut seat, wish, ticket);
                (seat, answer)
            }
        }
    }

    /// Lends the seat for a wish until that is done; or does it, where nobody else does.
    fn lend<R: Wait>(&self, rt: &R, seat: &mut Seat, wish: Wish, ticket: u64) -> Answer
        requires own { seat.old.table_id ≡ self.now.board.shared.table_id }
        requires lent { MayLend wish ticket seat.old.me }
        ensures own { seat.new.table_id ≡ seat.old.table_id }
        ensures made { IsMadeFor wish seat.old.me seat.new.me result }
    {
        let spare = self.spare();
        let own = mem::replace(seat, spare);
        let lent = Lent {
            seat: own,
            wish,
            ticket,
        };
        let (back, answer) = self.settle(rt, lent);
        *seat = back;
        answer
    }

    /// A section of a seat that waits for this ticket.
    pub fn visit_late<R: Wait>(
        &self,
        rt: &R,
        seat: &mut Seat,
        client: u32,
        ticket: u64,
    ) -> Result<Receipt, NotReady>
        requires own { seat.old.table_id ≡ self.now.board.shared.table_id }
        requires lent { MayLend (Section client) ticket seat.old.me }
        ensures own { seat.new.table_id ≡ seat.old.table_id }
        ensures made { IsMadeFor (Section client) seat.old.me seat.new.me (section result) }
    {
        let Answer::Section(result) = self.lend(rt, seat, Wish::Section(client), ticket) else {
            unreachable!()
        };
        result
    }

    /// A look of a seat that waits for this ticket.
    pub fn look_late<R: Wait>(&self, rt: &R, seat: &mut Seat, ticket: u64) -> Look
        requires own { seat.old.table_id ≡ self.now.board.shared.table_id }
        requires lent { MayLend Closed ticket seat.old.me }
        ensures own { seat.new.table_id ≡ seat.old.table_id }
        ensures made { IsMadeFor Closed seat.old.me seat.new.me (closed result) }
    {
        let Answer::Closed(look) = self.lend(rt, seat, Wish::Closed, ticket) else {
            unreachable!()
        };
        look
    }

    /// A look at how a client stands of a seat that waits for this ticket.
    pub fn stand_late<R: Wait>(&self, rt: &R, seat: &mut Seat, client: u32, ticket: u64) -> Stand
        requires own { seat.old.table_id ≡ self.now.board.shared.table_id }
        requires lent { MayLend (Standing client) ticket seat.old.me }
        ensures own { seat.new.table_id ≡ seat.old.table_id }
        ensures made { IsMadeFor (Standing client) seat.old.me seat.new.me (standing result) }
    {
        let Answer::Standing(stand) = self.lend(rt, seat, Wish::Standing(client), ticket) else {
            unreachable!()
        };
        stand
    }
}
