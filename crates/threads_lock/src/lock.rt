//! The lock: a queue by tickets, a slot for the monitor, and the log's length.

ghost use Rattle.std.specs.Prelude.{◌≡◌, ◌==◌, ◌<◌, ◌≤◌, ◌%◌, ◌^◌, ◌∷◌, [], ◌↔◌, ℕ, IsTrue};
ghost use Rattle.std.specs.Prelude.{MatchResult, length};
ghost use Rattle.machine_events.specs.Logs.{IsClosed};
ghost use Rattle.machine_explicit.specs.Sections.{FreeMachine, HasEnded, HoldsAlways};
ghost use Rattle.machine_explicit.specs.Sections.{MadeSection};
ghost use Rattle.threads_lock.specs.declared.view.SeatState.TheVariants.{Idle, Waiting, Holding};
ghost use Rattle.threads_lock.specs.Passes.{IsKnown, Looks, SectionsShared, observed};
ghost use Rattle.threads_lock.specs.Standings.{StandsAs};
ghost use Rattle.threads_lock.specs.inner.Queueing.{IsIdle, one_less, one_part, together, view};
ghost use Rattle.threads_lock.specs.inner.Steps.{told};
ghost use Rattle.threads_lock.specs.inner.Turns.{HasMonitor, IsHolding, IsMade, IsNotMade};
ghost use Rattle.threads_lock.specs.inner.Turns.{IsWaiting, MakesShared, TurnComes, TurnGives};
ghost use Rattle.threads_lock.specs.inner.Turns.{TurnIsHere};

use super::bell::Bells;
use super::found::{Look, Stand, look_of, stand_of};
use super::lent::Letters;
use super::patience::{NEAR, Patience};
use super::receipt::Receipt;
use super::rule::{
    Board, COUNT, Call, Draw, MACHINE, NEXT, Observe, OnePart, Publish, Release, SERVING, Seat,
};
use machine_explicit::{NotReady, Section};
use std::sync::Wait;

/// The words, the slot and the rule that they keep; and the bells, which tell nothing and only save
/// a wait its processor.
#[derive(Drop)]
pub struct Lock {
    pub board: Board,
    pub bells: Bells,
    pub letters: Letters,
    ghost letters_are: { letters.about.value.table_id ≡ board.shared.table_id },
    ghost words: { board.shared.table_id.words ≡ 3 },
    ghost slots: { board.shared.table_id.slots ≡ 1 },
    ghost some_pass: { 0 < board.shared.key.passes },
}

impl Lock {
    /// Draws a ticket.
    pub fn draw(&self, seat: &mut Seat) -> u64
        requires own { seat.old.table_id ≡ self.now.board.shared.table_id }
        requires idle { IsIdle seat.old.me }
        requires live { 0 < seat.old.me.0.parts }
        ensures own { seat.new.table_id ≡ seat.old.table_id }
        ensures waits { IsWaiting result seat.old.me seat.new.me }
    {
        self.board.shared.fetch_add::<Draw>(seat, NEXT, 1)
    }

    /// How many tickets are to be served before this one. At 0 the seat has the turn, and the
    /// monitor; else nothing changes.
    pub fn call(&self, seat: &mut Seat, ticket: u64) -> u64
        requires own { seat.old.table_id ≡ self.now.board.shared.table_id }
        requires waits { (t : ℕ) × (ticket ≡ t % 2 ^ 64) × (seat.old.me.0.state ≡ Waiting t) }
        requires live { 0 < seat.old.me.0.parts }
        ensures own { seat.new.table_id ≡ seat.old.table_id }
        ensures turn { TurnComes ticket seat.old.me seat.new.me (result == 0) }
    {
        ticket.wrapping_sub(self.board.shared.load::<Call>(seat, SERVING))
    }

    /// Sleeps until the ticket's bell is rung, unless the ticket is served: then the seat has the
    /// turn, and the monitor.
    fn sleep<R: Wait>(&self, rt: &R, seat: &mut Seat, ticket: u64) -> bool
        requires own { seat.old.table_id ≡ self.now.board.shared.table_id }
        requires waits { (t : ℕ) × (ticket ≡ t % 2 ^ 64) × (seat.old.me.0.state ≡ Waiting t) }
        requires live { 0 < seat.old.me.0.parts }
        ensures own { seat.new.table_id ≡ seat.old.table_id }
        ensures turn { TurnComes ticket seat.old.me seat.new.me result }
    {
        let bell = self.bells.of(ticket);
        let rung = bell.enter();
        let comes = self.call(seat, ticket) == 0;
        if !comes {
            bell.sleep(rt, rung);
        }
        bell.leave();
        comes
    }

    /// Waits until the ticket is served. It spins as long as its turn may come soon, and else
    /// sleeps between looks.
    pub fn wait<R: Wait>(&self, rt: &R, seat: &mut Seat, ticket: u64)
        requires own { seat.old.table_id ≡ self.now.board.shared.table_id }
        requires waits { (t : ℕ) × (ticket ≡ t % 2 ^ 64) × (seat.old.me.0.state ≡ Waiting t) }
        requires live { 0 < seat.old.me.0.parts }
        ensures own { seat.new.table_id ≡ seat.old.table_id }
        ensures turn { TurnIsHere ticket seat.old.me seat.new.me }
    {
        let mut patience = Patience::new();
        for _ in rt.forever() {
            let distance = self.call(seat, ticket);
            if distance == 0 {
                return;
            }
            if !patience.spins(distance) && self.sleep(rt, seat, ticket) {
                return;
            }
        }
        unreachable!()
    }

    /// Makes a section on the monitor that the seat has.
    fn step(&self, seat: &mut Seat, client: u32) -> Result<Section, NotReady>
        requires own { seat.old.table_id ≡ self.now.board.shared.table_id }
        requires turn { HasMonitor seat.old.me }
        requires client { client < length seat.old.me.0.known.front.system.clients }
        ensures own { seat.new.table_id ≡ seat.old.table_id }
        ensures made { MatchResult result
            (λ section. IsMade client seat.old.me seat.new.me section)
            (λ fault. IsNotMade client seat.old.me seat.new.me fault) }
    {
        seat.slot_mut(&self.board.shared, MACHINE).section(client)
    }

    /// Tells how long the log is after a section.
    fn publish(&self, seat: &mut Seat, section: Section)
        requires own { seat.old.table_id ≡ self.now.board.shared.table_id }
        requires turn { (t : ℕ) × (seat.old.me.0.state ≡ Holding t) }
        requires made { (y : FreeMachine) × (seat.old.me.1 ≡ (0, y) ∷ []) × HoldsAlways y
            × MadeSection section.entry.client seat.old.me.0.known.front y section }
        ensures own { seat.new.table_id ≡ seat.old.table_id }
        ensures told { (t : ℕ) (y : FreeMachine) → seat.old.me.0.state ≡ Holding t
            → seat.old.me.1 ≡ (0, y) ∷ []
            → seat.new.me ≡ (told t seat.old.me.0 y section.entry, (0, y) ∷ []) }
    {
        self.board
            .shared
            .store::<Publish>(seat, COUNT, section.place + 1);
    }

    /// Makes a section on the monitor that the seat has, and counts it.
    pub fn make(&self, seat: &mut Seat, client: u32, ticket: u64) -> Result<Receipt, NotReady>
        requires own { seat.old.table_id ≡ self.now.board.shared.table_id }
        requires turn { IsHolding ticket seat.old.me }
        requires known { IsKnown seat.old.me.0.known }
        requires client { client < length seat.old.me.0.known.front.system.clients }
        ensures own { seat.new.table_id ≡ seat.old.table_id }
        ensures turn { HasMonitor seat.new.me }
        ensures parts { seat.new.me.0.parts ≡ seat.old.me.0.parts }
        ensures made { MakesShared client seat.old.me.0.known seat.new.me.0.known result }
        ensures known { IsKnown seat.new.me.0.known }
    {
        match self.step(seat, client) {
            Ok(section) => {
                self.publish(seat, section);
                Ok(Receipt {
                    place: section.place,
                    entry: section.entry,
                    ticket,
                })
            }
            Err(fault) => Err(fault),
        }
    }

    /// Gives the monitor back, and serves the next ticket. Whether that is drawn; then its bell is
    /// rung, and that of the ticket which comes near.
    pub fn unlock(&self, seat: &mut Seat) -> bool
        requires own { seat.old.table_id ≡ self.now.board.shared.table_id }
        requires turn { HasMonitor seat.old.me }
        ensures own { seat.new.table_id ≡ seat.old.table_id }
        ensures idle { IsIdle seat.new.me }
        ensures parts { seat.new.me.0.parts ≡ seat.old.me.0.parts }
        ensures known { seat.new.me.0.known ≡ seat.old.me.0.known }
    {
        let served = self.board.shared.fetch_add::<Release>(seat, SERVING, 1);
        self.tell(served.wrapping_add(1))
    }

    /// Rings the bell of a ticket that is served now, and that of the ticket which comes near: so
    /// who has it is awake when it is served. Where the ticket is not drawn nobody waits: who draws
    /// it later finds it served. Whether it is drawn.
    fn tell(&self, ticket: u64) -> bool {
        if self.board.shared.peek(NEXT) == ticket {
            return false;
        }
        self.bells.ring(ticket);
        self.bells.ring(ticket.wrapping_add(NEAR));
        true
    }

    /// Draws a ticket, and has the turn where that is served at once; else it waits.
    fn come(&self, seat: &mut Seat) -> Result<u64, u64>
        requires own { seat.old.table_id ≡ self.now.board.shared.table_id }
        requires idle { IsIdle seat.old.me }
        requires live { 0 < seat.old.me.0.parts }
        requires known { IsKnown seat.old.me.0.known }
        ensures own { seat.new.table_id ≡ seat.old.table_id }
        ensures comes { MatchResult result
            (λ ticket. TurnGives ticket seat.old.me seat.new.me)
            (λ ticket. IsWaiting ticket seat.old.me seat.new.me) }
    {
        let ticket = self.draw(seat);
        let distance = self.call(seat, ticket);
        if distance != 0 {
            return Err(ticket);
        }
        Ok(ticket)
    }

    /// A section, from no ticket to no ticket.
    pub fn visit<R: Wait>(&self, rt: &R, seat: &mut Seat, client: u32) -> Result<Receipt, NotReady>
        requires own { seat.old.table_id ≡ self.now.board.shared.table_id }
        requires idle { IsIdle seat.old.me }
        requires live { 0 < seat.old.me.0.parts }
        requires known { IsKnown seat.old.me.0.known }
        requires client { client < length seat.old.me.0.known.front.system.clients }
        ensures own { seat.new.table_id ≡ seat.old.table_id }
        ensures idle { IsIdle seat.new.me }
        ensures parts { seat.new.me.0.parts ≡ seat.old.me.0.parts }
        ensures made { SectionsShared client seat.old.me.0.known seat.new.me.0.known result }
        ensures known { IsKnown seat.new.me.0.known }
    {
        match self.come(seat) {
            Ok(ticket) => {
                let result = self.make(seat, client, ticket);
                self.pass_on(seat, ticket);
                result
            }
            Err(ticket) => self.visit_late(rt, seat, client, ticket),
        }
    }

    /// A look at the monitor that the seat has.
    pub fn look_now(&self, seat: &mut Seat) -> Look
        requires own { seat.old.table_id ≡ self.now.board.shared.table_id }
        requires turn { HasMonitor seat.old.me }
        ensures own { seat.new.table_id ≡ seat.old.table_id }
        ensures same { seat.new.me ≡ seat.old.me }
        ensures closed { IsTrue result.closed
            ↔ IsClosed seat.old.me.0.known.front.system seat.old.me.0.known.front.now }
        ensures ends { IsTrue result.closed → HasEnded seat.old.me.0.known.front }
        ensures entries { result.entries ≡ length seat.old.me.0.known.front.log }
    {
        look_of(seat.slot_mut(&self.board.shared, MACHINE))
    }

    /// A look at how a client stands in the monitor that the seat has.
    pub fn stand_now(&self, seat: &mut Seat, client: u32) -> Stand
        requires own { seat.old.table_id ≡ self.now.board.shared.table_id }
        requires turn { HasMonitor seat.old.me }
        requires client { client < length seat.old.me.0.known.front.system.clients }
        ensures own { seat.new.table_id ≡ seat.old.table_id }
        ensures same { seat.new.me ≡ seat.old.me }
        ensures standing { StandsAs seat.old.me.0.known.front client result.standing }
        ensures entries { result.entries ≡ length seat.old.me.0.known.front.log }
    {
        stand_of(seat.slot_mut(&self.board.shared, MACHINE), client)
    }

    /// A look, from no ticket to no ticket.
    pub fn look<R: Wait>(&self, rt: &R, seat: &mut Seat) -> Look
        requires own { seat.old.table_id ≡ self.now.board.shared.table_id }
        requires idle { IsIdle seat.old.me }
        requires live { 0 < seat.old.me.0.parts }
        requires known { IsKnown seat.old.me.0.known }
        ensures own { seat.new.table_id ≡ seat.old.table_id }
        ensures idle { IsIdle seat.new.me }
        ensures parts { seat.new.me.0.parts ≡ seat.old.me.0.parts }
        ensures looks { Looks seat.old.me.0.known seat.new.me.0.known }
        ensures closed { IsTrue result.closed
            ↔ IsClosed seat.new.me.0.known.front.system seat.new.me.0.known.front.now }
        ensures ends { IsTrue result.closed → HasEnded seat.new.me.0.known.front }
        ensures entries { result.entries ≡ seat.new.me.0.known.seen }
        ensures known { IsKnown seat.new.me.0.known }
    {
        match self.come(seat) {
            Ok(ticket) => {
                let look = self.look_now(seat);
                self.pass_on(seat, ticket);
                look
            }
            Err(ticket) => self.look_late(rt, seat, ticket),
        }
    }

    /// A look at how a client stands, from no ticket to no ticket.
    pub fn stand<R: Wait>(&self, rt: &R, seat: &mut Seat, client: u32) -> Stand
        requires own { seat.old.table_id ≡ self.now.board.shared.table_id }
        requires idle { IsIdle seat.old.me }
        requires live { 0 < seat.old.me.0.parts }
        requires known { IsKnown seat.old.me.0.known }
        requires client { client < length seat.old.me.0.known.front.system.clients }
        ensures own { seat.new.table_id ≡ seat.old.table_id }
        ensures idle { IsIdle seat.new.me }
        ensures parts { seat.new.me.0.parts ≡ seat.old.me.0.parts }
        ensures looks { Looks seat.old.me.0.known seat.new.me.0.known }
        ensures standing { StandsAs seat.new.me.0.known.front client result.standing }
        ensures entries { result.entries ≡ seat.new.me.0.known.seen }
        ensures known { IsKnown seat.new.me.0.known }
    {
        match self.come(seat) {
            Ok(ticket) => {
                let stand = self.stand_now(seat, client);
                self.pass_on(seat, ticket);
                stand
            }
            Err(ticket) => self.stand_late(rt, seat, client, ticket),
        }
    }

    /// How long the log is, with no wait.
    pub fn observe(&self, seat: &mut Seat) -> u64
        requires own { seat.old.table_id ≡ self.now.board.shared.table_id }
        requires idle { IsIdle seat.old.me }
        requires live { 0 < seat.old.me.0.parts }
        ensures own { seat.new.table_id ≡ seat.old.table_id }
        ensures now { seat.new.me
            ≡ (view Idle seat.old.me.0.parts (observed seat.old.me.0.known result), []) }
        ensures seen { seat.old.me.0.known.seen ≤ result }
    {
        self.board.shared.load::<Observe>(seat, COUNT)
    }

    /// A new seat has one part of this one's.
    pub fn cut(&self, seat: &mut Seat) -> Seat
        requires own { seat.old.table_id ≡ self.now.board.shared.table_id }
        requires idle { IsIdle seat.old.me }
        requires two { 1 < seat.old.me.0.parts }
        ensures own { seat.new.table_id ≡ seat.old.table_id }
        ensures left { seat.new.me ≡ (one_less seat.old.me.0, []) }
        ensures its { result.table_id ≡ seat.old.table_id }
        ensures given { result.me ≡ (one_part seat.old.me.0, []) }
    {
        self.board.shared.split_seat::<OnePart>(seat)
    }

    /// A seat takes in another, with its parts and what it knows.
    pub fn take_in(&self, seat: &mut Seat, other: Seat)
        requires own { seat.old.table_id ≡ self.now.board.shared.table_id }
        requires its { other.table_id ≡ self.now.board.shared.table_id }
        requires idle { IsIdle seat.old.me × IsIdle other.me }
        requires live { (0 < seat.old.me.0.parts) × (0 < other.me.0.parts) }
        ensures own { seat.new.table_id ≡ seat.old.table_id }
        ensures taken { seat.new.me ≡ (together seat.old.me.0 other.me.0, []) }
    {
        self.board.shared.join_seat::<OnePart>(seat, other);
    }
}
