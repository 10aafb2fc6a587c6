//! A monitor that threads share.

ghost use Rattle.std.specs.Prelude.{◌≡◌, ◌+◌, ◌<◌, ◌≤◌, ◌↔◌, ℕ, IsTrue, IfOk, MatchResult, length};
ghost use Rattle.std.specs.Prelude.{[], vec_capacity, vec_len};
ghost use Rattle.std.specs.List.{All};
ghost use Rattle.machine_events.specs.Logs.{IsClosed};
ghost use Rattle.machine_explicit.specs.Sections.{FreeMachine, HasEnded, HoldsAlways};
ghost use Rattle.threads_lock.specs.Growth.{Follows};
ghost use Rattle.threads_lock.specs.Passes.{IsKnown, Looks, SectionsShared, newly_known, observed};
ghost use Rattle.threads_desk.specs.declared.rule.TheConstants.{ASKED};
ghost use Rattle.threads_desk.specs.Letters.{IsMissOf};
ghost use Rattle.threads_lock.specs.Loans.{IsServed, Lends, lock_of};
ghost use Rattle.threads_lock.specs.Standings.{StandsAs};
ghost use Rattle.threads_lock.specs.Closing.{AreInOrder, Covers, HaveOneEach, receipts_of};
ghost use Rattle.threads_lock.specs.inner.Queueing.{IsIdle};

use super::loan::{Berth, LoanEnd, Repayment, Rest, Vacancy};
use super::lock::Lock;
use super::pass::Pass;
use super::receipt::Receipt;
use super::rule::Seat;
use super::standing::Standing;
use machine_explicit::{FreeMonitor, NotReady};
use std::alloc::{AllocError, Global};
use std::marker::Model;
use std::sync::Wait;

/// A monitor that threads share, each with a pass of its own. Sections are made one at a time, in
/// the order of their tickets. Dropped, it drops the monitor; closed, with all passes, it gives it
/// back.
#[derive(Drop)]
pub struct SharedMonitor {
    lock: Lock,
}

impl Model for SharedMonitor {
    ghost use Rattle.std.specs.Coded.{codes};
    ghost use Rattle.logic_linear.specs.contracts.formula.Formula as formula;
    ghost use Rattle.lang_monitor.specs.contracts.monitor.Stmt as statement;
    ghost use Rattle.threads_lock.specs.Passes.{SharedView};

    ghost Value = { SharedView };

    ghost coded = { Prim.hlevel (codes, formula.the_row.coded, statement.the_row.coded) };

    ghost view = { λ m. record {
      lock = m.lock.board.shared.table_id;
      start = m.lock.board.shared.key.start.value;
      passes = m.lock.board.shared.key.passes;
    } };
}

impl SharedMonitor {
    /// Shares a monitor among so many passes, at least one. It takes all memory that the lock will
    /// need, and fails only for want of memory; the monitor is dropped then.
    pub fn open(
        alloc: Global,
        free: FreeMonitor,
        passes: u32,
    ) -> Result<(SharedMonitor, Vec<Pass>), AllocError>
        requires some { 0 < passes }
        ensures monitor { IfOk result (λ made. (made.0.start ≡ free) × (made.0.passes ≡ passes)) }
        ensures passes { IfOk result (λ made. vec_len made.1 ≡ passes) }
        ensures lock { IfOk result (λ made. All (λ pass. pass.lock ≡ made.0.lock) made.1.items) }
        ensures known { IfOk result (λ made.
            All (λ pass. pass.known ≡ newly_known free) made.1.items) }
        ensures always { IfOk result (λ made. HoldsAlways free) }
    {
        let seen = free.log().len() as u64;
        let mut list = Vec::with_capacity(alloc, passes as usize)?;
        let (lock, whole) = Lock::open(alloc, free, passes)?;
        deal(&lock, whole, passes, seen, &mut list);
        Ok((SharedMonitor { lock }, list))
    }

    /// Makes a section of a client, when the ticket that it draws is served. `NotReady` comes
    /// exactly where, in the monitor as it is then, the client waits or has no call left. It takes
    /// no memory.
    pub fn section<R: Wait>(
        &self,
        rt: &R,
        pass: &mut Pass,
        client: u32,
    ) -> Result<Receipt, NotReady>
        requires own { pass.old.lock ≡ self.now.lock }
        requires client { client < length pass.old.known.front.system.clients }
        ensures own { pass.new.lock ≡ pass.old.lock }
        ensures section { SectionsShared client pass.old.known pass.new.known result }
        ensures seen { MatchResult result (λ told. pass.new.known.seen ≡ told.place + 1)
            (λ fault. pass.new.known.seen ≡ fault.entries) }
        ensures always { IsKnown pass.new.known }
    {
        match self.lock.visit(rt, &mut pass.seat, client) {
            Ok(receipt) => {
                pass.seen = receipt.place + 1;
                Ok(receipt)
            }
            Err(fault) => {
                pass.seen = fault.entries;
                Err(fault)
            }
        }
    }

    /// Whether the monitor is closed, when the ticket that this call draws is served: whether then
    /// each client waits, or is idle with no call left. It takes no memory.
    pub fn is_closed<R: Wait>(&self, rt: &R, pass: &mut Pass) -> bool
        requires own { pass.old.lock ≡ self.now.lock }
        ensures own { pass.new.lock ≡ pass.old.lock }
        ensures looks { Looks pass.old.known pass.new.known }
        ensures closed { IsTrue result
            ↔ IsClosed pass.new.known.front.system pass.new.known.front.now }
        ensures ends { IsTrue result → HasEnded pass.new.known.front }
        ensures always { IsKnown pass.new.known }
    {
        let look = self.lock.look(rt, &mut pass.seat);
        pass.seen = look.entries;
        look.closed
    }

    /// How a client stands, when the ticket that this call draws is served. It takes no memory.
    pub fn standing<R: Wait>(&self, rt: &R, pass: &mut Pass, client: u32) -> Standing
        requires own { pass.old.lock ≡ self.now.lock }
        requires client { client < length pass.old.known.front.system.clients }
        ensures own { pass.new.lock ≡ pass.old.lock }
        ensures looks { Looks pass.old.known pass.new.known }
        ensures standing { StandsAs pass.new.known.front client result }
        ensures always { IsKnown pass.new.known }
    {
        let found = self.lock.stand(rt, &mut pass.seat, client);
        pass.seen = found.entries;
        found.standing
    }

    /// How long the log was at a moment of this call. It never waits, whoever has the lock, and
    /// takes no memory.
    pub fn observe(&self, pass: &mut Pass) -> u64
        requires own { pass.old.lock ≡ self.now.lock }
        ensures own { pass.new.lock ≡ pass.old.lock }
        ensures known { pass.new.known ≡ observed pass.old.known result }
        ensures seen { pass.old.known.seen ≤ result }
        ensures always { IsKnown pass.new.known }
    {
        let count = self.lock.observe(&mut pass.seat);
        pass.seen = count;
        count
    }

    /// A place for passes that are lent. It fails only for want of memory.
    pub fn berth(&self, alloc: Global) -> Result<Berth, AllocError>
        ensures lock { IfOk result (λ berth. lock_of berth ≡ self.now.lock) }
    {
        self.lock.berth(alloc)
    }

    /// Lends the pass by the berth while its caller rests, to whoever makes a section of the client
    /// for it meanwhile: what came of that; or that nobody did, and why. It takes no memory.
    pub fn lend<R: Wait, N: Rest>(
        &self,
        rt: &R,
        pass: &mut Pass,
        client: u32,
        berth: &Berth,
        rest: &N,
    ) -> LoanEnd
        requires own { pass.old.lock ≡ self.now.lock }
        requires berth { lock_of berth.now ≡ self.now.lock }
        requires client { client < length pass.old.known.front.system.clients }
        ensures own { pass.new.lock ≡ pass.old.lock }
        ensures lends { Lends berth.now client pass.old.known pass.new.known result }
        ensures always { IsKnown pass.new.known }
    {
        match self.lock.lend_idle(rt, &mut pass.seat, client, berth, rest) {
            LoanEnd::Made(receipt) => {
                pass.seen = receipt.place + 1;
                LoanEnd::Made(receipt)
            }
            LoanEnd::Rested(rested) => {
                pass.seen = rested.entries;
                LoanEnd::Rested(rested)
            }
            LoanEnd::Kept(kept) => LoanEnd::Kept(kept),
        }
    }

    /// Makes a section with the pass that lies in the berth, of the client for which it was lent;
    /// its caller is told what came of it, as is whoever calls this. `Err` comes where none lies
    /// there. It takes no memory.
    pub fn section_for<R: Wait>(
        &self,
        rt: &R,
        berth: &Berth,
    ) -> Result<(Result<Receipt, NotReady>, Repayment), Vacancy>
        requires berth { lock_of berth.now ≡ self.now.lock }
        ensures served { MatchResult result
            (λ had. IsServed berth.now had.0 had.1)
            (λ none. IsMissOf berth.now.cell ASKED none) }
    {
        self.lock.section_for(rt, berth)
    }

    /// The monitor, once all passes are back. Its log begins with all that the passes knew, has
    /// each receipt's entry at its place, and no spurious entry more than at the start; no two
    /// receipts are of one place, and the places are in the order of the tickets. Where a pass knew
    /// a closed monitor, it is that one. It takes no memory.
    pub fn close(self, mut passes: Vec<Pass>) -> FreeMonitor
        requires all { vec_len passes ≡ self.passes }
        requires own { All (λ pass. pass.lock ≡ self.lock) passes.items }
        ensures follows { Follows self.start result }
        ensures covers { All (λ pass. Covers result pass.known) passes.items }
        ensures once { HaveOneEach (length self.start.log) result.log (receipts_of passes.items) }
        ensures order { AreInOrder (receipts_of passes.items) }
        ensures always { HoldsAlways result }
    {
        let whole = passes.pop().unwrap();
        let mut seat = whole.into_seat();
        let SharedMonitor { lock } = self;
        lock.gather(&mut seat, passes);
        lock.close(seat)
    }
}

/// Cuts a seat that has all parts into passes of one part each.
fn deal(lock: &Lock, mut whole: Seat, passes: u32, seen: u64, list: &mut Vec<Pass>)
    requires some { 0 < passes }
    requires own { whole.table_id ≡ lock.now.board.shared.table_id }
    requires idle { IsIdle whole.me }
    requires parts { whole.me.0.parts ≡ passes }
    requires seen { seen ≡ whole.me.0.known.seen }
    requires new { whole.me.0.known ≡ newly_known whole.me.0.known.front }
    requires known { IsKnown whole.me.0.known }
    requires room { (list.old.items ≡ []) × (passes ≤ vec_capacity list.old) }
    ensures len { vec_len list.new ≡ passes }
    ensures lock { All (λ pass. pass.lock ≡ whole.table_id) list.new.items }
    ensures known { All (λ pass. pass.known ≡ whole.me.0.known) list.new.items }
{
    for number in 1..passes {
        let seat = lock.cut(&mut whole);
        list.push_reserved(Pass::new(seat, seen));
    }
    list.push_reserved(Pass::new(whole, seen));
}
