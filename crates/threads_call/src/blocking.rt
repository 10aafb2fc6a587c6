//! A monitor whose clients' callers block.

ghost use Rattle.std.specs.Prelude.{◌≡◌, ◌<◌, IfOk, length, vec_len};
ghost use Rattle.std.specs.List.{All};
ghost use Rattle.machine_explicit.specs.Sections.{FreeMachine, HoldsAlways};
ghost use Rattle.threads_lock.specs.Closing.{AreInOrder, Covers, HaveOneEach, receipts_of};
ghost use Rattle.threads_lock.specs.Growth.{Follows};
ghost use Rattle.threads_lock.specs.Passes.{IsKnown, newly_known};
ghost use Rattle.threads_call.specs.Commits.{Commits, callers_of};

use super::attempt::attempt;
use super::commit_end::CommitEnd;
use super::lobby::{Lobby, open_berths};
use super::parkers::Parkers;
use machine_explicit::FreeMonitor;
use std::alloc::{AllocError, Global};
use std::marker::Model;
use std::sync::Wait;
use threads_lock::{Pass, SharedMonitor};

/// The right to call a monitor that threads share, for one thread at a time.
pub type Caller = Pass;

/// A monitor that threads share, whose callers block until their clients' blocks reply. Dropped, it
/// drops the monitor; closed, with all callers, it gives it back.
#[derive(Drop)]
pub struct BlockingMonitor {
    lobby: Lobby,
}

impl Model for BlockingMonitor {
    ghost use Rattle.std.specs.Coded.{codes};
    ghost use Rattle.logic_linear.specs.contracts.formula.Formula as formula;
    ghost use Rattle.lang_monitor.specs.contracts.monitor.Stmt as statement;
    ghost use Rattle.threads_lock.specs.Passes.{SharedView};

    ghost Value = { SharedView };

    ghost coded = { Prim.hlevel (codes, formula.the_row.coded, statement.the_row.coded) };

    ghost view = { λ b. b.lobby.monitor };
}

impl BlockingMonitor {
    /// Shares a monitor among callers, one for each client, and one where there is no client. It
    /// takes all memory that calls will need, and fails only for want of memory; the monitor is
    /// dropped then.
    pub fn open(
        alloc: Global,
        free: FreeMonitor,
    ) -> Result<(BlockingMonitor, Vec<Caller>), AllocError>
        ensures monitor { IfOk result (λ made.
            (made.0.start ≡ free) × (made.0.passes ≡ callers_of free)) }
        ensures callers { IfOk result (λ made. vec_len made.1 ≡ callers_of free) }
        ensures lock { IfOk result (λ made.
            All (λ caller. caller.lock ≡ made.0.lock) made.1.items) }
        ensures known { IfOk result (λ made.
            All (λ caller. caller.known ≡ newly_known free) made.1.items) }
        ensures always { IfOk result (λ made. HoldsAlways free) }
    {
        let clients = free.scripts().clients().len() as u32;
        let parkers = Parkers::open(alloc, &free)?;
        let (monitor, callers) = SharedMonitor::open(alloc, free, clients.max(1))?;
        let berths = open_berths(alloc, &monitor, clients)?;
        let lobby = Lobby {
            monitor,
            parkers,
            berths,
        };
        Ok((BlockingMonitor { lobby }, callers))
    }

    /// Makes sections of a client, until one replies or none can be made. It blocks while the
    /// client waits, and takes no memory. A caller is used by one thread at a time; callers call
    /// side by side. `Over` comes only where the client has no call left, and `Stalled` only where
    /// the monitor is closed and the client has a call left.
    pub fn commit<R: Wait>(&self, rt: &R, caller: &mut Caller, client: u32) -> CommitEnd
        requires own { caller.old.lock ≡ self.now.lock }
        requires client { client < length caller.old.known.front.system.clients }
        ensures own { caller.new.lock ≡ caller.old.lock }
        ensures commits { Commits client caller.old.known caller.new.known result }
        ensures always { IsKnown caller.new.known }
    {
        commit_by(rt, &self.lobby, caller, client)
    }

    /// The monitor, once all callers are back. Its log begins with all that the callers knew, has
    /// each receipt's entry at its place, and no spurious entry more than at the start; no two
    /// receipts are of one place, and the places are in the order of the tickets. Where a caller
    /// knew a closed monitor, it is that one. It takes no memory.
    pub fn close(self, callers: Vec<Caller>) -> FreeMonitor
        requires all { vec_len callers ≡ self.passes }
        requires own { All (λ caller. caller.lock ≡ self.lock) callers.items }
        ensures follows { Follows self.start result }
        ensures covers { All (λ caller. Covers result caller.known) callers.items }
        ensures once { HaveOneEach (length self.start.log) result.log (receipts_of callers.items) }
        ensures order { AreInOrder (receipts_of callers.items) }
        ensures always { HoldsAlways result }
    {
        let BlockingMonitor { lobby } = self;
        let Lobby {
            monitor,
            parkers: _,
            berths: _,
        } = lobby;
        monitor.close(callers)
    }

    /// The monitor that threads share.
    pub(crate) fn shared(&self) -> &SharedMonitor
        ensures { result.now ≡ self.now }
    {
        &self.lobby.monitor
    }
}

/// Tries to commit until the call ends.
fn commit_by<R: Wait>(rt: &R, lobby: &Lobby, caller: &mut Caller, client: u32) -> CommitEnd
    requires own { caller.old.lock ≡ lobby.now.monitor.lock }
    requires client { client < length caller.old.known.front.system.clients }
    ensures own { caller.new.lock ≡ caller.old.lock }
    ensures commits { Commits client caller.old.known caller.new.known result }
    ensures always { IsKnown caller.new.known }
{
    for _ in rt.forever() {
        match attempt(rt, lobby, caller, client) {
            Some(end) => return end,
            None => {}
        }
    }
    unreachable!()
}
