//! How a lock begins and ends.

ghost use Rattle.std.specs.Prelude.{◌≡◌, ◌<◌, [], IfOk};
ghost use Rattle.std.specs.List.{All};
ghost use Rattle.threads_lock.specs.declared.view.SeatState.TheVariants.{Idle};
ghost use Rattle.threads_lock.specs.Passes.{newly_known};
ghost use Rattle.threads_lock.specs.inner.Queueing.{IsIdle, view};
ghost use Rattle.threads_lock.specs.inner.Ends.{EndsWith};
ghost use Rattle.threads_lock.specs.inner.Gathered.{Gathered};

use super::bell::Bells;
use super::lent::Letters;
use super::lock::Lock;
use super::pass::Pass;
use super::rule::{MACHINE, Seat};
use super::view::Terms;
use atomic_table::Table;
use machine_explicit::FreeMonitor;
use std::alloc::{AllocError, Global};
use std::snapshot::Snapshot;

impl Lock {
    /// A lock with the monitor at home, and a seat that has all parts of the right to close.
    pub fn open(alloc: Global, free: FreeMonitor, passes: u32) -> Result<(Lock, Seat), AllocError>
        requires some { 0 < passes }
        ensures start { IfOk result (λ made. made.0.board.shared.key.start.value ≡ free) }
        ensures passes { IfOk result (λ made. made.0.board.shared.key.passes ≡ passes) }
        ensures own { IfOk result (λ made. made.1.table_id ≡ made.0.board.shared.table_id) }
        ensures whole { IfOk result (λ made.
            made.1.me ≡ (view Idle passes (newly_known free), [])) }
    {
        let bells = Bells::open(alloc)?;
        let terms = Terms {
            start: Snapshot::of(&free),
            passes: u64::from(passes),
        };
        let count = free.log().len() as u64;
        let mut slots = Vec::with_capacity(alloc, 1)?;
        slots.push_reserved(free);
        match Table::new(alloc, &[0, 0, count], slots, &terms) {
            Ok((board, seat)) => {
                let letters = Letters::open(alloc, &seat)?;
                let lock = Lock {
                    board,
                    bells,
                    letters,
                };
                Ok((lock, seat))
            }
            Err(_refused) => Err(AllocError),
        }
    }

    /// A seat takes in all that these passes have and know.
    pub fn gather(&self, seat: &mut Seat, passes: Vec<Pass>)
        requires own { seat.old.table_id ≡ self.now.board.shared.table_id }
        requires its { All (λ pass. pass.lock ≡ self.now.board.shared.table_id) passes.items }
        requires idle { IsIdle seat.old.me }
        requires live { 0 < seat.old.me.0.parts }
        ensures own { seat.new.table_id ≡ seat.old.table_id }
        ensures gathered { Gathered seat.old.me seat.new.me passes.items }
    {
        for pass in passes {
            self.take_in(seat, pass.into_seat());
        }
    }

    /// The monitor, for a seat that has all parts.
    pub fn close(self, seat: Seat) -> FreeMonitor
        requires own { seat.table_id ≡ self.board.shared.table_id }
        requires idle { IsIdle seat.me }
        requires all { seat.me.0.parts ≡ self.board.shared.key.passes }
        ensures { EndsWith self.board.shared.key.start.value seat.me.0.known result }
    {
        let Lock {
            board,
            bells: _,
            letters: _,
        } = self;
        let mut closed = board.close_with(seat);
        let free = closed.take(MACHINE);
        closed.free();
        free
    }
}
