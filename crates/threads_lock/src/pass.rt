//! The right to use a shared monitor.

ghost use Rattle.std.specs.Prelude.{◌≡◌};
ghost use Rattle.threads_lock.specs.Passes.{IsKnown};
ghost use Rattle.threads_lock.specs.inner.Queueing.{IsIdle};

use super::rule::Seat;
use std::marker::Model;

/// The right to use a shared monitor, for one thread at a time. Contracts see which monitor it is
/// of and what it knows; the program keeps the length that it has seen.
#[derive(Drop)]
pub struct Pass {
    pub(crate) seat: Seat,
    pub(crate) seen: u64,
}

impl Model for Pass {
    ghost use Rattle.std.specs.Coded.{codes};
    ghost use Rattle.logic_linear.specs.contracts.formula.Formula as formula;
    ghost use Rattle.lang_monitor.specs.contracts.monitor.Stmt as statement;
    ghost use Rattle.threads_lock.specs.Passes.{PassView};
    ghost use Rattle.threads_lock.specs.inner.Seats.{pass_view, IsPass};

    ghost Value = { PassView };

    ghost coded = { Prim.hlevel (codes, formula.the_row.coded, statement.the_row.coded) };

    ghost view = { λ p. pass_view p.seat };

    ghost invariant = { λ p. IsPass p.seat.me p.seen };
}

impl Pass {
    /// The pass of a seat that has no ticket and one part of the right to close.
    pub(crate) fn new(seat: Seat, seen: u64) -> Pass
        requires idle { IsIdle seat.me }
        requires one_part { seat.me.0.parts ≡ 1 }
        requires seen { seen ≡ seat.me.0.known.seen }
        requires known { IsKnown seat.me.0.known }
        ensures lock { result.lock ≡ seat.table_id }
        ensures known { result.known ≡ seat.me.0.known }
    {
        Pass { seat, seen }
    }

    /// Its seat.
    pub(crate) fn into_seat(self) -> Seat
        ensures lock { result.table_id ≡ self.lock }
        ensures known { result.me.0.known ≡ self.known }
        ensures idle { IsIdle result.me }
        ensures one_part { result.me.0.parts ≡ 1 }
        ensures rule { IsKnown self.known }
    {
        let Pass { seat, seen: _ } = self;
        seat
    }

    /// A length that the log has reached, as this pass was last told. It looks at nothing.
    pub fn seen(&self) -> u64
        ensures seen { result ≡ self.now.known.seen }
        ensures always { IsKnown self.now.known }
    {
        self.seen
    }
}
