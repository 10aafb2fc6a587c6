//! The rule of the lock, and what each step tells whoever makes it.

use crate::view::{Terms, View};
use atomic_table::{Join, Play, Split, Table, TableRule};
use machine_explicit::FreeMonitor;
use std::alloc::Global;

/// The word from which tickets are drawn.
pub const NEXT: usize = 0;
/// The word of the ticket that is served.
pub const SERVING: usize = 1;
/// The word of the log's length.
pub const COUNT: usize = 2;
/// The slot of the monitor.
pub const MACHINE: usize = 0;

/// What holds between any two steps.
pub struct Queueing;

impl TableRule<FreeMonitor, View, Terms> for Queueing {
    ghost use Rattle.threads_lock.specs.inner.Queueing.{Kept, newcomer};

    ghost holds = { Kept };

    ghost first = { newcomer };
}

/// A ticket is drawn.
pub struct Draw;

impl Play<FreeMonitor, View> for Draw {
    ghost use Rattle.threads_lock.specs.inner.Steps.{Drew};

    ghost then = { Drew };
}

/// The ticket that is served is read; whoever has it takes the monitor.
pub struct Call;

impl Play<FreeMonitor, View> for Call {
    ghost use Rattle.threads_lock.specs.inner.Steps.{Called};

    ghost then = { Called };
}

/// The log's length is stored, after a section.
pub struct Publish;

impl Play<FreeMonitor, View> for Publish {
    ghost use Rattle.threads_lock.specs.inner.Steps.{Published};

    ghost then = { Published };
}

/// The monitor is given back, and the next ticket is served.
pub struct Release;

impl Play<FreeMonitor, View> for Release {
    ghost use Rattle.threads_lock.specs.inner.Steps.{Released};

    ghost then = { Released };
}

/// The log's length is read.
pub struct Observe;

impl Play<FreeMonitor, View> for Observe {
    ghost use Rattle.threads_lock.specs.inner.Steps.{Observed};

    ghost then = { Observed };
}

/// A seat comes that has no part of the right to close.
pub struct Spare;

impl Play<FreeMonitor, View> for Spare {
    ghost use Rattle.threads_lock.specs.inner.Steps.{Came};

    ghost then = { Came };
}

/// One part of the right to close goes to a new seat, or comes back.
pub struct OnePart;

impl Split<View> for OnePart {
    ghost use Rattle.threads_lock.specs.inner.Queueing.{one_less, one_part};

    ghost left = { one_less };

    ghost right = { one_part };
}

impl Join<View> for OnePart {
    ghost use Rattle.threads_lock.specs.inner.Queueing.{together, spent};

    ghost both = { together };

    ghost spent = { spent };
}

/// The words, the slot and the rule.
pub type Board = Table<FreeMonitor, View, Terms, Queueing, Global>;

/// A seat at the board.
pub type Seat = atomic_table::Seat<FreeMonitor, View>;
