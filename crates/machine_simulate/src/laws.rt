//! What follows from the definitions alone.

ghost use Rattle.std.specs.Prelude.{◌≡◌, ℕ};
ghost use Rattle.machine_explicit.specs.Sections.{FreeMachine};
ghost use Rattle.machine_simulate.specs.Schedules.{IsByRounds, IsDrawn};

/// The schedule by rounds is one: any two runs by rounds of one monitor, from where it stands to
/// their ends, have the same log, and end in the same configuration.
pub fn one_log_by_rounds()
    ensures { (before one other : FreeMachine)
        → IsByRounds 0 before one → IsByRounds 0 before other
        → one ≡ other }
{}

/// A drawn schedule is one: any two runs of one monitor, from where it stands to their ends, by the
/// words of one seed and with at most the same number of spurious wake-ups have the same log, and
/// end in the same configuration.
pub fn one_drawn_log()
    ensures { (seed spurious : ℕ) (before one other : FreeMachine)
        → IsDrawn seed spurious before one → IsDrawn seed spurious before other
        → one ≡ other }
{}
