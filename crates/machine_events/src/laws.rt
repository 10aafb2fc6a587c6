//! What follows from the definitions alone.

ghost use Rattle.machine_events.specs.Laws.{WakesArePending, StuckIsTheEnd};
ghost use Rattle.machine_events.specs.Laws.{CountedWakesArePending, CountedStuckIsTheEnd};
ghost use Rattle.machine_events.specs.Laws.{CountedClosedIsTheEnd, CountedEventsKeepCovered};
ghost use Rattle.machine_events.specs.Laws.{LawfulIsByCounting};
ghost use Rattle.machine_events.specs.CountClaims.{CountingApplies, GuardsCount};
ghost use Rattle.machine_events.specs.Laws.{EventsKeepSound, EventsKeepCovered};
ghost use Rattle.machine_events.specs.Laws.{CountingForEveryChoice, FitsForEveryChoice};
ghost use Rattle.machine_events.specs.Laws.{LawfulForEveryChoice, SystemsOfEveryChoice};
ghost use Rattle.machine_events.specs.Laws.{EveryoneFits, EveryoneIsLawful, BodiesKeepKinds};
ghost use Rattle.machine_events.specs.Laws.{KeptApplies, NoneNeededApplies, OneEnoughApplies};
ghost use Rattle.machine_events.specs.Laws.{NoTestApplies, LegalLogsRun, ClosedIsTheEnd};
ghost use Rattle.machine_events.specs.Laws.{LogsAreBounded, LogsSayCommits};
ghost use Rattle.machine_events.specs.Laws.{WaitersHaveConditions, NobodyWaitsToAssert};

/// Whatever events come from the start of a system with a lawful plan, spurious wake-ups among
/// them: where no one owns the lock and a client waits whose guard is true, some client is woken on
/// its condition; and where no event but a spurious wake-up is allowed, no client may step.
pub fn no_wakeup_is_lost()
    ensures pending { WakesArePending }
    ensures ends { StuckIsTheEnd }
{}

/// The same under plans that are lawful by counting, where a condition of kind signal may be
/// counted: the blocks' notes on it are as many as the clients that they let pass. A lawful plan is
/// one.
pub fn counting_loses_no_wakeup()
    ensures lawful { LawfulIsByCounting }
    ensures covered { CountedEventsKeepCovered }
    ensures pending { CountedWakesArePending }
    ensures ends { CountedStuckIsTheEnd }
    ensures closed { CountedClosedIsTheEnd }
{}

/// Every event keeps what each configuration keeps, and under a lawful plan that wake-ups are on
/// their way.
pub fn events_keep()
    ensures sound { EventsKeepSound }
    ensures covered { EventsKeepCovered }
{}

/// Whatever events come from the start, who waits does so on a condition that there is, and in a
/// call of a method that does not assert.
pub fn nobody_waits_to_assert()
    ensures conditions { WaitersHaveConditions }
    ensures methods { NobodyWaitsToAssert }
{}

/// The commits after a legal log are a run of the implicit machine to the state and the places of
/// the clients; and under a lawful plan no client may step where the log is closed. The commits are
/// the replies of the log.
pub fn legal_logs_run()
    ensures run { LegalLogsRun }
    ensures ends { ClosedIsTheEnd }
    ensures commits { LogsSayCommits }
{}

/// A legal log has at most as many entries as clients times blocks of all calls, and two more for
/// each spurious wake-up in it.
pub fn log_is_bounded()
    ensures { LogsAreBounded }
{}

/// The plan under which everyone is woken fits its monitor, and is lawful.
pub fn everyone_is_lawful()
    ensures fits { EveryoneFits }
    ensures lawful { EveryoneIsLawful }
{}

/// Whatever a monitor is opened with, a plan that fits it fits it as opened, and one that is lawful
/// for it is so: what is said of systems holds of the system whose monitor is opened so.
pub fn lawful_for_every_choice()
    ensures systems { SystemsOfEveryChoice }
    ensures fits { FitsForEveryChoice }
    ensures lawful { LawfulForEveryChoice }
    ensures counting { CountingForEveryChoice }
{}

/// After a body that fits, the fields and the locals have values of their kinds, over whole numbers
/// without bounds.
pub fn bodies_keep_kinds()
    ensures { BodiesKeepKinds }
{}

/// What the triples say of all whole numbers holds in a state, at the inputs of a call, arguments
/// and locals, and at those of a client that waits, whatever they are.
pub fn triples_apply()
    ensures keeps { KeptApplies }
    ensures none_needed { NoneNeededApplies }
    ensures one_enough { OneEnoughApplies }
    ensures no_test { NoTestApplies }
{}

/// A condition is counted where valid triples say so of each block: how much its form falls, and
/// that at most one client may pass where none could before. So a plan is lawful by counting where
/// valid triples say so of it.
pub fn counting_applies()
    ensures condition { CountingApplies }
    ensures plan { GuardsCount }
{}
