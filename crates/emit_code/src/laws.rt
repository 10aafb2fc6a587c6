//! What follows from the definitions alone.

ghost use Rattle.emit_code.specs.Laws.{LateHoldersAct, LateExecutionsRun, LateAnswersAreReplies};
ghost use Rattle.emit_code.specs.Laws.{LateSleepersAreSeenTo, LateStillIsTheEnd};
ghost use Rattle.emit_code.specs.Laws.{LateStillEndsTheRun, LateOrderIsTold};
ghost use Rattle.emit_code.specs.Laws.{LateBodiesAreReady, LateFunctionsRanOnce};
ghost use Rattle.emit_code.specs.Laws.{LateDataFollowTheRun};
ghost use Rattle.emit_code.specs.Laws.{LateQuietIsAtRest, CountedQuietIsAtRest};
ghost use Rattle.emit_code.specs.Laws.{LateSleepersAreCounted, LateUncountedSleepNot};
ghost use Rattle.emit_code.specs.Laws.{LateLeftOutIsMade};
ghost use Rattle.emit_code.specs.Laws.{CountedSleepersAreSeenTo, CountedStillIsTheEnd};
ghost use Rattle.emit_code.specs.Laws.{CountedStillEndsTheRun, LivePlansCount};
ghost use Rattle.emit_code.specs.Laws.{CountedCodeLosesNone};
ghost use Rattle.emit_code.specs.Laws.{LivePlansFit, LivePlansAreLawful, PrintedCodeLosesNone};
ghost use Rattle.emit_code.specs.Laws.{LateNobodyIsOwed, AssertingCodeWaitsNowhere};

/// Whatever the interleaving of any threads that call the methods of a monitor, any number of
/// times, by code that makes the notes of each block before or after it gives the mutex back, or
/// leaves out those on conditions on which nobody sleeps by its count, with functions that are run
/// with bodies, any of which may panic, and with calls that try but wait first, for a time: who
/// reads or changes the state holds the mutex, a body and its function are run where the guard is
/// true, what ran is a run of the implicit monitor, in which a block whose function panicked has
/// changed nothing, and what a call answers is the reply of the last that its thread did. Under a
/// lawful plan no wake-up is lost: where nobody holds the mutex and a thread sleeps whose guard is
/// true, a thread is notified on its condition, or has a note on it to make; and where no thread
/// can move but by chance, each has no call left, or sleeps and its guard is false, and the run is
/// at its end. Threads may also stop between two calls or before they lock the mutex, as after a
/// panic, and times may never end: where the others can't move, none of them hangs whose guard is
/// true. A call that gives up after its time has no note to pass on: where the guard of its
/// condition reads no inputs, it is false for each that sleeps there. The order that is printed is
/// such an order: the mutex is given back, and the notes come next that the counts and tests called
/// for then.
pub fn late_notes_lose_none()
    ensures mutex { LateHoldersAct }
    ensures ready { LateBodiesAreReady }
    ensures run { LateExecutionsRun }
    ensures answers { LateAnswersAreReplies }
    ensures owed { LateNobodyIsOwed }
    ensures pending { LateSleepersAreSeenTo }
    ensures rests { LateQuietIsAtRest }
    ensures ends { LateStillIsTheEnd }
    ensures ends_the_run { LateStillEndsTheRun }
    ensures order { LateOrderIsTold }
{}

/// Whatever the plan and the order, at each moment of each execution: the count of a condition is
/// how many threads sleep on it or are notified and not yet back; where it is 0 nobody sleeps on
/// the condition; and a note there would do nothing, so who leaves it out has made it.
pub fn counts_are_kept()
    ensures kept { LateSleepersAreCounted }
    ensures nobody { LateUncountedSleepNot }
    ensures left_out { LateLeftOutIsMade }
{}

/// Whatever the plan and the order: in an execution functions are called with the last bodies of
/// the code of calls, and those that returned are those of the calls that blocks completed, by what
/// the monitor says, each once, in the order of what ran.
pub fn functions_run_once()
    ensures { LateFunctionsRanOnce }
{}

/// So where no function panics, what is left of data of any kind, by any functions, is what those
/// of the calls that blocks completed leave of them, in the order of what ran.
pub fn data_follow_the_run<D>()
    ensures { LateDataFollowTheRun D }
{}

/// The code of a method that asserts is one, of calls that try and of those that don't, and waits
/// nowhere: so nobody ever sleeps in a call of it.
pub fn asserting_code_waits_nowhere()
    ensures { AssertingCodeWaitsNowhere }
{}

/// The plan without the notes that nobody hears fits its monitor where the plan does, and is lawful
/// where the plan is.
pub fn live_plans_are_lawful()
    ensures fits { LivePlansFit }
    ensures lawful { LivePlansAreLawful }
{}

/// So all this is true of the program that is printed of a monitor and a lawful plan, at each
/// moment of each execution, also where some of its calls have times.
pub fn printed_code_loses_none()
    ensures { PrintedCodeLosesNone }
{}

/// The same under plans that are lawful by counting.
pub fn counted_code_loses_none()
    ensures pending { CountedSleepersAreSeenTo }
    ensures rests { CountedQuietIsAtRest }
    ensures ends { CountedStillIsTheEnd }
    ensures ends_the_run { CountedStillEndsTheRun }
    ensures live { LivePlansCount }
    ensures printed { CountedCodeLosesNone }
{}
