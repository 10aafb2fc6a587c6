//! What follows from the definitions alone.

ghost use Rattle.std.specs.Prelude.{◌≡◌, List};
ghost use Rattle.lang_monitor.specs.MonitorParts.{MonitorParts};
ghost use Rattle.machine_implicit.specs.declared.script.Client.{Client};
ghost use Rattle.machine_implicit.specs.declared.commit.Turns.{Turns};
ghost use Rattle.machine_implicit.specs.Rounds.{AreTurnsByRounds};
ghost use Rattle.machine_implicit.specs.Laws.{OneSituation, EndsHoldNoGuard};
ghost use Rattle.machine_implicit.specs.Laws.{RefusedExactly, EarlierBlocksAnswerNothing};
ghost use Rattle.machine_implicit.specs.Laws.{AssertionsNeverWait};
ghost use Rattle.machine_implicit.specs.Laws.{RunsFit, RunsAreShort};

/// The run by rounds is one run: any two that are by rounds, of one monitor and clients, to their
/// ends, are the same.
pub fn one_run_by_rounds()
    ensures { (monitor : MonitorParts) (clients : List Client) (one other : Turns)
        → AreTurnsByRounds monitor clients one → AreTurnsByRounds monitor clients other
        → one ≡ other }
{}

/// A history names the state and the clients' places after it; and where no client may step, no
/// client's guard is true.
pub fn one_situation()
    ensures one { OneSituation }
    ensures ends { EndsHoldNoGuard }
{}

/// A call is refused exactly at its first block, where it tries and the guard is false, which each
/// call of a method that asserts does; and a block before its method's last answers nothing.
pub fn replies_say()
    ensures refused { RefusedExactly }
    ensures asserts { AssertionsNeverWait }
    ensures nothing { EarlierBlocksAnswerNothing }
{}

/// After a run the state and the clients' places fit; and it has at most as many commits as all
/// calls have blocks.
pub fn runs_fit()
    ensures fit { RunsFit }
    ensures short { RunsAreShort }
{}
